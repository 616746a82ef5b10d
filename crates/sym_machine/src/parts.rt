// Upper and lower parts of addresses. psABI, "Relocations".
ghost use Rattle.std.specs.Prelude.{◌≡◌, Option, Some, None, if◌then◌else◌};
ghost use Rattle.sym_machine.specs.Rules.{upper_of_distance, upper_of_address, is_hi, is_abs, is_lower};

use crate::inst_index::InstIndex;
use crate::value::{CodeSymbol, Pointer, Value};
use rv_code::Role;

/// The result of the AUIPC at an address. `None` if its role isn't an upper part.
pub fn upper_of_distance(role: Role, address: u64) -> Option<Value>
    ensures { result ≡ upper_of_distance role address }
{
    match role {
        Role::Hi { .. } | Role::CallHi { .. } => Some(Value::Sym(CodeSymbol::Hi(address))),
        _ => None,
    }
}

/// The result of a LUI whose immediate times 4096 is `number`.
pub fn upper_of_address(role: Role, number: u64) -> Value
    ensures { result ≡ upper_of_address role number }
{
    match role {
        Role::AbsHi { target } => Value::Sym(CodeSymbol::Abs(target)),
        _ => Value::Num(number),
    }
}

/// Whether a role is a lower part.
pub fn is_lower(role: Role) -> bool
    ensures { result ≡ is_lower role }
{
    matches!(
        role,
        Role::Lo { .. } | Role::CallLo { .. } | Role::AbsLo { .. }
    )
}

// Whether a value is the result of the AUIPC at `address`.
fn is_hi(address: u64, value: Value) -> bool
    ensures { result ≡ is_hi address value }
{
    match value {
        Value::Sym(CodeSymbol::Hi(from)) => address == from,
        _ => false,
    }
}

// Whether a value is the result of a LUI for the upper part of `target`.
fn is_abs(target: u64, value: Value) -> bool
    ensures { result ≡ is_abs target value }
{
    match value {
        Value::Sym(CodeSymbol::Abs(to)) => target == to,
        _ => false,
    }
}

impl<'a> InstIndex<'a> {
    ghost use Rattle.sym_machine.specs.Values.{value_of, is_value_of};
    ghost use Rattle.rb_bytes.specs.Options.{only_if};
    ghost use Rattle.sym_machine.specs.Rules.{joined};

    /// The value of an address: a pointer if an instruction starts there, otherwise a number.
    pub fn value_of(&self, address: u64) -> Value
        ensures { result ≡ value_of self.now.funcs.now address }
    {
        if self.is_code_address(address) {
            Value::Sym(CodeSymbol::Points(Pointer::Code(address)))
        } else {
            Value::Num(address)
        }
    }

    /// Whether `value` is the value of `address`.
    pub fn is_value_of(&self, address: u64, value: Value) -> bool
        ensures { result ≡ is_value_of self.now.funcs.now address value }
    {
        match value {
            Value::Num(number) => !self.is_code_address(address) && number == address,
            Value::Sym(symbol) => self.is_symbol_of(address, symbol),
            Value::Piece { .. } => false,
        }
    }

    fn is_symbol_of(&self, address: u64, symbol: CodeSymbol) -> bool
        ensures { result ≡ is_value_of self.now.funcs.now address (Value.Sym symbol) }
    {
        match symbol {
            CodeSymbol::Points(Pointer::Code(to)) => self.is_code_address(address) && to == address,
            CodeSymbol::Points(Pointer::Ret(_)) => false,
            CodeSymbol::Hi(_) => false,
            CodeSymbol::Abs(_) => false,
            CodeSymbol::Diff { .. } => false,
            CodeSymbol::Apart { .. } => false,
        }
    }

    /// The target that a lower part and its base give together. `None` if the base isn't the upper part that belongs to
    /// it.
    pub fn joined(&self, role: Role, base: Value) -> Option<Value>
        ensures { result ≡ joined self.now.funcs.now role base }
    {
        match role {
            Role::Lo { hi, target } => self.joined_distance(hi, target, base),
            Role::CallLo { hi, target } => self.joined_distance(hi, target, base),
            Role::AbsLo { target } => joined_address(target, base),
            Role::Plain => None,
            Role::CallHi { .. } => None,
            Role::Hi { .. } => None,
            Role::AbsHi { .. } => None,
        }
    }

    fn joined_distance(&self, hi: u64, target: u64, base: Value) -> Option<Value>
        ensures { result ≡ only_if (is_hi hi base) (value_of self.now.funcs.now target) }
    {
        if is_hi(hi, base) {
            Some(self.value_of(target))
        } else {
            None
        }
    }
}

fn joined_address(target: u64, base: Value) -> Option<Value>
    ensures { result ≡ (if is_abs target base then Some (Value.Sym (CodeSymbol.Points (Pointer.Code target))) else
        None) }
{
    if is_abs(target, base) {
        Some(Value::Sym(CodeSymbol::Points(Pointer::Code(target))))
    } else {
        None
    }
}
