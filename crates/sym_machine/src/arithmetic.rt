// Operations on values. On numbers they are the operations of the instruction set.
ghost use Rattle.std.specs.Prelude.{◌≡◌, ◌-◌, ◌^◌, ◌==◌, ◌&&◌, Option, Some, None, false};
ghost use Rattle.rv_code.specs.isa.Op.{apply};
ghost use Rattle.sym_machine.specs.Values.{number};
ghost use Rattle.sym_machine.specs.Rules.{is_nonzero, copied, compared, compared_by, masked, on_constant};
ghost use Rattle.rb_bytes.specs.Options.{only_if};
ghost use Rattle.sym_machine.specs.internal.Cases.{pointer_in, compared_values, masked_value, both_numbers};

use crate::inst_index::InstIndex;
use crate::value::{CodeSymbol, Comparing, Pointer, Value};
use rv_code::Op;

/// Whether a value is certainly not 0: a pointer, or the result of comparing two different pointers.
pub fn is_nonzero(value: Value) -> bool
    ensures { result ≡ is_nonzero value }
{
    match value {
        Value::Num(_) => false,
        Value::Sym(symbol) => is_symbol_nonzero(symbol),
        Value::Piece { .. } => false,
    }
}

fn is_symbol_nonzero(symbol: CodeSymbol) -> bool
    ensures { result ≡ is_nonzero (Value.Sym symbol) }
{
    match symbol {
        CodeSymbol::Points(_) => true,
        CodeSymbol::Apart { .. } => true,
        CodeSymbol::Hi(_) => false,
        CodeSymbol::Abs(_) => false,
        CodeSymbol::Diff { .. } => false,
    }
}

// A copy of `value`, made by adding 0.
fn copied(value: Value, other: Value) -> Option<Value>
    ensures { result ≡ copied value other }
{
    match other {
        Value::Num(number) => { if number == 0 { Some(value) } else { None } }
        Value::Sym(_) => None,
        Value::Piece { .. } => None,
    }
}

// The result of comparing pointers of one kind with the addresses `a` and `b`.
fn compared(by: Comparing, left: Pointer, right: Pointer, a: u64, b: u64) -> Value
    ensures { result ≡ compared by left right a b }
{
    if a == b {
        Value::Num(0)
    } else {
        Value::Sym(CodeSymbol::Apart { by, left, right })
    }
}

// SUB or XOR of two pointers.
fn compared_by(by: Comparing, left: Pointer, right: Pointer) -> Option<Value>
    ensures { result ≡ compared_by by left right }
{
    match left {
        Pointer::Code(a) => match right {
            Pointer::Code(b) => Some(compared(by, left, right, a, b)),
            Pointer::Ret(_) => None,
        },
        Pointer::Ret(a) => match right {
            Pointer::Code(_) => None,
            Pointer::Ret(b) => Some(compared(by, left, right, a, b)),
        },
    }
}

// ANDI of a pointer. Code addresses are even, so the mask -2 leaves the pointer unchanged, and the mask 1 gives 0.
fn masked(pointer: Pointer, mask: u64) -> Option<Value>
    ensures { result ≡ masked pointer mask }
{
    if mask == 1 {
        return Some(Value::Num(0));
    }
    if mask == 0xffff_ffff_ffff_fffe {
        return Some(Value::Sym(CodeSymbol::Points(pointer)));
    }
    None
}

fn pointer_in(value: Value) -> Option<Pointer>
    ensures { result ≡ pointer_in value }
{
    match value {
        Value::Sym(symbol) => pointer_of(symbol),
        Value::Num(_) => None,
        Value::Piece { .. } => None,
    }
}

fn pointer_of(symbol: CodeSymbol) -> Option<Pointer>
    ensures { result ≡ pointer_in (Value.Sym symbol) }
{
    match symbol {
        CodeSymbol::Points(pointer) => Some(pointer),
        CodeSymbol::Hi(_) => None,
        CodeSymbol::Abs(_) => None,
        CodeSymbol::Diff { .. } => None,
        CodeSymbol::Apart { .. } => None,
    }
}

// SUB or XOR of two values that aren't both numbers.
fn compared_values(by: Comparing, left: Value, right: Value) -> Option<Value>
    ensures { result ≡ compared_values by left right }
{
    let p = pointer_in(left)?;
    let q = pointer_in(right)?;
    compared_by(by, p, q)
}

// ANDI of a value that isn't a number.
fn masked_value(value: Value, mask: u64) -> Option<Value>
    ensures { result ≡ masked_value value mask }
{
    let pointer = pointer_in(value)?;
    masked(pointer, mask)
}

// SLTIU of a value that isn't a number. With the bound 1 it tests for 0 (SEQZ), so the result is 0 if the value is
// certainly not 0.
fn is_zero(value: Value, bound: u64) -> Option<Value>
    ensures { result ≡ only_if (bound == 1 && is_nonzero value) (Value.Num 0) }
{
    if bound == 1 && is_nonzero(value) {
        Some(Value::Num(0))
    } else {
        None
    }
}

// ADDI of a value that isn't a number: only 0 can be added.
fn moved(value: Value, offset: u64) -> Option<Value>
    ensures { result ≡ only_if (offset == 0) value }
{
    if offset == 0 { Some(value) } else { None }
}

/// An operation on a register and a constant.
pub fn on_constant(op: Op, value: Value, constant: u64) -> Option<Value>
    ensures { result ≡ on_constant op value constant }
{
    match value {
        Value::Num(number) => Some(Value::Num(op.apply(number, constant))),
        Value::Sym(_) => symbol_on_constant(op, value, constant),
        Value::Piece { .. } => symbol_on_constant(op, value, constant),
    }
}

fn symbol_on_constant(op: Op, value: Value, constant: u64) -> Option<Value>
    requires { number value ≡ None }
    ensures { result ≡ on_constant op value constant }
{
    match op {
        Op::Add => moved(value, constant),
        Op::Sltu => is_zero(value, constant),
        Op::And => masked_value(value, constant),
        _ => None,
    }
}

impl<'a> InstIndex<'a> {
    ghost use Rattle.sym_machine.specs.Values.{value_of, is_value_of};
    ghost use Rattle.sym_machine.specs.Rules.{from_difference, sum, on_registers, on_zero};

    // The first label's value, if `value` is the difference of two labels and `other` is the second label's value.
    fn from_difference(&self, value: Value, other: Value) -> Option<Value>
        ensures { result ≡ from_difference self.now.funcs.now value other }
    {
        match value {
            Value::Num(_) => None,
            Value::Sym(symbol) => self.from_symbol(symbol, other),
            Value::Piece { .. } => None,
        }
    }

    fn from_symbol(&self, symbol: CodeSymbol, other: Value) -> Option<Value>
        ensures { result ≡ from_difference self.now.funcs.now (Value.Sym symbol) other }
    {
        match symbol {
            CodeSymbol::Diff { to, from } => {
                if self.is_value_of(from, other) {
                    Some(self.value_of(to))
                } else {
                    None
                }
            }
            CodeSymbol::Points(_) => None,
            CodeSymbol::Hi(_) => None,
            CodeSymbol::Abs(_) => None,
            CodeSymbol::Apart { .. } => None,
        }
    }

    // ADD of two values that aren't both numbers.
    fn sum(&self, left: Value, right: Value) -> Option<Value>
        ensures { result ≡ sum self.now.funcs.now left right }
    {
        self.from_difference(left, right)
            .or(self.from_difference(right, left))
            .or(copied(left, right))
            .or(copied(right, left))
    }

    fn symbols_on_registers(&self, op: Op, left: Value, right: Value) -> Option<Value>
        requires { both_numbers left right ≡ false }
        ensures { result ≡ on_registers self.now.funcs.now op left right }
    {
        match op {
            Op::Add => self.sum(left, right),
            Op::Sub => compared_values(Comparing::Sub, left, right),
            Op::Xor => compared_values(Comparing::Xor, left, right),
            _ => None,
        }
    }

    /// An operation on two registers.
    pub fn on_registers(&self, op: Op, left: Value, right: Value) -> Option<Value>
        ensures { result ≡ on_registers self.now.funcs.now op left right }
    {
        match left {
            Value::Num(a) => match right {
                Value::Num(b) => Some(Value::Num(op.apply(a, b))),
                Value::Sym(_) => self.symbols_on_registers(op, left, right),
                Value::Piece { .. } => self.symbols_on_registers(op, left, right),
            },
            Value::Sym(_) => self.symbols_on_registers(op, left, right),
            Value::Piece { .. } => self.symbols_on_registers(op, left, right),
        }
    }

    /// An operation on register 0 and another register. SLTU then tests that the other isn't 0, as SNEZ does.
    pub fn on_zero(&self, op: Op, zero: Value, value: Value) -> Option<Value>
        ensures { result ≡ on_zero self.now.funcs.now op zero value }
    {
        match op {
            Op::Sltu => {
                if is_nonzero(value) {
                    Some(Value::Num(1))
                } else {
                    self.on_registers(op, zero, value)
                }
            }
            _ => self.on_registers(op, zero, value),
        }
    }
}
