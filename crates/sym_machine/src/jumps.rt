// Jumps through registers.
ghost use Rattle.std.specs.Prelude.{◌≡◌, Option, Some, None};
ghost use Rattle.sym_machine.specs.Rules.{pointer};

use crate::inst_index::InstIndex;
use crate::parts::is_lower;
use crate::value::{CodeSymbol, Pointer, Value};
use rv_code::Role;

/// The pointer to which a JALR with this offset goes, if its value is a pointer.
pub fn pointer(role: Role, offset: u64, value: Value) -> Option<Pointer>
    ensures { result ≡ pointer role offset value }
{
    match value {
        Value::Num(_) => None,
        Value::Sym(symbol) => symbol_pointer(role, offset, symbol),
        Value::Piece { .. } => None,
    }
}

fn symbol_pointer(role: Role, offset: u64, symbol: CodeSymbol) -> Option<Pointer>
    ensures { result ≡ pointer role offset (Value.Sym symbol) }
{
    match symbol {
        CodeSymbol::Points(p) => {
            if is_lower(role) || offset == 0 {
                Some(p)
            } else {
                None
            }
        }
        CodeSymbol::Hi(_) => None,
        CodeSymbol::Abs(_) => None,
        CodeSymbol::Diff { .. } => None,
        CodeSymbol::Apart { .. } => None,
    }
}

impl<'a> InstIndex<'a> {
    ghost use Rattle.sym_machine.specs.Rules.{goal, destination};

    /// The value to which a JALR goes: its lower part's target, or its register's value.
    pub fn goal(&self, role: Role, base: Value) -> Option<Value>
        ensures { result ≡ goal self.now.funcs.now role base }
    {
        if is_lower(role) {
            self.joined(role, base)
        } else {
            Some(base)
        }
    }

    /// The address to which a pointer leads. `None` if it points after a function's last instruction.
    pub fn destination(&self, pointer: Pointer) -> Option<u64>
        ensures { result ≡ destination self.now.funcs.now pointer }
    {
        match pointer {
            Pointer::Code(address) => Some(address),
            Pointer::Ret(call) => self.next_of(call),
        }
    }
}
