// Equality of symbols, and values that are numbers.
ghost use Rattle.std.specs.Prelude.{◌≡◌};
ghost use Rattle.sym_machine.specs.Values.{same_pointer, same_comparing, same_symbol, number};

use crate::value::{CodeSymbol, Comparing, Pointer, Value};

// Whether two pointers are equal.
fn same_pointer(left: Pointer, right: Pointer) -> bool
    ensures { result ≡ same_pointer left right }
{
    match left {
        Pointer::Code(a) => match right {
            Pointer::Code(b) => a == b,
            Pointer::Ret(_) => false,
        },
        Pointer::Ret(a) => match right {
            Pointer::Code(_) => false,
            Pointer::Ret(b) => a == b,
        },
    }
}

fn same_comparing(left: Comparing, right: Comparing) -> bool
    ensures { result ≡ same_comparing left right }
{
    match left {
        Comparing::Sub => match right {
            Comparing::Sub => true,
            Comparing::Xor => false,
        },
        Comparing::Xor => match right {
            Comparing::Sub => false,
            Comparing::Xor => true,
        },
    }
}

/// Whether two symbols are equal.
pub fn same_symbol(left: CodeSymbol, right: CodeSymbol) -> bool
    ensures { result ≡ same_symbol left right }
{
    match left {
        CodeSymbol::Points(p) => match right {
            CodeSymbol::Points(q) => same_pointer(p, q),
            _ => false,
        },
        CodeSymbol::Hi(a) => match right {
            CodeSymbol::Hi(b) => a == b,
            _ => false,
        },
        CodeSymbol::Abs(a) => match right {
            CodeSymbol::Abs(b) => a == b,
            _ => false,
        },
        CodeSymbol::Diff { to, from } => match right {
            CodeSymbol::Diff {
                to: other_to,
                from: other_from,
            } => to == other_to && from == other_from,
            _ => false,
        },
        CodeSymbol::Apart {
            by,
            left,
            right: other,
        } => is_apart(by, left, other, right),
    }
}

// Whether a symbol is the result of comparing these two pointers.
fn is_apart(by: Comparing, left: Pointer, right: Pointer, symbol: CodeSymbol) -> bool
    ensures { result ≡ same_symbol (CodeSymbol.Apart by left right) symbol }
{
    match symbol {
        CodeSymbol::Apart {
            by: other_by,
            left: other_left,
            right: other_right,
        } => {
            same_comparing(by, other_by)
                && same_pointer(left, other_left)
                && same_pointer(right, other_right)
        }
        _ => false,
    }
}

/// The number, if the value is one.
pub fn number(value: Value) -> Option<u64>
    ensures { result ≡ number value }
{
    match value {
        Value::Num(number) => Some(number),
        Value::Sym(_) => None,
        Value::Piece { .. } => None,
    }
}
