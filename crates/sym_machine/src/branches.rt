// The tests of branches on values.
ghost use Rattle.std.specs.Prelude.{◌≡◌, ◌==◌, ◌&&◌, false, Option, Some, None};
ghost use Rattle.sym_machine.specs.Rules.{equal_pointers, equal_number, tested};
ghost use Rattle.sym_machine.specs.internal.Cases.{numbers_tested};

use crate::arithmetic::is_nonzero;
use crate::value::{CodeSymbol, Pointer, Value};
use rv_code::Test;

// Whether two pointers are equal, if they are of one kind.
fn equal_pointers(left: Pointer, right: Pointer) -> Option<bool>
    ensures { result ≡ equal_pointers left right }
{
    match left {
        Pointer::Code(a) => match right {
            Pointer::Code(b) => Some(a == b),
            Pointer::Ret(_) => None,
        },
        Pointer::Ret(a) => match right {
            Pointer::Code(_) => None,
            Pointer::Ret(b) => Some(a == b),
        },
    }
}

// Whether a value equals a number, if this is known.
fn equal_number(value: Value, number: u64) -> Option<bool>
    ensures { result ≡ equal_number value number }
{
    if number == 0 && is_nonzero(value) {
        Some(false)
    } else {
        None
    }
}

fn equal_symbols(left: CodeSymbol, right: CodeSymbol) -> Option<bool>
    ensures { result ≡ tested Test.Equal (Value.Sym left) (Value.Sym right) }
{
    match left {
        CodeSymbol::Points(p) => equal_pointer(p, right),
        CodeSymbol::Hi(_) => None,
        CodeSymbol::Abs(_) => None,
        CodeSymbol::Diff { .. } => None,
        CodeSymbol::Apart { .. } => None,
    }
}

fn equal_pointer(pointer: Pointer, symbol: CodeSymbol) -> Option<bool>
    ensures { result ≡ tested Test.Equal (Value.Sym (CodeSymbol.Points pointer)) (Value.Sym symbol) }
{
    match symbol {
        CodeSymbol::Points(p) => equal_pointers(pointer, p),
        CodeSymbol::Hi(_) => None,
        CodeSymbol::Abs(_) => None,
        CodeSymbol::Diff { .. } => None,
        CodeSymbol::Apart { .. } => None,
    }
}

// Whether two values are equal, if this is known.
fn equal(left: Value, right: Value) -> Option<bool>
    ensures { result ≡ tested Test.Equal left right }
{
    match left {
        Value::Num(a) => match right {
            Value::Num(b) => Some(a == b),
            Value::Sym(_) => equal_number(right, a),
            Value::Piece { .. } => equal_number(right, a),
        },
        Value::Sym(y) => match right {
            Value::Num(b) => equal_number(left, b),
            Value::Sym(z) => equal_symbols(y, z),
            Value::Piece { .. } => None,
        },
        Value::Piece { .. } => match right {
            Value::Num(b) => equal_number(left, b),
            Value::Sym(_) => None,
            Value::Piece { .. } => None,
        },
    }
}

// The result of a test, if both values are numbers.
fn numbers_tested(test: Test, left: Value, right: Value) -> Option<bool>
    ensures { result ≡ numbers_tested test left right }
{
    match left {
        Value::Num(a) => match right {
            Value::Num(b) => Some(test.holds(a, b)),
            Value::Sym(_) => None,
            Value::Piece { .. } => None,
        },
        Value::Sym(_) => None,
        Value::Piece { .. } => None,
    }
}

/// Whether a branch's test holds, if this is known.
pub fn tested(test: Test, left: Value, right: Value) -> Option<bool>
    ensures { result ≡ tested test left right }
{
    match test {
        Test::Equal => equal(left, right),
        Test::LessSigned => numbers_tested(test, left, right),
        Test::LessUnsigned => numbers_tested(test, left, right),
    }
}
