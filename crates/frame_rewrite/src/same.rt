// Whether two answers say the same.
ghost use Rattle.std.specs.Prelude.{◌≡◌, ◌↔◌, IsTrue};
ghost use Rattle.std.specs.Str.{bytes_eq};
ghost use Rattle.frame_rewrite.specs.SpelledFrames.{same_rule};

use crate::answer::FrameAt;
use cfi_rows::row::Expression;
use cfi_rows::{Cfa, Row, Rule};

fn same_expression(x: &Expression, y: &Expression) -> bool
    ensures is { result ≡ bytes_eq x.now y.now }
    ensures same { IsTrue result ↔ (x.now ≡ y.now) }
{
    x.bytes == y.bytes
}

fn same_cfa(x: &Cfa, y: &Cfa) -> bool
    ensures { IsTrue result ↔ (x.now ≡ y.now) }
{
    match (x, y) {
        (
            Cfa::Reg { reg, offset },
            Cfa::Reg {
                reg: other,
                offset: by,
            },
        ) => *reg == *other && *offset == *by,
        (Cfa::Expr(a), Cfa::Expr(b)) => same_expression(a, b),
        (Cfa::Reg { reg: _, offset: _ }, Cfa::Expr(_)) => false,
        (Cfa::Expr(_), Cfa::Reg { reg: _, offset: _ }) => false,
    }
}

/// Whether two rules say the same.
pub(crate) fn same_rule(x: &Rule, y: &Rule) -> bool
    ensures is { result ≡ same_rule x.now y.now }
    ensures same { IsTrue result ↔ (x.now ≡ y.now) }
{
    match (x, y) {
        (Rule::Undefined, Rule::Undefined) => true,
        (Rule::Same, Rule::Same) => true,
        (Rule::Offset(a), Rule::Offset(b)) => *a == *b,
        (Rule::ValOffset(a), Rule::ValOffset(b)) => *a == *b,
        (Rule::Reg(a), Rule::Reg(b)) => *a == *b,
        (Rule::Expr(a), Rule::Expr(b)) => same_expression(a, b),
        (Rule::ValExpr(a), Rule::ValExpr(b)) => same_expression(a, b),
        (Rule::Undefined, _) => false,
        (Rule::Same, _) => false,
        (Rule::Offset(_), _) => false,
        (Rule::ValOffset(_), _) => false,
        (Rule::Reg(_), _) => false,
        (Rule::Expr(_), _) => false,
        (Rule::ValExpr(_), _) => false,
    }
}

fn same_entry(x: &(u64, Rule), y: &(u64, Rule)) -> bool
    ensures { IsTrue result ↔ (x.now ≡ y.now) }
{
    x.0 == y.0 && same_rule(&x.1, &y.1)
}

fn same_rules(x: &[(u64, Rule)], y: &[(u64, Rule)]) -> bool
    ensures { IsTrue result ↔ (x.now ≡ y.now) }
{
    if x.len() != y.len() {
        return false;
    }
    for i in 0..x.len() {
        if !same_entry(&x[i], &y[i]) {
            return false;
        }
    }
    true
}

fn same_row(x: &Row, y: &Row) -> bool
    ensures { IsTrue result ↔ (x.now ≡ y.now) }
{
    same_cfa(&x.cfa, &y.cfa) && same_rules(&x.rules, &y.rules)
}

/// Whether two answers say the same.
pub(crate) fn same_answer(x: &FrameAt, y: &FrameAt) -> bool
    ensures { IsTrue result ↔ (x.now ≡ y.now) }
{
    same_row(&x.row, &y.row)
        && x.ra == y.ra
        && x.handler == y.handler
        && x.indirect == y.indirect
        && x.table == y.table
        && x.signal == y.signal
        && x.start == y.start
        && x.marked == y.marked
}
