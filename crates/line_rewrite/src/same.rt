// Whether two answers are equal.
ghost use Rattle.std.specs.Prelude.{◌≡◌, ◌↔◌, IsTrue};

use crate::answer::{LineAt, LineRow};

fn same_row(x: &LineRow, y: &LineRow) -> bool
    ensures { IsTrue result ↔ (x.now ≡ y.now) }
{
    x.path == y.path
        && x.line == y.line
        && x.column == y.column
        && x.stmt == y.stmt
        && x.block == y.block
        && x.prologue == y.prologue
        && x.epilogue == y.epilogue
        && x.isa == y.isa
        && x.disc == y.disc
}

fn same_rows(x: &[LineRow], y: &[LineRow]) -> bool
    ensures { IsTrue result ↔ (x.now ≡ y.now) }
{
    if x.len() != y.len() {
        return false;
    }
    for i in 0..x.len() {
        if !same_row(&x[i], &y[i]) {
            return false;
        }
    }
    true
}

/// Whether two answers are equal.
pub fn same_answer(x: &LineAt, y: &LineAt) -> bool
    ensures { IsTrue result ↔ (x.now ≡ y.now) }
{
    x.unit == y.unit && same_rows(&x.rows, &y.rows)
}
