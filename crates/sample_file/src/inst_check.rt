// Comparing instructions.
ghost use Rattle.std.specs.Prelude.{◌≡◌, IsTrue};

use rv_code::{Placed, Role};
use rv_encode::same::is_same;

fn same_role(x: &Role, y: &Role) -> bool
    ensures { IsTrue result → x.now ≡ y.now }
{
    x == y
}

fn same_placed(x: &Placed, y: &Placed) -> bool
    ensures { IsTrue result → x.now ≡ y.now }
{
    x.addr == y.addr && x.len == y.len && is_same(&x.inst, &y.inst) && same_role(&x.role, &y.role)
}

/// Whether two lists have the same instructions at the same addresses.
pub fn same_insts(xs: &[Placed], ys: &[Placed]) -> bool
    ensures { IsTrue result → xs.now ≡ ys.now }
{
    if xs.len() != ys.len() {
        return false;
    }
    for i in 0..xs.len() {
        if !same_placed(&xs[i], &ys[i]) {
            return false;
        }
    }
    true
}
