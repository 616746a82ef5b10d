// Expressions of lists.
ghost use Rattle.std.specs.Prelude.{◌≡◌, ◌↔◌, IsTrue, map};

/// Whether two expressions are equal.
pub(crate) fn same_bytes(x: &[u8], y: &[u8]) -> bool
    ensures { IsTrue result ↔ (x.now ≡ y.now) }
{
    x == y
}

/// Whether two lists have the same expressions, in the same order.
pub fn same_expressions(x: &[Vec<u8>], y: &[Vec<u8>]) -> bool
    ensures { IsTrue result ↔ (map (λ v. v.items) x.now ≡ map (λ v. v.items) y.now) }
{
    if x.len() != y.len() {
        return false;
    }
    for i in 0..x.len() {
        if !same_bytes(x[i].as_slice(), y[i].as_slice()) {
            return false;
        }
    }
    true
}
