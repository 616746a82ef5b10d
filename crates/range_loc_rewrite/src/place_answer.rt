// The answer of locations at an address.
ghost use Rattle.std.specs.Prelude.{◌≡◌, ◌↔◌, IsTrue, map};
ghost use Rattle.dw_lists.specs.Locations.{place_said};

use cover_lists::expressions::same_expressions;

/// The offset of an entry in `.debug_info`, one of its attributes (DW_AT_location or DW_AT_frame_base), and the
/// expressions of this attribute that are in force, at least one.
pub type PlaceAt = (u64, u64, Vec<Vec<u8>>);

fn same_place(x: &PlaceAt, y: &PlaceAt) -> bool
    ensures { IsTrue result ↔ (place_said x.now ≡ place_said y.now) }
{
    x.0 == y.0 && x.1 == y.1 && same_expressions(&x.2, &y.2)
}

/// Whether two answers are equal.
pub fn same_places(x: &[PlaceAt], y: &[PlaceAt]) -> bool
    ensures { IsTrue result ↔ (map place_said x.now ≡ map place_said y.now) }
{
    if x.len() != y.len() {
        return false;
    }
    for i in 0..x.len() {
        if !same_place(&x[i], &y[i]) {
            return false;
        }
    }
    true
}
