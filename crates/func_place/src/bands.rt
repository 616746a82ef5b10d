// Splitting the line of units into bands.
ghost use Rattle.std.specs.Prelude.{◌≡◌, ◌<◌, ◌≤◌, ◌++◌, All, length, OnOk, IfOk, map};
ghost use Rattle.std.specs.List.{flat_map};
ghost use Rattle.func_place.specs.Bands.{blocks_of, order_of};
ghost use Rattle.func_place.specs.internal.Groups.{list_at};
ghost use Rattle.func_place.specs.Clusters.{AreWithinLimit};

use rb_bytes::fault::NoMemory;
use rv_code::worst_sizes::NEAR_LIMIT;
use std::alloc::Global;

/// The blocks of `units`, band by band. The units of a band have at most `NEAR_LIMIT` bytes in all, and the hot parts
/// of all of them come before their cold parts. `sizes`, `hot` and `cold` have an entry for each unit.
pub fn order_units(
    alloc: Global,
    sizes: &[u128],
    units: &[usize],
    hot: &[Vec<usize>],
    cold: &[Vec<usize>],
) -> Result<Vec<usize>, NoMemory>
    requires sizes_in { AreWithinLimit sizes.now }
    requires units_in { All (λ u. u < length sizes.now) units.now }
    requires hot_in { length hot.now ≡ length sizes.now }
    requires cold_in { length cold.now ≡ length sizes.now }
    ensures { IfOk result (λ v. v.items ≡ order_of sizes.now (list_at (map (λ v. v.items) hot.now)) (list_at (map
        (λ v. v.items) cold.now)) units.now) }
{
    let mut order = Vec::new(alloc);
    let mut band = Vec::new(alloc);
    let mut filled = 0;
    for &unit in units {
        let size = sizes[unit];
        if filled + size > NEAR_LIMIT {
            put_band(&mut order, &band, hot, cold)?;
            band.clear();
            filled = 0;
        }
        band.push(unit)?;
        filled += size;
    }
    put_band(&mut order, &band, hot, cold)?;
    Ok(order)
}

// Appends the blocks of a band: all hot parts, then all cold parts.
fn put_band(
    order: &mut Vec<usize>,
    band: &[usize],
    hot: &[Vec<usize>],
    cold: &[Vec<usize>],
) -> Result<(), NoMemory>
    requires hot_in { All (λ u. u < length hot.now) band.now }
    requires cold_in { All (λ u. u < length cold.now) band.now }
    ensures { OnOk result (order.new.items ≡ order.old.items ++ blocks_of (list_at (map (λ v. v.items) hot.now))
        (list_at (map (λ v. v.items) cold.now)) band.now) }
{
    put_parts(order, band, hot)?;
    put_parts(order, band, cold)
}

// Appends the `parts` of `units`.
fn put_parts(order: &mut Vec<usize>, units: &[usize], parts: &[Vec<usize>]) -> Result<(), NoMemory>
    requires { All (λ u. u < length parts.now) units.now }
    ensures { OnOk result (order.new.items ≡ order.old.items ++ flat_map (list_at (map
        (λ v. v.items) parts.now)) units.now) }
{
    for &unit in units {
        order.extend_from_slice(&parts[unit])?;
    }
    Ok(())
}
