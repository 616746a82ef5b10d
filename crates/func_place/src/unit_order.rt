// The order of units.
ghost use Rattle.std.specs.Prelude.{◌≡◌, ℕ, ◌<◌, ◌≤◌, ◌^◌, ◌++◌, All, length, OnOk, IfOk, sum, sum_by, map};
ghost use Rattle.std.specs.Prelude.{slice_index};
ghost use Rattle.func_place.specs.UnitOrder.{IsUnitOrder, cold_units};
ghost use Rattle.func_place.specs.internal.Groups.{list_at};
ghost use Rattle.func_place.specs.Clusters.{AreWithinLimit};

use crate::bands::order_units;
use crate::calls::UnitCall;
use crate::clusters::cluster_units;
use crate::ranks::{hot_order, rank_clusters};
use rb_bytes::fault::NoMemory;
use std::alloc::Global;

/// The blocks of all units in their new order: clusters of hot units by density, and then the cold units by number. All
/// arguments but `calls` have an entry for each unit; an index that isn't a unit counts as a cold unit without blocks.
pub fn place_units(
    alloc: Global,
    sizes: &[u128],
    heats: &[u128],
    calls: &[UnitCall],
    hot: &[Vec<usize>],
    cold: &[Vec<usize>],
) -> Result<Vec<usize>, NoMemory>
    requires sizes_in { AreWithinLimit sizes.now }
    requires sizes_some { (u : ℕ) → u < length sizes.now → 0 < slice_index heats.now u → 0 < slice_index sizes.now u }
    requires heats_len { length heats.now ≡ length sizes.now }
    requires heats_room { sum heats.now < 2 ^ 101 }
    requires calls_in { All (λ c. (c.from < length sizes.now) × (c.to < length sizes.now)) calls.now }
    requires calls_room { sum_by (λ c. c.count) calls.now < 2 ^ 128 }
    requires hot_in { length hot.now ≡ length sizes.now }
    requires cold_in { length cold.now ≡ length sizes.now }
    ensures { IfOk result (λ v. IsUnitOrder sizes.now heats.now calls.now (list_at (map (λ v. v.items) hot.now))
        (list_at (map (λ v. v.items) cold.now)) v.items) }
{
    let taken = hot_order(alloc, heats)?;
    let clusters = cluster_units(alloc, sizes, heats, calls, &taken)?;
    let ranked = rank_clusters(alloc, &clusters, &taken)?;
    let mut line = Vec::new(alloc);
    clusters.put_clusters(&ranked, &mut line)?;
    put_cold(heats, &mut line)?;
    order_units(alloc, sizes, &line, hot, cold)
}

// Appends the cold units, by number.
fn put_cold(heats: &[u128], line: &mut Vec<usize>) -> Result<(), NoMemory>
    ensures line { OnOk result (line.new.items ≡ line.old.items ++ cold_units heats.now) }
    ensures inside { OnOk result (All (λ u. u < length heats.now) line.old.items → All
        (λ u. u < length heats.now) line.new.items) }
{
    for (unit, heat) in heats.iter().enumerate() {
        if *heat == 0 {
            line.push(unit)?;
        }
    }
    Ok(())
}
