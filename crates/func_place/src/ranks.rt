// The order in which hot units are taken, and the order of clusters.
ghost use Rattle.std.specs.Prelude.{◌≡◌, ℕ, ◌<◌, ◌≤◌, ◌^◌, List, All, length, IfOk, slice_index};
ghost use Rattle.std.specs.Ordering.{is_lt};
ghost use Rattle.rv_code.specs.layout.WorstSizes.{near_limit};
ghost use Rattle.func_place.specs.Calls.{hot_units};
ghost use Rattle.func_place.specs.Ranks.{IsInOrder, hotter, denser_by, denser, cluster_heads};
ghost use Rattle.func_place.specs.internal.ClusterState.{state_of, count_of, heat_at, Keeps, IsValidState};

use crate::clusters::Clusters;
use rb_bytes::fault::NoMemory;
use std::alloc::Global;
use std::cmp::{Ordering, Reverse};

/// The hot units in the order in which they are taken: by greater heat, and then by lower number.
pub fn hot_order(alloc: Global, heats: &[u128]) -> Result<Vec<usize>, NoMemory>
    ensures ordered { IfOk result (λ v. IsInOrder (hotter heats.now) (hot_units heats.now) v.items) }
    ensures inside { IfOk result (λ v. All (λ u. u < length heats.now) v.items) }
    ensures hot { IfOk result (λ v. All (λ u. 0 < slice_index heats.now u) v.items) }
{
    let mut taken = Vec::new(alloc);
    for (unit, heat) in heats.iter().enumerate() {
        if *heat > 0 {
            taken.push(unit)?;
        }
    }
    taken.sort_by_key(|unit| (Reverse(heat_of(heats, *unit)), *unit))?;
    Ok(taken)
}

// The heat of `unit`; 0 for a number that isn't a unit, since the key of a sort takes any number.
fn heat_of(heats: &[u128], unit: usize) -> u128
    ensures { result ≡ slice_index heats.now unit }
{
    heats.get(unit).copied().unwrap_or(0)
}

/// A cluster's heat and worst size, and its first unit. Only clusters whose size isn't 0 can be compared by density.
#[derive(Clone, Copy)]
pub struct Rank {
    pub heat: u128,
    pub size: u128,
    pub unit: usize,
    ghost fits: { heat < 2 ^ 101 },
    ghost some: { 0 < size },
    ghost small: { size ≤ near_limit },
}

// The denser cluster comes first; if both are equally dense, the one whose first unit is lower. The density is heat
// divided by size. It is compared by cross products, which the bounds of `Rank` keep below 2^121.
fn compare(a: &Rank, b: &Rank) -> Ordering
    ensures { is_lt result ≡ denser_by a.now.heat a.now.size a.now.unit b.now.heat b.now.size b.now.unit }
{
    let (more, less) = (a.heat * b.size, b.heat * a.size);
    less.cmp(&more).then(a.unit.cmp(&b.unit))
}

// Sorts clusters by density.
fn sort_ranks(ranks: &mut Vec<Rank>) -> Result<(), NoMemory>
    ensures { IfOk result (λ _. IsInOrder
        (λ a b. denser_by a.heat a.size a.unit b.heat b.size b.unit) ranks.old.items ranks.new.items) }
{
    ranks.sort_by(|a, b| compare(a, b))?;
    Ok(())
}

/// The first units of clusters, in the order of the clusters. Each unit of `taken` that is the first of its cluster
/// stands for the cluster.
pub fn rank_clusters(
    alloc: Global,
    clusters: &Clusters,
    taken: &[usize],
) -> Result<Vec<usize>, NoMemory>
    requires sound { IsValidState (state_of clusters.now) }
    requires taken_in { All (λ u. u < count_of (state_of clusters.now)) taken.now }
    requires hot { All (λ u. 0 < heat_at (state_of clusters.now) u) taken.now }
    ensures { IfOk result (λ v. (sizes heats : List ℕ) (cluster : ℕ → List ℕ) →
        Keeps sizes heats cluster (state_of clusters.now) → IsInOrder
        (denser sizes heats cluster) (cluster_heads cluster taken.now) v.items) }
{
    let mut ranks = Vec::new(alloc);
    for &unit in taken {
        if clusters.begins(unit) {
            ranks.push(clusters.rank(unit))?;
        }
    }
    sort_ranks(&mut ranks)?;
    let mut units = Vec::new(alloc);
    for rank in &ranks {
        units.push(rank.unit)?;
    }
    Ok(units)
}
