// Clusters of hot units.
ghost use Rattle.std.specs.Prelude.{◌≡◌, ◌≢◌, ℕ, ◌+◌, ◌<◌, ◌≤◌, ◌^◌, ◌++◌, None, Some, List, All, length, sum, sum_by};
ghost use Rattle.std.specs.Prelude.{OnOk, IfOk, slice_index, slice_index_or};
ghost use Rattle.std.specs.List.{flat_map};
ghost use Rattle.func_place.specs.Clusters.{alone, appended, clusters_of, AreWithinLimit};
ghost use Rattle.func_place.specs.Ranks.{begins};
ghost use Rattle.func_place.specs.UnitOrder.{unit_clusters};
ghost use Rattle.func_place.specs.internal.Groups.{group_of};
ghost use Rattle.func_place.specs.internal.ClusterState.{state_of, count_of, size_at, heat_at, Merges, Keeps};
ghost use Rattle.func_place.specs.internal.ClusterState.{IsValidState};

use crate::callers::heaviest_callers;
use crate::calls::UnitCall;
use crate::groups::Groups;
use crate::ranks::Rank;
use rb_bytes::fault::NoMemory;
use rv_code::worst_sizes::NEAR_LIMIT;
use std::alloc::Global;

/// The clusters so far.
#[derive(Drop)]
pub struct Clusters {
    groups: Groups,
    /// The worst size of each group.
    totals: Vec<u128>,
    /// The heat of each group; 0 if the group was joined to another one.
    heats: Vec<u128>,
}

impl Clusters {
    // Each unit in a cluster of its own.
    fn new(alloc: Global, sizes: &[u128], heats: &[u128]) -> Result<Clusters, NoMemory>
        requires sizes_in { AreWithinLimit sizes.now }
        requires sizes_some { (u : ℕ) → u < length sizes.now → 0 < slice_index heats.now u →
            0 < slice_index sizes.now u }
        requires heats_len { length heats.now ≡ length sizes.now }
        requires heats_room { sum heats.now < 2 ^ 101 }
        ensures len { IfOk result (λ c. count_of (state_of c) ≡ length sizes.now) }
        ensures sound { IfOk result (λ c. IsValidState (state_of c)) }
        ensures keeps { IfOk result (λ c. Keeps sizes.now heats.now alone (state_of c)) }
    {
        let groups = Groups::new(alloc, sizes.len())?;
        let totals = sizes.to_vec(alloc)?;
        let warmth = heats.to_vec(alloc)?;
        Ok(Clusters {
            groups,
            totals,
            heats: warmth,
        })
    }

    // Joins two clusters, the second after the first.
    fn join(&mut self, alloc: Global, first: usize, second: usize) -> Result<(), NoMemory>
        requires sound { IsValidState (state_of self.old) }
        requires apart { first ≢ second }
        requires first_in { first < count_of (state_of self.old) }
        requires second_in { second < count_of (state_of self.old) }
        ensures { OnOk result ((kept : ℕ) × Merges (state_of self.old) (state_of self.new) first second kept) }
    {
        let size = self.totals[first] + self.totals[second];
        let heat = self.heats[first] + self.heats[second];
        let kept = self.groups.join(alloc, first, second)?;
        self.totals[kept] = size;
        self.heats[first] = 0;
        self.heats[second] = 0;
        self.heats[kept] = heat;
        Ok(())
    }

    // Appends the cluster of `unit` to the cluster of its `caller`, if they are different and small enough together.
    fn append(&mut self, alloc: Global, caller: usize, unit: usize) -> Result<(), NoMemory>
        requires sound { IsValidState (state_of self.old) }
        requires caller_in { caller < count_of (state_of self.old) }
        requires unit_in { unit < count_of (state_of self.old) }
        ensures len { OnOk result (count_of (state_of self.new) ≡ count_of (state_of self.old)) }
        ensures sound { OnOk result (IsValidState (state_of self.new)) }
        ensures keeps { OnOk result ((sizes heats : List ℕ) (cluster : ℕ → List ℕ) →
            Keeps sizes heats cluster (state_of self.old) →
            Keeps sizes heats (appended sizes (cluster caller) (cluster unit) unit cluster) (state_of self.new)) }
    {
        let first = self.groups.group_number(caller);
        let second = self.groups.group_number(unit);
        if first != second && self.totals[first] + self.totals[second] <= NEAR_LIMIT {
            self.join(alloc, first, second)?;
        }
        Ok(())
    }

    /// Whether a unit is the first of its cluster.
    pub fn begins(&self, unit: usize) -> bool
        requires sound { IsValidState (state_of self.now) }
        requires unit_in { unit < count_of (state_of self.now) }
        ensures { result ≡ begins (group_of (state_of self.now).grouping unit) unit }
    {
        self.groups.begins(unit)
    }

    /// The rank of a cluster, by its first unit.
    pub fn rank(&self, unit: usize) -> Rank
        requires sound { IsValidState (state_of self.now) }
        requires unit_in { unit < count_of (state_of self.now) }
        requires hot { 0 < heat_at (state_of self.now) unit }
        ensures heat { result.heat ≡ heat_at (state_of self.now) unit }
        ensures size { result.size ≡ size_at (state_of self.now) unit }
        ensures unit { result.unit ≡ unit }
    {
        let number = self.groups.group_number(unit);
        Rank {
            heat: self.heats[number],
            size: self.totals[number],
            unit,
        }
    }

    /// Appends to `line` all units of the clusters of `units`, cluster by cluster.
    pub fn put_clusters(&self, units: &[usize], line: &mut Vec<usize>) -> Result<(), NoMemory>
        requires sound { IsValidState (state_of self.now) }
        requires units_in { All (λ u. u < count_of (state_of self.now)) units.now }
        ensures line { OnOk result ((sizes heats : List ℕ) (cluster : ℕ → List ℕ) →
            Keeps sizes heats cluster (state_of self.now) → line.new.items ≡
            line.old.items ++ flat_map cluster units.now) }
        ensures inside { OnOk result (All (λ u. u < count_of (state_of self.now)) line.old.items → All
            (λ u. u < count_of (state_of self.now)) line.new.items) }
    {
        for &unit in units {
            self.groups.put_group(unit, line)?;
        }
        Ok(())
    }
}

// The clusters after each unit of `taken`, in turn, was appended with its cluster to the cluster of its heaviest
// caller.
fn fold_units(
    alloc: Global,
    sizes: &[u128],
    heats: &[u128],
    callers: &[Option<usize>],
    taken: &[usize],
) -> Result<Clusters, NoMemory>
    requires sizes_in { AreWithinLimit sizes.now }
    requires sizes_some { (u : ℕ) → u < length sizes.now → 0 < slice_index heats.now u → 0 < slice_index sizes.now u }
    requires heats_len { length heats.now ≡ length sizes.now }
    requires heats_room { sum heats.now < 2 ^ 101 }
    requires callers_len { length callers.now ≡ length sizes.now }
    requires callers_in { (u v : ℕ) → slice_index_or callers.now u None ≡ Some v → v < length sizes.now }
    requires taken_in { All (λ u. u < length sizes.now) taken.now }
    ensures len { IfOk result (λ c. count_of (state_of c) ≡ length sizes.now) }
    ensures sound { IfOk result (λ c. IsValidState (state_of c)) }
    ensures keeps { IfOk result (λ c. Keeps sizes.now heats.now (clusters_of sizes.now
        (λ u. slice_index_or callers.now u None) taken.now) (state_of c)) }
{
    let mut clusters = Clusters::new(alloc, sizes, heats)?;
    for &unit in taken {
        if let Some(caller) = callers[unit] {
            clusters.append(alloc, caller, unit)?;
        }
    }
    Ok(clusters)
}

/// The clusters of hot units: each unit of `taken`, in turn, goes with its cluster after the cluster of the unit that
/// calls it most, if both together are small enough.
pub fn cluster_units(
    alloc: Global,
    sizes: &[u128],
    heats: &[u128],
    calls: &[UnitCall],
    taken: &[usize],
) -> Result<Clusters, NoMemory>
    requires sizes_in { AreWithinLimit sizes.now }
    requires sizes_some { (u : ℕ) → u < length sizes.now → 0 < slice_index heats.now u → 0 < slice_index sizes.now u }
    requires heats_len { length heats.now ≡ length sizes.now }
    requires heats_room { sum heats.now < 2 ^ 101 }
    requires calls_in { All (λ c. (c.from < length sizes.now) × (c.to < length sizes.now)) calls.now }
    requires calls_room { sum_by (λ c. c.count) calls.now < 2 ^ 128 }
    requires taken_in { All (λ u. u < length sizes.now) taken.now }
    ensures len { IfOk result (λ c. count_of (state_of c) ≡ length sizes.now) }
    ensures sound { IfOk result (λ c. IsValidState (state_of c)) }
    ensures keeps { IfOk result
        (λ c. Keeps sizes.now heats.now (unit_clusters sizes.now heats.now calls.now taken.now) (state_of c)) }
{
    let callers = heaviest_callers(alloc, heats, calls)?;
    fold_units(alloc, sizes, heats, &callers, taken)
}
