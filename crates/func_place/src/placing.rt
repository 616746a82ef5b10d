// The order of all blocks in the new code.
ghost use Rattle.std.specs.Prelude.{◌≡◌, ℕ, ◌<◌, ◌≤◌, ◌^◌, All, IfOk, IfErr, OnOk, MatchOption, length, map, sum};
ghost use Rattle.std.specs.Prelude.{sum_by};
ghost use Rattle.rb_bytes.specs.declared.fault.Refusal.{Refusal};
ghost use Rattle.rv_code.specs.layout.FunctionMembers.{IsOfFunction};
ghost use Rattle.rv_code.specs.declared.placed.Block.{Block};
ghost use Rattle.rv_code.specs.layout.FunctionLists.{AreLaidOut};
ghost use Rattle.rb_bytes.specs.FirstFault.{IsFree, IsRefusalBy};
ghost use Rattle.edge_profile.specs.BlockPlaces.{AreBlocksApart};
ghost use Rattle.edge_profile.specs.PairCounts.{total_count};
ghost use Rattle.edge_profile.specs.Profile.{pairs_of};
ghost use Rattle.edge_profile.specs.Weights.{block_weight};
ghost use Rattle.func_place.specs.Faults.{HasPlacementFault};
ghost use Rattle.rv_code.specs.layout.BlockOrders.{HaveAllBlocks, HasAllBlocks};
ghost use Rattle.func_place.specs.Nearness.{AreTiedNear};
ghost use Rattle.func_place.specs.Placement.{IsPlacement};
ghost use Rattle.func_place.specs.Units.{AreUnits, unit_size, by_unit};
ghost use Rattle.func_place.specs.Clusters.{AreWithinLimit};

use crate::faults::{first_kept, first_long};
use crate::sizes::block_sizes;
use crate::sums::{parts_of, sums_of};
use crate::unit_calls::calls_of;
use crate::unit_order::place_units;
use crate::units::units_of;
use edge_profile::Profile;
use edge_profile::weights::block_weights;
use rb_bytes::fault::{Fault, FaultKind, NoMemory, Refusal};
use rv_code::{Block, Chains, Func, Plan};
use std::alloc::Global;

/// All blocks in their new order, by the counts of a profile; or the first of the faults `UnitTooLong` and
/// `KeptBranch`. `chains` has the blocks of the hot and the cold part of each function.
pub fn place(
    alloc: Global,
    funcs: &[Func],
    blocks: &[Block],
    chains: &Chains,
    profile: &Profile,
) -> Result<Plan, Refusal>
    requires funcs { AreLaidOut funcs.now }
    requires blocks { All (IsOfFunction funcs.now) blocks.now }
    requires apart { AreBlocksApart blocks.now }
    requires hot { length chains.now.hot.items ≡ length funcs.now }
    requires cold { length chains.now.cold.items ≡ length funcs.now }
    ensures order { IfOk result (λ plan. IsPlacement funcs.now blocks.now chains.now (pairs_of profile.now)
        (block_weight (pairs_of profile.now) funcs.now) plan.order.items) }
    ensures all { IfOk result (λ plan. HaveAllBlocks funcs.now blocks.now chains.now →
        HasAllBlocks blocks.now plan.order.items) }
    ensures near { IfOk result (λ plan. HaveAllBlocks funcs.now blocks.now chains.now →
        AreTiedNear funcs.now blocks.now plan.order.items) }
    ensures free { OnOk result (IsFree (HasPlacementFault funcs.now blocks.now)) }
    ensures fault { IfErr result (IsRefusalBy (HasPlacementFault funcs.now blocks.now)) }
{
    let weights = block_weights(alloc, funcs, blocks, profile)?;
    place_by(alloc, funcs, blocks, chains, profile.pairs(), &weights)
}

/// All blocks in their new order, by the pairs of a profile with their counts, and the weights that these give to
/// blocks; or the first of the faults `UnitTooLong` and `KeptBranch`. `chains` has the blocks of the hot and the cold
/// part of each function.
pub fn place_by(
    alloc: Global,
    funcs: &[Func],
    blocks: &[Block],
    chains: &Chains,
    pairs: &[(u64, u64, u128)],
    weights: &[u128],
) -> Result<Plan, Refusal>
    requires funcs { AreLaidOut funcs.now }
    requires blocks { All (IsOfFunction funcs.now) blocks.now }
    requires hot { length chains.now.hot.items ≡ length funcs.now }
    requires cold { length chains.now.cold.items ≡ length funcs.now }
    requires counts { total_count pairs.now < 2 ^ 100 }
    requires weights { weights.now ≡ map (block_weight pairs.now funcs.now) blocks.now }
    requires room { sum weights.now < 2 ^ 101 }
    ensures order { IfOk result (λ plan. IsPlacement funcs.now blocks.now chains.now pairs.now
        (block_weight pairs.now funcs.now) plan.order.items) }
    ensures all { IfOk result (λ plan. HaveAllBlocks funcs.now blocks.now chains.now →
        HasAllBlocks blocks.now plan.order.items) }
    ensures near { IfOk result (λ plan. HaveAllBlocks funcs.now blocks.now chains.now →
        AreTiedNear funcs.now blocks.now plan.order.items) }
    ensures free { OnOk result (IsFree (HasPlacementFault funcs.now blocks.now)) }
    ensures fault { IfErr result (IsRefusalBy (HasPlacementFault funcs.now blocks.now)) }
{
    let (units, sizes) = sized_units(alloc, funcs, blocks)?;
    let order = order_blocks(alloc, funcs, blocks, chains, pairs, weights, &units, &sizes)?;
    Ok(Plan { order })
}

/// Checks whether code can be placed, without computing its order: nothing, or the first of the faults `UnitTooLong`
/// and `KeptBranch`, as `place` gives it.
pub fn check_units(alloc: Global, funcs: &[Func], blocks: &[Block]) -> Result<(), Refusal>
    requires funcs { AreLaidOut funcs.now }
    requires blocks { All (IsOfFunction funcs.now) blocks.now }
    ensures free { OnOk result (IsFree (HasPlacementFault funcs.now blocks.now)) }
    ensures fault { IfErr result (IsRefusalBy (HasPlacementFault funcs.now blocks.now)) }
{
    sized_units(alloc, funcs, blocks)?;
    Ok(())
}

// The unit of each function, and the worst size of each unit; or the first of the faults `UnitTooLong` and
// `KeptBranch`.
fn sized_units(
    alloc: Global,
    funcs: &[Func],
    blocks: &[Block],
) -> Result<(Vec<usize>, Vec<u128>), Refusal>
    requires funcs { AreLaidOut funcs.now }
    requires blocks { All (IsOfFunction funcs.now) blocks.now }
    ensures units { IfOk result (λ r. AreUnits funcs.now r.0.items) }
    ensures sizes { IfOk result (λ r. r.1.items ≡ by_unit (unit_size funcs.now r.0.items blocks.now) r.0.items) }
    ensures small { IfOk result (λ r. AreWithinLimit r.1.items) }
    ensures free { OnOk result (IsFree (HasPlacementFault funcs.now blocks.now)) }
    ensures fault { IfErr result (IsRefusalBy (HasPlacementFault funcs.now blocks.now)) }
{
    let units = units_of(alloc, funcs)?;
    let own_sizes = block_sizes(alloc, funcs, blocks)?;
    let sizes = sums_of(alloc, &units, blocks, &own_sizes)?;
    if let Some(place) = first_long(funcs, &sizes) {
        return Err(Refusal::Fault(Fault::at(FaultKind::UnitTooLong, place)));
    }
    if let Some(place) = first_kept(funcs) {
        return Err(Refusal::Fault(Fault::at(FaultKind::KeptBranch, place)));
    }
    Ok((units, sizes))
}

// All blocks in their new order. `units` has the unit of each function, `sizes` the worst size of each unit, and
// `weights` how often each block ran.
fn order_blocks(
    alloc: Global,
    funcs: &[Func],
    blocks: &[Block],
    chains: &Chains,
    pairs: &[(u64, u64, u128)],
    weights: &[u128],
    units: &[usize],
    sizes: &[u128],
) -> Result<Vec<usize>, NoMemory>
    requires funcs { AreLaidOut funcs.now }
    requires blocks { All (IsOfFunction funcs.now) blocks.now }
    requires hot { length chains.now.hot.items ≡ length funcs.now }
    requires cold { length chains.now.cold.items ≡ length funcs.now }
    requires counts { sum_by (λ p. p.2) pairs.now < 2 ^ 100 }
    requires weights { (weight : Block → ℕ) × (weights.now ≡ map weight blocks.now) }
    requires room { sum weights.now < 2 ^ 101 }
    requires units { AreUnits funcs.now units.now }
    requires sizes { sizes.now ≡ by_unit (unit_size funcs.now units.now blocks.now) units.now }
    requires small { AreWithinLimit sizes.now }
    ensures order { IfOk result (λ v. (weight : Block → ℕ) → weights.now ≡ map weight blocks.now →
        IsPlacement funcs.now blocks.now chains.now pairs.now weight v.items) }
    ensures all { IfOk result (λ v. HaveAllBlocks funcs.now blocks.now chains.now → HasAllBlocks blocks.now v.items) }
    ensures near { IfOk result (λ v. HaveAllBlocks funcs.now blocks.now chains.now →
        AreTiedNear funcs.now blocks.now v.items) }
{
    let heats = sums_of(alloc, units, blocks, weights)?;
    let calls = calls_of(alloc, funcs, units, pairs)?;
    let hot = parts_of(alloc, units, &chains.hot)?;
    let cold = parts_of(alloc, units, &chains.cold)?;
    let order = place_units(alloc, sizes, &heats, &calls, &hot, &cold)?;
    Ok(order)
}
