// The hot and cold parts of functions, by a profile.
ghost use Rattle.std.specs.Prelude.{◌≡◌, All, AllPairs, IfOk, length, map};
ghost use Rattle.rv_code.specs.layout.FunctionLists.{AreLaidOut};
ghost use Rattle.rv_code.specs.layout.Lists.{IsPairBefore};
ghost use Rattle.rv_code.specs.layout.FunctionMembers.{IsOfFunction};
ghost use Rattle.rv_code.specs.layout.BlockOrders.{HaveAllBlocks};
ghost use Rattle.edge_profile.specs.BlockPlaces.{AreBlocksApart};
ghost use Rattle.edge_profile.specs.Profile.{profile_counts, pairs_of};
ghost use Rattle.edge_profile.specs.Weights.{block_weight};
ghost use Rattle.block_layout.specs.EdgeLists.{IsInner};
ghost use Rattle.block_layout.specs.Parts.{AreChains};

use crate::edge_counts::counted_edges;
use crate::functions::function_parts;
use crate::links::link_edges;
use edge_profile::Profile;
use edge_profile::weights::block_weights;
use rb_bytes::fault::NoMemory;
use rv_code::{Block, Chains, Func};
use std::alloc::Global;

/// The hot and the cold part of each function, by the counts of a profile. `edges` are pairs of a source and a target,
/// as indices of `blocks`.
pub fn chains(
    alloc: Global,
    funcs: &[Func],
    blocks: &[Block],
    edges: &[(usize, usize)],
    profile: &Profile,
) -> Result<Chains, NoMemory>
    requires funcs { AreLaidOut funcs.now }
    requires blocks { AreBlocksApart blocks.now }
    requires stretches { All (IsOfFunction funcs.now) blocks.now }
    requires edges { All (IsInner blocks.now) edges.now }
    requires ordered { AllPairs IsPairBefore edges.now }
    ensures chains { IfOk result (AreChains (profile_counts profile.now) (pairs_of profile.now) funcs.now blocks.now
        edges.now) }
    ensures all { IfOk result (HaveAllBlocks funcs.now blocks.now) }
{
    let weights = block_weights(alloc, funcs, blocks, profile)?;
    chains_by(alloc, funcs, blocks, edges, profile, &weights)
}

/// The same as `chains`, for a caller that already has the `weights` of `block_weights`.
pub fn chains_by(
    alloc: Global,
    funcs: &[Func],
    blocks: &[Block],
    edges: &[(usize, usize)],
    profile: &Profile,
    weights: &[u128],
) -> Result<Chains, NoMemory>
    requires blocks { AreBlocksApart blocks.now }
    requires stretches { All (IsOfFunction funcs.now) blocks.now }
    requires edges { All (IsInner blocks.now) edges.now }
    requires ordered { AllPairs IsPairBefore edges.now }
    requires weights { weights.now ≡ map (block_weight (pairs_of profile.now) funcs.now) blocks.now }
    ensures chains { IfOk result (AreChains (profile_counts profile.now) (pairs_of profile.now) funcs.now blocks.now
        edges.now) }
    ensures all { IfOk result (HaveAllBlocks funcs.now blocks.now) }
{
    let taken = counted_edges(alloc, funcs, blocks, edges, profile)?;
    let links = link_edges(alloc, blocks, &taken)?;
    function_parts(alloc, funcs.len(), blocks, &links, weights)
}
