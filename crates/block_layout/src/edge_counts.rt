// Edges with their counts, in the order of their use for linking blocks.
ghost use Rattle.std.specs.Prelude.{◌≡◌, ◌<◌, ◌≤◌, ℕ, All, AllPairs, IfOk, IsPermutation, IsSomeAnd, OnOk, length};
ghost use Rattle.std.specs.Prelude.{slice_index_or};
ghost use Rattle.rv_code.specs.declared.placed.Block.{Block};
ghost use Rattle.rv_code.specs.declared.placed.Func.{Func};
ghost use Rattle.rv_code.specs.layout.Blocks.{func_of, inst_address};
ghost use Rattle.rv_code.specs.layout.Lists.{IsPairBefore};
ghost use Rattle.rv_code.specs.layout.FunctionMembers.{IsOfFunction};
ghost use Rattle.edge_profile.specs.Profile.{profile_counts};
ghost use Rattle.block_layout.specs.EdgeCounts.{edge_count};
ghost use Rattle.block_layout.specs.EdgeLists.{IsWithin, AreCounted, HaveOtherEnds, IsKeyBefore};

use edge_profile::Profile;
use rb_bytes::fault::NoMemory;
use rv_code::{Block, Func};
use std::alloc::Global;
use std::cmp::Reverse;

/// An edge between two blocks, by their indices, and how often control took it.
#[derive(Clone, Copy)]
pub struct Edge {
    pub from: usize,
    pub to: usize,
    pub count: u128,
}

/// The edges with positive counts, in the order of their use for linking blocks: by greater count, then by lower source
/// and target.
pub fn counted_edges(
    alloc: Global,
    funcs: &[Func],
    blocks: &[Block],
    edges: &[(usize, usize)],
    profile: &Profile,
) -> Result<Vec<Edge>, NoMemory>
    requires blocks { All (IsOfFunction funcs.now) blocks.now }
    requires edges { All (IsWithin (length blocks.now)) edges.now }
    requires ordered { AllPairs IsPairBefore edges.now }
    ensures counted { IfOk result (λ taken.
        AreCounted (edge_count (profile_counts profile.now) funcs.now blocks.now) edges.now taken.items) }
    ensures sorted { IfOk result (λ taken. AllPairs IsKeyBefore taken.items) }
    ensures once { IfOk result (λ taken. AllPairs HaveOtherEnds taken.items) }
{
    let mut taken = Vec::new(alloc);
    // Edges ascend, as pairs do, and most lead forward through the code: so an edge's pair is near the pair of the edge
    // before.
    let mut near = 0;
    for edge in edges {
        let count = count_along(funcs, &blocks[edge.0], &blocks[edge.1], profile, &mut near);
        if count == 0 {
            continue;
        }
        taken.push(Edge {
            from: edge.0,
            to: edge.1,
            count,
        })?;
    }
    sort_edges(&mut taken);
    Ok(taken)
}

// How often control went from the last instruction of `source` to the first one of `target`. `near` is the guess of
// `Profile::count_near`.
fn count_along(
    funcs: &[Func],
    source: &Block,
    target: &Block,
    profile: &Profile,
    near: &mut usize,
) -> u128
    requires source { IsOfFunction funcs.now source.now }
    requires target { IsOfFunction funcs.now target.now }
    ensures { result ≡ profile_counts profile.now (inst_address funcs.now source.now source.now.last)
        (inst_address funcs.now target.now target.now.first) }
{
    let last = inst_address(funcs, source, source.last);
    let first = inst_address(funcs, target, target.first);
    profile.count_near(near, last, first)
}

// The address of the instruction with index `inst` of the function of `block`.
fn inst_address(funcs: &[Func], block: &Block, inst: usize) -> u64
    requires { IsSomeAnd (func_of funcs.now block.now) (λ func. inst < length func.insts.items) }
    ensures { result ≡ inst_address funcs.now block.now inst }
{
    match funcs.get(block.func) {
        Some(func) => func.insts[inst].addr,
        None => 0,
    }
}

// Sorts edges by greater count, and then by lower source and target.
fn sort_edges(edges: &mut Vec<Edge>)
    ensures permutation { IsPermutation edges.old.items edges.new.items }
    ensures sorted { AllPairs IsKeyBefore edges.new.items }
{
    edges.sort_unstable_by_key(|e| (Reverse(e.count), e.from, e.to));
}
