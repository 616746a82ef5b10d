// How often blocks run.
ghost use Rattle.std.specs.Prelude.{◌≡◌, ◌+◌, ◌*◌, ◌<◌, ◌≤◌, ◌^◌, ◌&&◌, ◌||◌, ℕ, IfOk, IfSome, Some, true, false};
ghost use Rattle.std.specs.Prelude.{if◌then◌else◌, IsTrue, length, map, not, slice_index, slice_index_or, sum};
ghost use Rattle.rv_code.specs.declared.placed.Block.{Block};
ghost use Rattle.rv_code.specs.layout.FunctionLists.{AreLaidOut};
ghost use Rattle.edge_profile.specs.BlockPlaces.{AreBlocksApart, IsHolder, begins_by, ends_from, has_inst, is_place};
ghost use Rattle.edge_profile.specs.BlockPlaces.{raised_at};
ghost use Rattle.edge_profile.specs.Profile.{pairs_of};
ghost use Rattle.edge_profile.specs.Weights.{block_weight, insts_of_block, touches};

use crate::places::place_near;
use crate::profile::Profile;
use rb_bytes::fault::NoMemory;
use rv_code::{Block, Func, InstPlace};
use std::alloc::Global;

// The number of blocks on either side of a guess that are looked at before a binary search.
const NEARBY: usize = 8;

/// The weight of each block: the sum of the counts of all pairs with an end at one of its instructions.
pub fn block_weights(
    alloc: Global,
    funcs: &[Func],
    blocks: &[Block],
    profile: &Profile,
) -> Result<Vec<u128>, NoMemory>
    requires funcs { AreLaidOut funcs.now }
    requires blocks { AreBlocksApart blocks.now }
    ensures weights { IfOk result (λ weights. weights.items ≡ map (block_weight (pairs_of profile.now) funcs.now)
        blocks.now) }
    ensures few { IfOk result (λ weights. sum weights.items < 2 ^ 101) }
{
    let mut weights = vec![in alloc; 0u128; blocks.len()]?;
    let mut near = 0;
    for pair in profile.pairs() {
        near = add(&mut weights, funcs, blocks, pair, near);
    }
    Ok(weights)
}

// Adds the count of `pair` to the weights of the blocks in which it begins and ends, only once if they are the same
// block. Both are searched for near block `near` first. Returns the block in which the pair begins, or `near` if there
// is none: pairs ascend, so the next pair is usually near it.
fn add(
    weights: &mut [u128],
    funcs: &[Func],
    blocks: &[Block],
    pair: &(u64, u64, u128),
    near: usize,
) -> usize
    requires funcs { AreLaidOut funcs.now }
    requires blocks { AreBlocksApart blocks.now }
    requires lengths { length weights.old ≡ length blocks.now }
    requires fits { (k : ℕ) → slice_index weights.old k + 2 * pair.now.2 < 2 ^ 128 }
    ensures weights { (k : ℕ) (d : Block) → k < length blocks.now →
        slice_index weights.new k ≡ slice_index weights.old k +
        (if touches (insts_of_block funcs.now (slice_index_or blocks.now k d)) pair.now then pair.now.2 else 0) }
    ensures total { sum weights.new ≤ sum weights.old + 2 * pair.now.2 }
{
    let from = block_at(funcs, blocks, pair.0, near);
    let first = from.unwrap_or(near);
    let to = block_at(funcs, blocks, pair.1, first);
    raise(weights, from, pair.2);
    raise(weights, unless_same(to, from), pair.2);
    first
}

// Raises the number at index `place`, if there is one.
fn raise(numbers: &mut [u128], place: Option<usize>, by: u128)
    requires within { IfSome place (λ k. k < length numbers.old) }
    requires fits { (k : ℕ) → slice_index numbers.old k + by < 2 ^ 128 }
    ensures { numbers.new ≡ raised_at numbers.old place by }
{
    if let Some(at) = place {
        numbers[at] += by;
    }
}

// `place`, unless it equals `other`.
fn unless_same(place: Option<usize>, other: Option<usize>) -> Option<usize>
    ensures places { (k : ℕ) → is_place k result ≡ (is_place k place && not (is_place k other)) }
    ensures within { (n : ℕ) → IfSome place (λ k. k < n) → IfSome result (λ k. k < n) }
{
    let at = place?;
    unless_at(at, other)
}

fn unless_at(place: usize, other: Option<usize>) -> Option<usize>
    ensures places { (k : ℕ) → is_place k result ≡ (is_place k (Some place) && not (is_place k other)) }
    ensures within { IfSome result (λ k. k ≡ place) }
{
    match other {
        Some(at) => if at == place { None } else { Some(place) },
        None => Some(place),
    }
}

// The block that has the instruction at `address`, searched for near block `near` first.
fn block_at(funcs: &[Func], blocks: &[Block], address: u64, near: usize) -> Option<usize>
    requires funcs { AreLaidOut funcs.now }
    requires blocks { AreBlocksApart blocks.now }
    ensures holder { IsHolder funcs.now blocks.now address result }
    ensures within { IfSome result (λ k. k < length blocks.now) }
{
    let place = place_near(funcs, address, func_near(blocks, near))?;
    block_with(blocks, &place, near)
}

// The function of block `near`, or the first function if there is no such block.
fn func_near(blocks: &[Block], near: usize) -> usize {
    match blocks.get(near) {
        Some(block) => block.func,
        None => 0,
    }
}

// The block that has the instruction at `place`, searched for near block `near` first.
fn block_with(blocks: &[Block], place: &InstPlace, near: usize) -> Option<usize>
    requires { AreBlocksApart blocks.now }
    ensures has { (k : ℕ) (d : Block) → k < length blocks.now →
        has_inst place.now.func place.now.inst (slice_index_or blocks.now k d) ≡ is_place k result }
    ensures within { IfSome result (λ k. k < length blocks.now) }
{
    let below = count_up_to(blocks, place, near);
    if below == 0 {
        return None;
    }
    if ends_from(&blocks[below - 1], place) {
        Some(below - 1)
    } else {
        None
    }
}

// The number of blocks that begin at or before the instruction at `place`, searched for near block `near` first.
fn count_up_to(blocks: &[Block], place: &InstPlace, near: usize) -> usize
    requires { AreBlocksApart blocks.now }
    ensures bound { result ≤ length blocks.now }
    ensures below { (k : ℕ) (d : Block) → k < result →
        begins_by place.now.func place.now.inst (slice_index_or blocks.now k d) ≡ true }
    ensures above { (k : ℕ) (d : Block) → result ≤ k → k < length blocks.now →
        begins_by place.now.func place.now.inst (slice_index_or blocks.now k d) ≡ false }
{
    match count_beside(blocks, place, near) {
        Some(count) => count,
        None => count_of_all(blocks, place),
    }
}

// The number of blocks that begin at or before the instruction at `place`, if it is about `near`, otherwise `None`.
fn count_beside(blocks: &[Block], place: &InstPlace, near: usize) -> Option<usize>
    requires { AreBlocksApart blocks.now }
    ensures bound { IfSome result (λ n. n ≤ length blocks.now) }
    ensures below { IfSome result (λ n. (k : ℕ) (d : Block) → k < n →
        begins_by place.now.func place.now.inst (slice_index_or blocks.now k d) ≡ true) }
    ensures above { IfSome result (λ n. (k : ℕ) (d : Block) → n ≤ k → k < length blocks.now →
        begins_by place.now.func place.now.inst (slice_index_or blocks.now k d) ≡ false) }
{
    let start = near.saturating_sub(NEARBY);
    let end = near.saturating_add(NEARBY).min(blocks.len());
    if !all_begin(blocks, place, start) {
        return None;
    }
    for k in start..end {
        if !begins_by(&blocks[k], place) {
            return Some(k);
        }
    }
    None
}

// Whether there are at least `count` blocks, and the first `count` all begin at or before the instruction at `place`.
// The blocks are in order, so only the last of these is looked at.
fn all_begin(blocks: &[Block], place: &InstPlace, count: usize) -> bool
    requires { AreBlocksApart blocks.now }
    ensures { IsTrue result → (k : ℕ) (d : Block) → k < count →
        begins_by place.now.func place.now.inst (slice_index_or blocks.now k d) ≡ true }
{
    if count == 0 {
        return true;
    }
    if blocks.len() < count {
        return false;
    }
    begins_by(&blocks[count - 1], place)
}

// The number of blocks that begin at or before the instruction at `place`, by binary search.
fn count_of_all(blocks: &[Block], place: &InstPlace) -> usize
    requires { AreBlocksApart blocks.now }
    ensures bound { result ≤ length blocks.now }
    ensures below { (k : ℕ) (d : Block) → k < result →
        begins_by place.now.func place.now.inst (slice_index_or blocks.now k d) ≡ true }
    ensures above { (k : ℕ) (d : Block) → result ≤ k → k < length blocks.now →
        begins_by place.now.func place.now.inst (slice_index_or blocks.now k d) ≡ false }
{
    blocks.partition_point(|b| begins_by(b, place))
}

// Whether `block` begins at or before the instruction at `place`.
fn begins_by(block: &Block, place: &InstPlace) -> bool
    ensures { result ≡ begins_by place.now.func place.now.inst block.now }
{
    block.func < place.func || (block.func == place.func && block.first <= place.inst)
}

// Whether `block` is in the function of the instruction at `place`, and ends at or after it.
fn ends_from(block: &Block, place: &InstPlace) -> bool
    ensures { result ≡ ends_from place.now.func place.now.inst block.now }
{
    block.func == place.func && place.inst <= block.last
}
