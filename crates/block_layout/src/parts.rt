// The hot and the cold part of a function.
ghost use Rattle.std.specs.Prelude.{◌≡◌, ◌↔◌, ◌+◌, ◌-◌, ◌<◌, ◌≤◌, ℕ, All, Contains, IfOk, IsTrue, MatchBool, None};
ghost use Rattle.std.specs.Prelude.{false, length, slice_index, slice_index_or};
ghost use Rattle.rv_code.specs.layout.Lists.{ListsNumbers};
ghost use Rattle.block_layout.specs.Walks.{AreKept, IsHotList, links_of};

use crate::hot_chains::hot_chains;
use crate::links::ChainLinks;
use crate::walks::chain;
use rb_bytes::fault::NoMemory;
use std::alloc::Global;

/// The hot part of a function with the blocks from `start` to before `end`: the chain of its first block, and then its
/// other chains with a hot block.
pub fn hot_part(
    alloc: Global,
    links: &ChainLinks,
    weights: &[u128],
    start: usize,
    end: usize,
) -> Result<Vec<usize>, NoMemory>
    requires links { AreKept links.now }
    requires weights { length weights.now ≡ length links.now.next.items }
    requires inside { end ≤ length weights.now }
    requires some { start < end }
    requires first { slice_index_or links.now.prev.items start None ≡ None }
    ensures { IfOk result (λ part. IsHotList (links_of links.now) (λ k. slice_index weights.now k) start end
        part.items) }
{
    let mut part = chain(alloc, links, start)?;
    let others = hot_chains(alloc, links, weights, start, end)?;
    for other in &others {
        part.extend_from_slice(&other.blocks)?;
    }
    Ok(part)
}

/// The blocks from `start` to before `end` that aren't in `hot`, ascending.
pub fn cold_part(
    alloc: Global,
    hot: &[usize],
    start: usize,
    end: usize,
) -> Result<Vec<usize>, NoMemory>
    requires hot { All (λ k. (start ≤ k) × (k < end)) hot.now }
    requires ascend { start ≤ end }
    ensures { IfOk result (λ part. ListsNumbers (λ k. ((start ≤ k) × (k < end)) × (Contains hot.now k → ⊥))
        part.items) }
{
    let marks = marks(alloc, hot, start, end)?;
    let mut part = Vec::new(alloc);
    for block in start..end {
        if marks[block - start] {
            continue;
        }
        part.push(block)?;
    }
    Ok(part)
}

// For each block from `start` to before `end`, whether it is in `hot`.
fn marks(alloc: Global, hot: &[usize], start: usize, end: usize) -> Result<Vec<bool>, NoMemory>
    requires hot { All (λ k. (start ≤ k) × (k < end)) hot.now }
    ensures length { IfOk result (λ marks. length marks.items ≡ end - start) }
    ensures marked { IfOk result (λ marks. (k : ℕ) → k < end - start →
        IsTrue (slice_index_or marks.items k false) ↔ Contains hot.now (start + k)) }
{
    let mut marks = vec![in alloc; false; end.saturating_sub(start)]?;
    for block in hot {
        marks[*block - start] = true;
    }
    Ok(marks)
}

/// Whether a block from `start` to before `end` has a positive weight.
pub fn is_hot(weights: &[u128], start: usize, end: usize) -> bool
    requires { end ≤ length weights.now }
    ensures { MatchBool result ((k : ℕ) × (start ≤ k) × (k < end) × (0 < slice_index weights.now k))
        ((k : ℕ) → start ≤ k → k < end → slice_index weights.now k ≡ 0) }
{
    for block in start..end {
        if weights[block] > 0 {
            return true;
        }
    }
    false
}
