// The parts of all functions.
ghost use Rattle.std.specs.Prelude.{◌≡◌, ◌+◌, ◌<◌, ◌≤◌, ℕ, All, IfOk, None, length, slice_index, slice_index_or};
ghost use Rattle.rv_code.specs.declared.placed.Block.{Block};
ghost use Rattle.block_layout.specs.HotAndCold.{AreSplit, AreSplitTo, IsHotOrEmpty, IsFirstOf};
ghost use Rattle.block_layout.specs.Parts.{IsFirstBlock, IsOf};
ghost use Rattle.block_layout.specs.Walks.{AreFrom, AreInner, AreKept, links_of};
ghost use Rattle.edge_profile.specs.BlockPlaces.{AreBlocksApart};

use crate::links::ChainLinks;
use crate::parts::{cold_part, hot_part, is_hot};
use rb_bytes::fault::NoMemory;
use rv_code::{Block, Chains};
use std::alloc::Global;

/// The hot and the cold part of one function, as indices of blocks.
#[derive(Drop)]
pub struct Split {
    pub hot: Vec<usize>,
    pub cold: Vec<usize>,
    /// The index of the next function's first block.
    pub end: usize,
}

/// The hot and cold parts of the first `count` functions.
pub fn function_parts(
    alloc: Global,
    count: usize,
    blocks: &[Block],
    links: &ChainLinks,
    weights: &[u128],
) -> Result<Chains, NoMemory>
    requires blocks { AreBlocksApart blocks.now }
    requires of_functions { (k f : ℕ) → IsOf blocks.now f k → f < count }
    requires links { AreKept links.now }
    requires lengths { length links.now.next.items ≡ length blocks.now }
    requires weights { length weights.now ≡ length blocks.now }
    requires inner { AreInner blocks.now (links_of links.now) }
    requires firsts { (k : ℕ) → IsFirstBlock blocks.now k → slice_index_or links.now.prev.items k None ≡ None }
    ensures { IfOk result (AreSplitTo blocks.now (λ k. slice_index weights.now k) (links_of links.now) count) }
{
    let mut hot = Vec::new(alloc);
    let mut cold = Vec::new(alloc);
    let mut start = 0;
    for func in 0..count {
        let parts = parts_from(alloc, blocks, links, weights, func, start)?;
        let Split {
            hot: hot_blocks,
            cold: cold_blocks,
            end,
        } = parts;
        hot.push(hot_blocks)?;
        cold.push(cold_blocks)?;
        start = end;
    }
    Ok(Chains { hot, cold })
}

// The parts of function `func`, whose first block is `start`.
fn parts_from(
    alloc: Global,
    blocks: &[Block],
    links: &ChainLinks,
    weights: &[u128],
    func: usize,
    start: usize,
) -> Result<Split, NoMemory>
    requires blocks { AreBlocksApart blocks.now }
    requires start { IsFirstOf blocks.now func start }
    requires links { AreKept links.now }
    requires lengths { length links.now.next.items ≡ length blocks.now }
    requires weights { length weights.now ≡ length blocks.now }
    requires inner { AreInner blocks.now (links_of links.now) }
    requires firsts { (k : ℕ) → IsFirstBlock blocks.now k → slice_index_or links.now.prev.items k None ≡ None }
    ensures parts { IfOk result (λ s. AreSplit blocks.now (λ k. slice_index weights.now k) (links_of links.now) func
        s.hot.items s.cold.items) }
    ensures next { IfOk result (λ s. IsFirstOf blocks.now (func + 1) s.end) }
{
    let end = end_of(blocks, start, func);
    let hot = hot_blocks(alloc, links, weights, start, end)?;
    let cold = cold_part(alloc, &hot, start, end)?;
    Ok(Split { hot, cold, end })
}

// The hot part of a function with the blocks from `start` to before `end`: empty, unless a block has a positive weight.
fn hot_blocks(
    alloc: Global,
    links: &ChainLinks,
    weights: &[u128],
    start: usize,
    end: usize,
) -> Result<Vec<usize>, NoMemory>
    requires links { AreKept links.now }
    requires weights { length weights.now ≡ length links.now.next.items }
    requires inside { end ≤ length weights.now }
    requires first { start < end → slice_index_or links.now.prev.items start None ≡ None }
    ensures { IfOk result (λ part. IsHotOrEmpty (links_of links.now) (λ k. slice_index weights.now k) start end
        part.items) }
{
    if !is_hot(weights, start, end) {
        return Ok(Vec::new(alloc));
    }
    hot_part(alloc, links, weights, start, end)
}

// The end of the range of blocks of function `func`, which begins at `start`.
fn end_of(blocks: &[Block], start: usize, func: usize) -> usize
    requires blocks { AreBlocksApart blocks.now }
    requires start { IsFirstOf blocks.now func start }
    ensures blocks { AreFrom blocks.now func start result }
    ensures next { IsFirstOf blocks.now (func + 1) result }
    ensures up { start ≤ result }
{
    let mut end = start;
    while end < blocks.len() && blocks[end].func == func {
        end += 1;
    }
    end
}
