// Chains of blocks, which are linked one edge after another.
ghost use Rattle.std.specs.Prelude.{◌≡◌, ◌≢◌, ◌⊎◌, ◌↔◌, ◌<◌, ◌≤◌, ℕ, IfOk, IsTrue, MatchBool, None, Some, true, false};
ghost use Rattle.std.specs.Prelude.{length, slice_index, slice_index_or, slice_set};
ghost use Rattle.rv_code.specs.declared.placed.Block.{Block};
ghost use Rattle.edge_profile.specs.BlockPlaces.{AreBlocksApart};
ghost use Rattle.block_layout.specs.FirstLinks.{IsLinked, told, ends_of_edge};
ghost use Rattle.block_layout.specs.Parts.{IsFirstBlock};

use crate::edge_counts::Edge;
use rb_bytes::fault::NoMemory;
use rv_code::Block;
use std::alloc::Global;

/// The chains so far, of blocks by their indices.
#[derive(Drop)]
pub struct ChainLinks {
    /// The block that follows each block.
    pub next: Vec<Option<usize>>,
    /// The block that precedes each block.
    pub prev: Vec<Option<usize>>,
    /// For the last block of a chain, the first one. Not kept up to date for other blocks.
    pub head: Vec<usize>,
    /// For the first block of a chain, the last one. Not kept up to date for other blocks.
    pub tail: Vec<usize>,
}

impl ChainLinks {
    // Each block is a chain of its own.
    fn new(alloc: Global, count: usize) -> Result<ChainLinks, NoMemory>
        ensures sized { IfOk result (λ l. (length l.next.items ≡ count) × (length l.prev.items ≡ count) ×
            (length l.head.items ≡ count) × (length l.tail.items ≡ count)) }
        ensures next { IfOk result (λ l. (x : ℕ) → slice_index_or l.next.items x None ≡ None) }
        ensures prev { IfOk result (λ l. (x : ℕ) → slice_index_or l.prev.items x None ≡ None) }
        ensures head { IfOk result (λ l. (x : ℕ) → x < count → slice_index l.head.items x ≡ x) }
        ensures tail { IfOk result (λ l. (x : ℕ) → x < count → slice_index l.tail.items x ≡ x) }
    {
        let next = vec![in alloc; None; count]?;
        let prev = vec![in alloc; None; count]?;
        let head = (0..count).collect(alloc)?;
        let tail = (0..count).collect(alloc)?;
        Ok(ChainLinks {
            next,
            prev,
            head,
            tail,
        })
    }

    // Whether block `to` may follow block `from`. The first block of a function (`is_first`) follows none, and `to` may
    // not be the head of the chain that ends with `from`, since the chain would become a ring.
    fn may_link(&self, from: usize, to: usize, is_first: bool) -> bool
        requires from_next { from < length self.now.next.items }
        requires to_prev { to < length self.now.prev.items }
        requires from_head { from < length self.now.head.items }
        ensures { MatchBool result
            ((slice_index_or self.now.next.items from None ≡ None)
            × (slice_index_or self.now.prev.items to None ≡ None) ×
            (is_first ≡ false) × (slice_index self.now.head.items from ≢ to))
            ((slice_index_or self.now.next.items from None ≢ None)
            ⊎ ((slice_index_or self.now.prev.items to None ≢ None) ⊎
            ((is_first ≡ true) ⊎ (slice_index self.now.head.items from ≡ to)))) }
    {
        self.next[from].is_none() && self.prev[to].is_none() && !is_first && self.head[from] != to
    }

    // Joins the chain that ends with block `from` and the chain that begins with block `to`.
    fn link(&mut self, from: usize, to: usize)
        requires from_next { from < length self.old.next.items }
        requires to_prev { to < length self.old.prev.items }
        requires from_head { from < length self.old.head.items }
        requires to_tail { to < length self.old.tail.items }
        requires end { slice_index self.old.tail.items to < length self.old.head.items }
        requires start { slice_index self.old.head.items from < length self.old.tail.items }
        ensures next { self.new.next.items ≡ slice_set self.old.next.items from (Some to) }
        ensures prev { self.new.prev.items ≡ slice_set self.old.prev.items to (Some from) }
        ensures head { self.new.head.items ≡
            slice_set self.old.head.items (slice_index self.old.tail.items to) (slice_index self.old.head.items from) }
        ensures tail { self.new.tail.items ≡
            slice_set self.old.tail.items (slice_index self.old.head.items from) (slice_index self.old.tail.items to) }
    {
        let start = self.head[from];
        let end = self.tail[to];
        self.next[from] = Some(to);
        self.prev[to] = Some(from);
        self.head[end] = start;
        self.tail[start] = end;
    }
}

/// The chains that `edges` make of `blocks`: each edge in turn links its blocks, if they may still be linked.
pub fn link_edges(alloc: Global, blocks: &[Block], edges: &[Edge]) -> Result<ChainLinks, NoMemory>
    requires blocks { AreBlocksApart blocks.now }
    requires inside { (i : ℕ) → i < length edges.now →
        ((ends_of_edge edges.now i).0 < length blocks.now) × ((ends_of_edge edges.now i).1 < length blocks.now) }
    ensures linked { IfOk result (λ l. IsLinked edges.now (length blocks.now) (IsFirstBlock blocks.now)
        (length edges.now)
        (told l.next.items l.prev.items)) }
    ensures sized { IfOk result (λ l. (length l.next.items ≡ length blocks.now)
        × (length l.prev.items ≡ length blocks.now)) }
{
    let mut links = ChainLinks::new(alloc, blocks.len())?;
    for edge in edges {
        let is_first = is_first_block(blocks, edge.to);
        if links.may_link(edge.from, edge.to, is_first) {
            links.link(edge.from, edge.to);
        }
    }
    Ok(links)
}

// Whether a block is the first of its function.
fn is_first_block(blocks: &[Block], block: usize) -> bool
    requires inside { block < length blocks.now }
    requires blocks { AreBlocksApart blocks.now }
    ensures { IsTrue result ↔ IsFirstBlock blocks.now block }
{
    if block == 0 {
        return true;
    }
    blocks[block - 1].func != blocks[block].func
}
