// Following chains from block to block.
ghost use Rattle.std.specs.Prelude.{◌≡◌, ◌<◌, ◌≤◌, ℕ, List, All, IfOk, None, length, slice_index, slice_index_or};
ghost use Rattle.block_layout.specs.Links.{IsChain};
ghost use Rattle.block_layout.specs.Parts.{greatest};
ghost use Rattle.block_layout.specs.Walks.{AreKept, links_of};

use crate::links::ChainLinks;
use rb_bytes::fault::NoMemory;
use std::alloc::Global;

/// The blocks of the chain that begins with block `head`.
pub fn chain(alloc: Global, links: &ChainLinks, head: usize) -> Result<Vec<usize>, NoMemory>
    requires links { AreKept links.now }
    requires inside { head < length links.now.next.items }
    requires first { slice_index_or links.now.prev.items head None ≡ None }
    ensures { IfOk result (λ chain. IsChain (links_of links.now) head chain.items) }
{
    let mut chain = Vec::new(alloc);
    let mut last = head;
    chain.push(head)?;
    while let Some(block) = links.next[last] {
        chain.push(block)?;
        last = block;
    }
    Ok(chain)
}

/// The greatest weight of `blocks`, or 0 if there are none.
pub fn greatest(weights: &[u128], blocks: &[usize]) -> u128
    requires { All (λ k. k < length weights.now) blocks.now }
    ensures { result ≡ greatest (λ k. slice_index weights.now k) blocks.now }
{
    let mut most = 0;
    for block in blocks {
        let weight = weights[*block];
        most = weight.max(most);
    }
    most
}
