// Chains with a hot block, in their order.
ghost use Rattle.std.specs.Prelude.{◌≡◌, ◌<◌, ◌≤◌, AllPairs, IfOk, IsPermutation, length, slice_index};
ghost use Rattle.block_layout.specs.Walks.{AreHotBetween, AreKept, IsUpTo, links_of};

use crate::links::ChainLinks;
use crate::walks::{chain, greatest};
use rb_bytes::fault::NoMemory;
use std::alloc::Global;
use std::cmp::Reverse;

/// A chain: the greatest weight of its blocks, its first block, and all of its blocks.
#[derive(Drop)]
pub struct HotChain {
    pub weight: u128,
    pub head: usize,
    pub blocks: Vec<usize>,
}

/// The chains with a hot block that begin after block `start` and before `end`, by greatest weight and then by first
/// block. The chain that begins with `start` comes before them in any case, so it isn't included.
pub fn hot_chains(
    alloc: Global,
    links: &ChainLinks,
    weights: &[u128],
    start: usize,
    end: usize,
) -> Result<Vec<HotChain>, NoMemory>
    requires links { AreKept links.now }
    requires weights { length weights.now ≡ length links.now.next.items }
    requires inside { end ≤ length weights.now }
    requires some { start < end }
    ensures chains { IfOk result (λ chains.
        AreHotBetween (links_of links.now) (λ k. slice_index weights.now k) start end chains.items) }
    ensures sorted { IfOk result (λ chains. AllPairs IsUpTo chains.items) }
{
    let mut chains = Vec::new(alloc);
    for head in start + 1..end {
        if links.prev[head].is_some() {
            continue;
        }
        let blocks = chain(alloc, links, head)?;
        let weight = greatest(weights, &blocks);
        if weight == 0 {
            continue;
        }
        chains.push(HotChain {
            weight,
            head,
            blocks,
        })?;
    }
    sort_chains(&mut chains);
    Ok(chains)
}

fn sort_chains(chains: &mut Vec<HotChain>)
    ensures permutation { IsPermutation chains.old.items chains.new.items }
    ensures sorted { AllPairs IsUpTo chains.new.items }
{
    chains.sort_unstable_by_key(|c| (Reverse(c.weight), c.head));
}
