// The links of one function.
ghost use Rattle.std.specs.Prelude.{◌≡◌, ◌+◌, ◌-◌, ◌<◌, ◌≤◌, ℕ, All, IfOk, OnOk, length, map};
ghost use Rattle.flow_infer.specs.Heights.{AreAmong};
ghost use Rattle.flow_infer.specs.Sources.{AreLinksUpto, AreLinksWithin, AreSources, IsFunctionRange, link_if};

use crate::flow::Link;
use crate::source::Source;
use crate::ways::{count_between, edges_from, way_in, way_out};
use rb_bytes::fault::NoMemory;
use rb_bytes::lists::push_some;
use std::alloc::Global;

/// The links of a function whose blocks are from `first` to before `end`, with their counts as flow, in order of their
/// starts and then of their ends. The outside comes before all blocks.
pub fn function_links(
    alloc: Global,
    source: &Source,
    first: usize,
    end: usize,
) -> Result<Vec<Link>, NoMemory>
    requires source { AreSources source.now }
    requires function { IsFunctionRange source.now.blocks.now first end }
    ensures among { IfOk result (λ links. AreAmong first (end - first + 1) links.items) }
    ensures counted { IfOk result (λ links. All (λ l. l.flow ≡ l.count) links.items) }
    ensures links { IfOk result (λ links. AreLinksWithin source.now first end links.items) }
{
    let mut links = ways_in(alloc, source, first, end)?;
    for block in first..end {
        push_ways_from(&mut links, source, block)?;
    }
    Ok(links)
}

// The ways from outside into the function's blocks.
fn ways_in(alloc: Global, source: &Source, first: usize, end: usize) -> Result<Vec<Link>, NoMemory>
    requires source { AreSources source.now }
    requires function { IsFunctionRange source.now.blocks.now first end }
    ensures among { IfOk result (λ links. AreAmong first (end - first + 1) links.items) }
    ensures counted { IfOk result (λ links. All (λ l. l.flow ≡ l.count) links.items) }
    ensures links { IfOk result (λ links. AreLinksUpto source.now first end 0 (end + 1) links.items) }
{
    let mut links = Vec::new(alloc);
    for block in first..end {
        push_some(
            &mut links,
            link_if(None, Some(block), way_in(source, block)),
        )?;
    }
    Ok(links)
}

// Appends the ways out from `block`, and its edges.
fn push_ways_from(links: &mut Vec<Link>, source: &Source, block: usize) -> Result<(), NoMemory>
    requires source { AreSources source.now }
    requires inside { block < length source.now.blocks.now }
    ensures among { OnOk result ((first end : ℕ) → IsFunctionRange source.now.blocks.now first end →
        first ≤ block → block < end →
        AreAmong first (end - first + 1) links.old.items → AreAmong first (end - first + 1) links.new.items) }
    ensures counted { OnOk result
        (All (λ l. l.flow ≡ l.count) links.old.items → All (λ l. l.flow ≡ l.count) links.new.items) }
    ensures links { OnOk result ((first end : ℕ) → IsFunctionRange source.now.blocks.now first end →
        first ≤ block → block < end →
        AreLinksUpto source.now first end (block + 1) 0 links.old.items →
        AreLinksUpto source.now first end (block + 1 + 1) 0 links.new.items) }
{
    push_some(links, link_if(Some(block), None, way_out(source, block)))?;
    for edge in edges_from(source.edges, block) {
        let count = count_between(source, block, edge.1);
        push_some(links, link_if(Some(block), Some(edge.1), Some(count)))?;
    }
    Ok(())
}

// A link with its count as flow, if there is a count.
fn link_if(from: Option<usize>, to: Option<usize>, count: Option<u128>) -> Option<Link>
    ensures { result ≡ link_if from to count }
{
    let count = count?;
    Some(Link {
        from,
        to,
        count,
        flow: count,
    })
}
