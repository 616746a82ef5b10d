// The address pairs of edges with their flows, and the start and end addresses of blocks.
ghost use Rattle.std.specs.Prelude.{◌≡◌, ◌<◌, All, IfOk, length};
ghost use Rattle.rv_code.specs.layout.FunctionMembers.{IsOfFunction};
ghost use Rattle.flow_text.specs.LinkLists.{IsBetween};
ghost use Rattle.flow_text.specs.RepairedCounts as counts;

use flow_infer::{Link, block_end};
use rb_bytes::fault::NoMemory;
use rb_bytes::lists::push_some;
use rv_code::functions::block_start;
use rv_code::{Block, Func};
use std::alloc::Global;

/// The address pairs of all edges with their flows, in the order of the links.
pub fn edge_flows(
    alloc: Global,
    funcs: &[Func],
    blocks: &[Block],
    links: &[Link],
) -> Result<Vec<(u64, u64, u128)>, NoMemory>
    requires blocks { All (IsOfFunction funcs.now) blocks.now }
    requires links { All (IsBetween blocks.now) links.now }
    ensures { IfOk result (λ flows. flows.items ≡ counts.edge_flows funcs.now blocks.now links.now) }
{
    let mut flows = Vec::new(alloc);
    for link in links {
        push_some(&mut flows, flow_between(funcs, blocks, link))?;
    }
    Ok(flows)
}

// The address pair of an edge, from the last instruction of a block to the first of another, and its flow. `None` for a
// way in or out.
fn flow_between(funcs: &[Func], blocks: &[Block], link: &Link) -> Option<(u64, u64, u128)>
    requires blocks { All (IsOfFunction funcs.now) blocks.now }
    requires link { IsBetween blocks.now link.now }
    ensures { result ≡ counts.flow_between funcs.now blocks.now link.now.from link.now.to link.now.flow }
{
    let from = link.from?;
    let to = link.to?;
    Some((
        end_at(funcs, blocks, from),
        start_at(funcs, blocks, to),
        link.flow,
    ))
}

// The address of the last instruction of block `place`.
fn end_at(funcs: &[Func], blocks: &[Block], place: usize) -> u64
    requires blocks { All (IsOfFunction funcs.now) blocks.now }
    requires inside { place < length blocks.now }
    ensures { result ≡ counts.end_at funcs.now blocks.now place }
{
    block_end(funcs, &blocks[place])
}

/// The address at which block `place` starts.
pub fn start_at(funcs: &[Func], blocks: &[Block], place: usize) -> u64
    requires blocks { All (IsOfFunction funcs.now) blocks.now }
    requires inside { place < length blocks.now }
    ensures { result ≡ counts.start_at funcs.now blocks.now place }
{
    block_start(funcs, &blocks[place])
}
