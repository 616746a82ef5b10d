// Repairing a profile, function by function.
ghost use Rattle.std.specs.Prelude.{◌≡◌, ◌<◌, ◌≤◌, IfOk, length};
ghost use Rattle.cfg_build.specs.EdgeLists.{AreStretches};
ghost use Rattle.cfg_build.specs.NamedAddresses.{code_of};
ghost use Rattle.edge_profile.specs.Profile.{pairs_of};
ghost use Rattle.flow_infer.specs.Repairs.{IsRepaired};
ghost use Rattle.rv_code.specs.layout.BlockOrders.{func_of_block};
ghost use Rattle.rv_code.specs.layout.ProgramCode.{ProgramCode};
ghost use Rattle.flow_infer.specs.Sources.{AreSources, IsCodeOf, IsFunctionFrom, JoinBlocks};

use crate::counts::by_end;
use crate::entries::entries;
use crate::flow::Flow;
use crate::joining::add_function;
use crate::links::function_links;
use crate::source::Source;
use edge_profile::Profile;
use rb_bytes::fault::NoMemory;
use rv_code::{Block, Func};
use rv_reloc::Refs;
use std::alloc::Global;

/// Counts that balance at each block, with the least change of a profile's counts. `refs` are the references of the
/// file, and `entry` is its entry point. `edges` are the edges between the blocks, in order of source and then of
/// target.
pub fn repair(
    alloc: Global,
    funcs: &[Func],
    blocks: &[Block],
    edges: &[(usize, usize)],
    refs: &Refs,
    entry: u64,
    profile: &Profile,
) -> Result<Flow, NoMemory>
    requires blocks { AreStretches funcs.now blocks.now }
    requires edges { JoinBlocks blocks.now edges.now }
    ensures { IfOk result (IsRepaired (code_of funcs.now refs.now entry) blocks.now edges.now (pairs_of profile.now)) }
{
    let entries = entries(alloc, funcs, refs, entry)?;
    let pairs = profile.pairs();
    let ends = by_end(alloc, pairs)?;
    let source = Source {
        funcs,
        blocks,
        edges,
        entries: &entries,
        profile,
        pairs,
        ends: &ends,
    };
    repair_functions(alloc, &source)
}

// The flows of all functions, one after another.
fn repair_functions(alloc: Global, source: &Source) -> Result<Flow, NoMemory>
    requires { AreSources source.now }
    ensures { IfOk result (λ flow. (code : ProgramCode) → IsCodeOf code source.now →
        IsRepaired code source.now.blocks.now source.now.edges.now source.now.pairs.now flow) }
{
    let mut flow = Flow {
        links: Vec::new(alloc),
        prices: Vec::new(alloc),
    };
    while flow.prices.len() < source.blocks.len() {
        let first = flow.prices.len();
        let end = function_end(source.blocks, first);
        let mut links = function_links(alloc, source, first, end)?;
        add_function(alloc, &mut flow, &mut links, end - first + 1)?;
    }
    Ok(flow)
}

// The end of the range of blocks of the function whose first block is `first`.
fn function_end(blocks: &[Block], first: usize) -> usize
    requires { first < length blocks.now }
    ensures { IsFunctionFrom blocks.now first result }
{
    for i in first + 1..blocks.len() {
        if func_of(blocks, i) != func_of(blocks, first) {
            return i;
        }
    }
    blocks.len()
}

fn func_of(blocks: &[Block], place: usize) -> usize
    requires { place < length blocks.now }
    ensures { result ≡ func_of_block blocks.now place }
{
    blocks[place].func
}
