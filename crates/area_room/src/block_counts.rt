// Blocks with instructions in a range of addresses.
ghost use Rattle.std.specs.Prelude.{◌≡◌, length, filter, map};
ghost use Rattle.rv_code.specs.layout.Blocks.{block_start};
ghost use Rattle.rv_code.specs.layout.FunctionLists.{AreLaidOut};
ghost use Rattle.rv_code.specs.layout.FunctionMembers.{IsOfFunction};
ghost use Rattle.area_room.specs.EntryNeeds.{has_inst_in};
ghost use Rattle.area_room.specs.Need.{AreBlocksOf};

use crate::bounds::count_below;
use rv_code::{Block, Func};

/// The number of blocks with an instruction that starts from `low` to before `high`: the blocks that start there, and
/// possibly the last one that starts below `low`. `starts` has the start of each block, ascending.
pub(crate) fn count_blocks_in(
    funcs: &[Func],
    blocks: &[Block],
    starts: &[u64],
    low: u64,
    high: u64,
) -> usize
    requires laid { AreLaidOut funcs.now }
    requires blocks { AreBlocksOf funcs.now blocks.now }
    requires starts { starts.now ≡ map (block_start funcs.now) blocks.now }
    ensures { result ≡ length (filter (has_inst_in funcs.now low high) blocks.now) }
{
    if high <= low {
        return 0;
    }
    let before = count_below(starts, low);
    let inside = count_below(starts, high).saturating_sub(before);
    if before > 0 && has_inst_in(funcs, &blocks[before - 1], low, high) {
        inside + 1
    } else {
        inside
    }
}

// Whether a block has an instruction that starts from `low` to before `high`. A binary search.
fn has_inst_in(funcs: &[Func], block: &Block, low: u64, high: u64) -> bool
    requires laid { AreLaidOut funcs.now }
    requires block { IsOfFunction funcs.now block.now }
    ensures { result ≡ has_inst_in funcs.now low high block.now }
{
    let insts = &funcs[block.func].insts[block.first..block.last + 1];
    let first = insts.partition_point(|p| p.addr < low);
    first < insts.len() && insts[first].addr < high
}
