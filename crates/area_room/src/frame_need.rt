// Upper bounds on the size of unwind tables that are loaded.
ghost use Rattle.std.specs.Prelude.{◌≡◌, ◌*◌, IfOk, map};
ghost use Rattle.std.specs.List.Sorted.{IsNonDecreasing};
ghost use Rattle.rv_code.specs.layout.Blocks.{block_start};
ghost use Rattle.rv_code.specs.layout.FunctionLists.{AreLaidOut};
ghost use Rattle.cfi_rows.specs.FrameNeed as spec;
ghost use Rattle.area_room.specs.EntryNeeds.{bounds_of, entries_need, pieces_of, size_of};
ghost use Rattle.area_room.specs.Need.{AreBlocksOf};
ghost use Rattle.file_room.specs.Numbers.{capped};

use crate::block_counts::count_blocks_in;
use crate::bounds::{ascending_bounds, count_between};
use cfi_rows::frame_table::Fde;
use cfi_rows::read_entries;
use elf_image::Elf;
use elf_image::named::EH_FRAME;
use rb_bytes::fault::NoMemory;
use rv_code::functions::block_starts;
use rv_code::{Block, Func};
use std::alloc::Global;
use table_core::section::held_by;

// For the end of a table, the header of its index, and the alignment of both.
const TABLE_NEED: u64 = 64;

// For a CIE.
const CIE_NEED: u64 = 64;

// For the fields of an FDE, its pair in the index and its first row, without the rules and the expressions.
const ENTRY_NEED: u64 = 64;

// For the rule of a register, or of the canonical frame address.
const RULE_NEED: u64 = 24;

/// The greatest size in bytes of `.eh_frame` and its index in the new area, if the file loads one.
pub(crate) fn frame_need(
    alloc: Global,
    elf: &Elf<'_>,
    funcs: &[Func],
    blocks: &[Block],
) -> Result<u64, NoMemory>
    requires laid { AreLaidOut funcs.now }
    requires blocks { AreBlocksOf funcs.now blocks.now }
    ensures { IfOk result (λ need. need ≡ capped (spec.frame_need elf.now funcs.now blocks.now)) }
{
    if elf.section_called(EH_FRAME).is_none() {
        return Ok(0);
    }
    let held = held_by(elf, EH_FRAME);
    let table = read_entries(alloc, false, held.address, held.bytes)?;
    let entries = entries_need(alloc, funcs, blocks, &table.list)?;
    let cies = table.cies.saturating_mul(CIE_NEED);
    Ok(cies.saturating_add(TABLE_NEED).saturating_add(entries))
}

// The greatest size in bytes of all entries that can replace `entries`.
fn entries_need(
    alloc: Global,
    funcs: &[Func],
    blocks: &[Block],
    entries: &[Fde],
) -> Result<u64, NoMemory>
    requires laid { AreLaidOut funcs.now }
    requires blocks { AreBlocksOf funcs.now blocks.now }
    ensures { IfOk result
        (λ need. need ≡ capped (entries_need funcs.now blocks.now (bounds_of entries.now) entries.now)) }
{
    let starts = block_starts(alloc, funcs, blocks)?;
    let bounds = ascending_bounds(alloc, entries)?;
    let need = sum_of_needs(funcs, blocks, &starts, &bounds, entries);
    Ok(need)
}

// The sum of the needs of `entries`. `starts` has the start of each block, and `bounds` the starts and ends of all
// entries; both ascend.
fn sum_of_needs(
    funcs: &[Func],
    blocks: &[Block],
    starts: &[u64],
    bounds: &[u64],
    entries: &[Fde],
) -> u64
    requires laid { AreLaidOut funcs.now }
    requires blocks { AreBlocksOf funcs.now blocks.now }
    requires starts { starts.now ≡ map (block_start funcs.now) blocks.now }
    requires bounds { IsNonDecreasing bounds.now }
    ensures { result ≡ capped (entries_need funcs.now blocks.now bounds.now entries.now) }
{
    let mut sum: u64 = 0;
    for entry in entries {
        sum = sum.saturating_add(entry_need(funcs, blocks, starts, bounds, entry));
    }
    sum
}

// The greatest size in bytes of the entries that replace `entry`. Their number is at most the number of blocks in its
// range, plus its rows, plus the bounds of other entries strictly inside its range.
fn entry_need(funcs: &[Func], blocks: &[Block], starts: &[u64], bounds: &[u64], entry: &Fde) -> u64
    requires laid { AreLaidOut funcs.now }
    requires blocks { AreBlocksOf funcs.now blocks.now }
    requires starts { starts.now ≡ map (block_start funcs.now) blocks.now }
    requires bounds { IsNonDecreasing bounds.now }
    ensures { result ≡ capped (pieces_of funcs.now blocks.now bounds.now entry.now * size_of entry.now) }
{
    let in_blocks = count_blocks_in(funcs, blocks, starts, entry.start, entry.end) as u64;
    let in_others = count_between(bounds, entry.start, entry.end) as u64;
    let pieces = in_blocks
        .saturating_add(entry.rows)
        .saturating_add(in_others);
    pieces.saturating_mul(piece_size(entry))
}

// The greatest size of one entry that replaces `entry`. Besides the rules of its registers it has the rule of the
// canonical frame address.
fn piece_size(entry: &Fde) -> u64
    ensures { result ≡ capped (size_of entry.now) }
{
    let rules = entry.registers.saturating_add(1).saturating_mul(RULE_NEED);
    rules.saturating_add(ENTRY_NEED).saturating_add(entry.bytes)
}
