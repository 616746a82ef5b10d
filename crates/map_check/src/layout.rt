// Clause `Table`: the layout of its file that a program finds.
ghost use Rattle.std.specs.Prelude.{◌≡◌, ◌↔◌, IsTrue};
ghost use Rattle.elf_image.specs.file.ParsedFile.{IsElfOf};
ghost use Rattle.elf_image.specs.memory.Break.{break_bound, break_start, page_size, rounded_down, table_address};
ghost use Rattle.move_law.specs.FaithfulRewrite.{KeepsLayout, KeepsTable};
ghost use Rattle.move_law.specs.Rewrite.{Rewrite};
ghost use Rattle.map_check.specs.internal.KeptBytes.{AreBytesOf};

use elf_image::segment::{PHDR_SIZE, range_segment};
use elf_image::start::{BREAK_ROOM, PAGE_SIZE, writable_end};
use elf_image::{Elf, Segment};

// The address at which the table of program headers is loaded; 0 if no segment loads all of it from the file.
fn table_address(elf: &Elf) -> u128
    requires { IsElfOf elf.now.file.now elf.now }
    ensures { result ≡ table_address elf.now.file.now }
{
    let segments: &[Segment] = &elf.segments;
    let size = (PHDR_SIZE * segments.len()) as u64;
    match range_segment(segments, elf.phoff, size) {
        Some(segment) => segment.vaddr as u128 + (elf.phoff - segment.offset) as u128,
        None => 0,
    }
}

fn rounded_down(address: u64) -> u64
    ensures { result ≡ rounded_down page_size address }
{
    address / PAGE_SIZE * PAGE_SIZE
}

// The start of the break: the end of the highest writable segment, rounded up to a page.
fn break_start(segments: &[Segment]) -> u128
    ensures { result ≡ break_start segments.now }
{
    let page = PAGE_SIZE as u128;
    (writable_end(segments) + (page - 1)) / page * page
}

// The highest address to which the break may move: `BREAK_ROOM` after its start, or less if a segment's page begins
// before that.
fn break_bound(segments: &[Segment]) -> u128
    ensures { result ≡ break_bound segments.now }
{
    let end = writable_end(segments);
    if end == 0 {
        return 0;
    }
    let start = break_start(segments);
    let mut bound = start + BREAK_ROOM as u128;
    for segment in segments {
        if segment.has_memory() && end <= segment.vaddr as u128 {
            bound = bound.min(rounded_down(segment.vaddr) as u128);
        }
    }
    start.max(bound)
}

// Whether the table of program headers is loaded at the same address, with the same number of headers.
fn keeps_table(input: &Elf, output: &Elf) -> bool
    requires input { IsElfOf input.now.file.now input.now }
    requires output { IsElfOf output.now.file.now output.now }
    ensures { (r : Rewrite) → AreBytesOf r input.now output.now → IsTrue result ↔ KeepsTable r }
{
    table_address(input) == table_address(output) && input.segments.len() == output.segments.len()
}

// Whether the break starts at the same address, and may move as far.
fn keeps_break(input: &Elf, output: &Elf) -> bool
    ensures start { IsTrue result → break_start input.now.segments.items ≡ break_start output.now.segments.items }
    ensures bound { IsTrue result → break_bound input.now.segments.items ≡ break_bound output.now.segments.items }
    ensures only { break_start input.now.segments.items ≡ break_start output.now.segments.items →
        break_bound input.now.segments.items ≡ break_bound output.now.segments.items → IsTrue result }
{
    break_start(&input.segments) == break_start(&output.segments)
        && break_bound(&input.segments) == break_bound(&output.segments)
}

/// Whether a program finds the same break, and in a file that isn't tight the same table of program headers.
pub fn keeps_layout(input: &Elf, output: &Elf, tight: bool) -> bool
    requires input { IsElfOf input.now.file.now input.now }
    requires output { IsElfOf output.now.file.now output.now }
    ensures { (r : Rewrite) → AreBytesOf r input.now output.now → r.tight ≡ tight → IsTrue result ↔ KeepsLayout r }
{
    (tight || keeps_table(input, output)) && keeps_break(input, output)
}
