// The room for the new area.
ghost use Rattle.std.specs.Prelude.{◌≡◌, ◌+◌, ◌-◌, ◌^◌, ◌<◌, IfSome, Some};
ghost use Rattle.elf_image.specs.memory.CodeSegment.{executable_end};
ghost use Rattle.file_room.specs.Room as spec;
ghost use Rattle.file_room.specs.RoomFault as fault;

use crate::round::{capped, rounded_up};
use elf_image::code_segment::executable_segment;
use elf_image::header::EHDR_SIZE;
use elf_image::segment::{ADDRESS_END, PHDR_SIZE, PT_LOAD};
use elf_image::start::{BREAK_ROOM, PAGE_SIZE, writable_end};
use elf_image::{Elf, Segment};
use rb_bytes::fault::{Fault, FaultKind};

/// The alignment of the start of the new area.
pub const AREA_ALIGN: u64 = 16;

// The address at which the executable segment ends, or 0 if there is none.
fn code_end(segments: &[Segment]) -> u128
    ensures end { result ≡ spec.code_end segments.now }
    ensures low { result < 2 ^ 65 }
{
    match executable_segment(segments) {
        Some((_, p)) => p.end(),
        None => 0,
    }
}

/// The start address of the new area after the executable segment.
pub fn area_start(segments: &[Segment]) -> u128
    ensures { result ≡ spec.area_start segments.now }
{
    rounded_up(AREA_ALIGN, code_end(segments))
}

// The start of the page on which the lowest loaded segment at or above `end` starts, and at most `ADDRESS_END`.
fn limit_above(segments: &[Segment], end: u128) -> u64
    ensures { result ≡ spec.limit_above end segments.now }
{
    let mut limit = ADDRESS_END;
    for p in segments {
        if p.kind == PT_LOAD && end <= p.vaddr as u128 {
            limit = limit.min(p.vaddr / PAGE_SIZE * PAGE_SIZE);
        }
    }
    limit
}

// The number of bytes from `start` to before `end`.
fn bytes_between(start: u128, end: u64) -> u64
    ensures { result ≡ end - start }
{
    if start < end as u128 {
        end - start as u64
    } else {
        0
    }
}

// The file offset at which the executable segment ends, or 0 if there is none.
fn file_end(segments: &[Segment]) -> u128
    ensures { result ≡ executable_end segments.now }
{
    match executable_segment(segments) {
        Some((_, p)) => p.offset as u128 + p.filesz as u128,
        None => 0,
    }
}

/// The number of bytes available for the new area after the executable segment. It is 0 if that segment ends within the
/// file header, which the area would overwrite.
pub fn room(elf: &Elf) -> u64
    ensures { result ≡ spec.room elf.now.segments.items }
{
    if file_end(&elf.segments) < EHDR_SIZE as u128 {
        return 0;
    }
    let limit = limit_above(&elf.segments, code_end(&elf.segments));
    bytes_between(area_start(&elf.segments), limit)
}

/// The greatest alignment of the loaded segments, at least the page size.
pub fn greatest_align(segments: &[Segment]) -> u64
    ensures greatest { result ≡ spec.greatest_align segments.now }
    ensures some { 0 < result }
{
    let mut align = PAGE_SIZE;
    for p in segments {
        if p.kind == PT_LOAD {
            align = align.max(p.align);
        }
    }
    align
}

fn highest_end(segments: &[Segment]) -> u128
    ensures end { result ≡ spec.highest_end segments.now }
    ensures low { result < 2 ^ 65 }
{
    let mut end = 0;
    for p in segments {
        if p.kind == PT_LOAD {
            end = end.max(p.end());
        }
    }
    end
}

// The address that the program break never exceeds, or 0 if no segment is writable.
fn break_end(segments: &[Segment]) -> u128
    ensures end { result ≡ spec.break_end segments.now }
    ensures low { result < 2 ^ 65 + 2 ^ 27 }
{
    let end = writable_end(segments);
    if end == 0 {
        return 0;
    }
    rounded_up(PAGE_SIZE, end) + BREAK_ROOM as u128
}

/// The start address of a new segment for the new area: above all others and the break.
pub fn new_segment_start(segments: &[Segment]) -> u128
    ensures start { result ≡ spec.new_segment_start segments.now }
    ensures low { result < 2 ^ 65 + 2 ^ 64 + 2 ^ 27 }
{
    let end = highest_end(segments).max(break_end(segments));
    rounded_up(greatest_align(segments), end)
}

/// The start address of the new area in a new segment: after the table of program headers, which is moved to the new
/// segment and has one more entry.
pub fn area_above(segments: &[Segment]) -> u128
    ensures { result ≡ spec.area_above segments.now }
{
    let table = PHDR_SIZE as u128 * (segments.len() as u128 + 1);
    rounded_up(AREA_ALIGN, new_segment_start(segments) + table)
}

/// The number of bytes available for the new area in a new segment.
pub fn room_above(elf: &Elf) -> u64
    ensures { result ≡ spec.room_above elf.now.segments.items }
{
    bytes_between(area_above(&elf.segments), ADDRESS_END)
}

/// Whether a file is tight: `need` bytes don't fit after the executable segment.
pub fn is_tight(elf: &Elf, need: u64) -> bool
    ensures { result ≡ spec.is_tight elf.now.segments.items need }
{
    room(elf) < need
}

/// The fault `NoRoom`, if `need` bytes fit neither after the executable segment nor in a new segment.
pub fn no_room(elf: &Elf, need: u64) -> Option<Fault>
    ensures { result ≡ fault.no_room elf.now.segments.items need }
{
    let room = room_above(elf);
    if !is_tight(elf, need) || room >= need {
        return None;
    }
    Some(Fault {
        kind: FaultKind::NoRoom,
        place: capped(area_above(&elf.segments)),
        need,
        room,
    })
}

/// The start address of the new area: in a new segment if the file is `tight`, and otherwise after the executable
/// segment. None if that address is 0 or doesn't fit 64 bits.
pub fn area_start_of(segments: &[Segment], tight: bool) -> Option<u64>
    ensures start { IfSome result (λ start. start ≡ spec.area_start_of segments.now tight) }
    ensures some { IfSome result (λ start. 0 < start) }
{
    let start = if tight {
        area_above(segments)
    } else {
        area_start(segments)
    };
    if start == 0 || start > u64::MAX as u128 {
        return None;
    }
    Some(start as u64)
}
