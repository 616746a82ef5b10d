// Checks the layout of a file's segments and of its sections with code.
ghost use Rattle.std.specs.Prelude.{◌≤◌, ◌<◌, ◌+◌, ◌↔◌, ℕ, IsTrue, IfSome, IfNone, IfOk, Any, nat_eq, codes, ◌^◌};
ghost use Rattle.std.specs.List.{starts_with};
ghost use Rattle.rb_bytes.specs.declared.fault.FaultKind.TheVariants as fault;
ghost use Rattle.elf_image.specs.faults.Truncation.{IsReadable};
ghost use Rattle.elf_image.specs.file.Header.{e_phnum, e_shnum, segment};
ghost use Rattle.elf_image.specs.faults.SegmentLayout.{HasNoCode, IsCode, IsSecondCode, IsTooMany, IsOneTooMany};
ghost use Rattle.elf_image.specs.faults.SegmentLayout.{IsOddCode, IsBadCode, IsLowestCode, IsLowestCodeBelow};
ghost use Rattle.elf_image.specs.faults.SegmentLayout.{CrossesEnd, IsCrossing, IsCrossingTable, IsCrossed};
ghost use Rattle.elf_image.specs.faults.LowestPlace.{IsLowest, SomeBelow};
ghost use Rattle.elf_image.specs.faults.FileFaults.{HasFault};
ghost use Rattle.elf_image.specs.file.ParsedFile.{AreSections};

use crate::entries::SegmentTable;
use crate::faults::overlap::{lowest_shared_address, lowest_shared_byte};
use crate::faults::stray::lowest_stray_section;
use crate::header::{E_PHOFF, Header};
use crate::lowest::{lower, lowest_below, place_if};
use crate::section::{OLD_PREFIX, Section};
use crate::segment::{PHDR_SIZE, Segment};
use rb_bytes::fault::NoMemory;
use std::alloc::Global;

/// The lowest place of the fault `ExecSegments`: a wrong layout of segments or of sections with code.
pub fn lowest_bad_loading(
    alloc: Global,
    file: &[u8],
    sections: &[Section],
) -> Result<Option<u64>, NoMemory>
    requires readable { IsReadable file.now }
    requires sections { AreSections file.now (e_shnum file.now) sections.now }
    ensures { IfOk result (λ lowest. IsLowest (HasFault file.now fault.ExecSegments) lowest) }
{
    let segments = SegmentTable { file };
    let shared = lower(
        lowest_shared_address(alloc, segments)?,
        lowest_shared_byte(alloc, segments)?,
    );
    let stray = lowest_stray_section(alloc, file)?;
    let past_code = lower(shared, lower(lowest_crossed(segments), stray));
    Ok(lower(lowest_bad_code(segments, sections), past_code))
}

// The lowest fault of the executable segments themselves: none, one too many, or an odd one.
fn lowest_bad_code(segments: SegmentTable, sections: &[Section]) -> Option<u64>
    requires sections { AreSections segments.file.now (e_shnum segments.file.now) sections.now }
    ensures { IsLowest (IsBadCode segments.entry.file.now) result }
{
    let too_many = lowest_one_too_many(segments, sections);
    lower(
        lowest_no_code(segments),
        lower(too_many, lowest_odd_code(segments)),
    )
}

// The first executable segment from index `from` on.
fn next_code(segments: SegmentTable, from: usize) -> Option<usize>
    ensures code { IfSome result (λ i. IsCode segments.entry.file.now i) }
    ensures from { IfSome result (λ i. from ≤ i) }
    ensures below { IfSome result (λ i. i + 1 < 2 ^ 64) }
    ensures first { IfSome result (λ i. (k : ℕ) → IsCode segments.entry.file.now k → from ≤ k → i ≤ k) }
    ensures none { IfNone result ((k : ℕ) → IsCode segments.entry.file.now k → from ≤ k → ⊥) }
{
    for index in from..segments.count() {
        if segments.segment_of(index).is_code() {
            return Some(index);
        }
    }
    None
}

fn lowest_no_code(segments: SegmentTable) -> Option<u64>
    ensures { IsLowest (HasNoCode segments.entry.file.now) result }
{
    match next_code(segments, 0) {
        Some(_) => None,
        None => Some(E_PHOFF as u64),
    }
}

// The second executable segment in the table.
fn second_code(segments: SegmentTable) -> Option<usize>
    ensures second { IfSome result (λ i. IsSecondCode segments.entry.file.now i) }
    ensures below { IfSome result (λ i. i + 1 < 2 ^ 64) }
    ensures none { IfNone result ((i : ℕ) → IsSecondCode segments.entry.file.now i → ⊥) }
{
    let first = next_code(segments, 0)?;
    next_code(segments, first + 1)
}

// Whether a section has the name prefix that shows that the file was rewritten before.
fn has_old_section(sections: &[Section]) -> bool
    ensures { IsTrue result ↔ Any (λ s. IsTrue (starts_with nat_eq s.name.now (codes ".old."))) sections.now }
{
    for section in sections {
        if section.name.starts_with(OLD_PREFIX) {
            return true;
        }
    }
    false
}

// Whether a segment from index `from` on is executable.
fn has_code_from(segments: SegmentTable, from: usize) -> bool
    ensures { IsTrue result ↔ ((k : ℕ) × IsCode segments.entry.file.now k × (from ≤ k)) }
{
    next_code(segments, from).is_some()
}

// Whether the second executable segment is one too many: there is a third, or the file was not rewritten.
fn is_too_many(segments: SegmentTable, sections: &[Section], second: usize) -> bool
    requires sections { AreSections segments.file.now (e_shnum segments.file.now) sections.now }
    requires second { second + 1 < 2 ^ 64 }
    ensures { IsTrue result ↔ IsTooMany segments.entry.file.now second }
{
    has_code_from(segments, second + 1) || !has_old_section(sections)
}

// The second executable segment, if it is one too many.
fn lowest_one_too_many(segments: SegmentTable, sections: &[Section]) -> Option<u64>
    requires sections { AreSections segments.file.now (e_shnum segments.file.now) sections.now }
    ensures { IsLowest (SomeBelow (e_phnum segments.entry.file.now) (IsOneTooMany segments.entry.file.now)) result }
{
    let second = second_code(segments)?;
    let is_wrong = is_too_many(segments, sections, second);
    place_if(is_wrong, segments.place(second))
}

fn odd_code(segments: SegmentTable, index: usize) -> Option<u64>
    requires index { index < e_phnum segments.file.now }
    ensures { IsLowest (IsOddCode segments.entry.file.now index) result }
{
    let segment = segments.segment_of(index);
    let is_odd = segment.vaddr == 0 || segment.filesz != segment.memsz;
    place_if(segment.is_code() && is_odd, segments.place(index))
}

// An executable segment at address 0, or one whose sizes in the file and in memory differ.
fn lowest_odd_code(segments: SegmentTable) -> Option<u64>
    ensures { IsLowest (SomeBelow (e_phnum segments.entry.file.now) (IsOddCode segments.entry.file.now)) result }
{
    lowest_below(segments.count(), |index| odd_code(segments, index))
}

// The executable segment at the lowest address.
fn lowest_code(segments: SegmentTable) -> Option<usize>
    ensures some { IfSome result (λ i. IsLowestCode segments.entry.file.now i) }
    ensures none { IfNone result ((i : ℕ) → IsCode segments.entry.file.now i → ⊥) }
{
    let first = next_code(segments, 0)?;
    Some(lowest_code_from(segments, first))
}

// The executable segment at the lowest address. `first` is the first one in the table.
fn lowest_code_from(segments: SegmentTable, first: usize) -> usize
    requires code { IsCode segments.file.now first }
    requires first { (k : ℕ) → IsCode segments.file.now k → first ≤ k }
    ensures { IsLowestCode segments.entry.file.now result }
{
    let mut lowest = first;
    for index in first..segments.count() {
        lowest = lower_code(segments, lowest, index);
    }
    lowest
}

// The lower of the executable segment `lowest` and the segment at `index`, if that is executable.
fn lower_code(segments: SegmentTable, lowest: usize, index: usize) -> usize
    requires index { index < e_phnum segments.file.now }
    requires order { lowest ≤ index }
    requires lowest { IsLowestCodeBelow segments.file.now index lowest }
    ensures lowest { IsLowestCodeBelow segments.entry.file.now (index + 1) result }
    ensures order { result ≤ index }
{
    if is_lower_code(segments, index, lowest) {
        index
    } else {
        lowest
    }
}

// Whether a segment is executable and at a lower address than another.
fn is_lower_code(segments: SegmentTable, index: usize, other: usize) -> bool
    requires index { index < e_phnum segments.file.now }
    requires other { other < e_phnum segments.file.now }
    ensures { IsTrue result
        ↔ (IsCode segments.entry.file.now index
        × ((segment segments.entry.file.now index).vaddr < (segment segments.entry.file.now other).vaddr)) }
{
    let segment = segments.segment_of(index);
    segment.is_code() && segment.vaddr < segments.segment_of(other).vaddr
}

// Whether a range of the file starts before the end of the executable segment, and ends after it.
fn crosses_end(segments: SegmentTable, code: usize, offset: u64, size: u64) -> bool
    requires code { IsLowestCode segments.file.now code }
    ensures { IsTrue result ↔ CrossesEnd segments.entry.file.now offset size }
{
    crosses(&segments.segment_of(code), offset, size)
}

// Whether a range of the file starts before the end of a segment's bytes, and ends after it.
fn crosses(segment: &Segment, offset: u64, size: u64) -> bool
    ensures { IsTrue result
        ↔ ((offset < segment.now.offset + segment.now.filesz)
        × (segment.now.offset + segment.now.filesz < offset + size)) }
{
    let end = segment.offset as u128 + segment.filesz as u128;
    (offset as u128) < end && end < offset as u128 + size as u128
}

fn crossing(segments: SegmentTable, code: usize, index: usize) -> Option<u64>
    requires code { IsLowestCode segments.file.now code }
    requires index { index < e_phnum segments.file.now }
    ensures { IsLowest (IsCrossing segments.entry.file.now index) result }
{
    let segment = segments.segment_of(index);
    let is_wrong = crosses_end(segments, code, segment.offset, segment.filesz);
    place_if(is_wrong, segments.place(index))
}

fn lowest_crossing(segments: SegmentTable, code: usize) -> Option<u64>
    requires code { IsLowestCode segments.file.now code }
    ensures { IsLowest (SomeBelow (e_phnum segments.entry.file.now) (IsCrossing segments.entry.file.now)) result }
{
    lowest_below(segments.count(), |index| crossing(segments, code, index))
}

fn crossing_table(segments: SegmentTable, code: usize) -> Option<u64>
    requires code { IsLowestCode segments.file.now code }
    ensures { IsLowest (IsCrossingTable segments.entry.file.now) result }
{
    let header = Header {
        file: segments.file,
    };
    let offset = header.fields().phoff;
    let size = PHDR_SIZE as u64 * segments.count() as u64;
    place_if(crosses_end(segments, code, offset, size), offset)
}

// The lowest place of a segment, or of the table of program headers, that crosses the end of the executable segment in
// the file. New code may be inserted at that end, which would split such a structure.
fn lowest_crossed(segments: SegmentTable) -> Option<u64>
    ensures { IsLowest (IsCrossed segments.entry.file.now) result }
{
    let code = lowest_code(segments)?;
    lower(
        lowest_crossing(segments, code),
        crossing_table(segments, code),
    )
}
