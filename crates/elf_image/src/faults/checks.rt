// Faults of a file that a single field or header shows.
ghost use Rattle.std.specs.Prelude.{◌≡◌, ◌≤◌, ◌<◌, ℕ, IsTrue, IsSomeAnd, if◌then◌else◌, Some, None, List, length};
ghost use Rattle.std.specs.Prelude.{slice_get};
ghost use Rattle.rb_bytes.specs.declared.fault.FaultKind.TheVariants as fault;
ghost use Rattle.elf_image.specs.file.Header.{e_phnum, e_shnum};
ghost use Rattle.elf_image.specs.declared.segment.TheConstants.{ADDRESS_END};
ghost use Rattle.elf_image.specs.faults.SegmentLayout.{IsWritableCode, IsHigh};
ghost use Rattle.elf_image.specs.faults.LowestPlace.{IsLowest, SomeBelow};
ghost use Rattle.elf_image.specs.faults.FileFaults.{HasFault, HasOtherType, IsDynamic, is_compressed};
ghost use Rattle.elf_image.specs.file.ParsedFile.{AreSections};
ghost use Rattle.elf_image.specs.memory.Image.{loads_address};

use crate::entries::SegmentTable;
use crate::header::{E_FLAGS, E_TYPE, EF_RISCV_RVC, ET_EXEC, Header};
use crate::lowest::{lower, lowest_below, place_if};
use crate::section::Section;
use crate::segment::{ADDRESS_END, PF_W, PT_DYNAMIC, PT_INTERP, Segment};

/// The place of unknown flags.
pub fn lowest_other_flags(header: Header) -> Option<u64>
    ensures { IsLowest (HasFault header.entry.file.now fault.Flags) result }
{
    place_if(header.fields().flags > EF_RISCV_RVC, E_FLAGS as u64)
}

fn lowest_other_type(header: Header) -> Option<u64>
    ensures { IsLowest (HasOtherType header.entry.file.now) result }
{
    place_if(header.fields().kind != ET_EXEC, E_TYPE as u64)
}

fn dynamic_segment(segments: SegmentTable, index: usize) -> Option<u64>
    requires index { index < e_phnum segments.file.now }
    ensures { IsLowest (IsDynamic segments.entry.file.now index) result }
{
    let segment = segments.segment_of(index);
    let is_wrong = segment.kind == PT_DYNAMIC || segment.kind == PT_INTERP;
    place_if(is_wrong, segments.place(index))
}

fn lowest_dynamic_segment(segments: SegmentTable) -> Option<u64>
    ensures { IsLowest (SomeBelow (e_phnum segments.entry.file.now) (IsDynamic segments.entry.file.now)) result }
{
    lowest_below(segments.count(), |index| dynamic_segment(segments, index))
}

/// The lowest place that shows that the file isn't a static executable.
pub fn lowest_not_static(segments: SegmentTable) -> Option<u64>
    ensures { IsLowest (HasFault segments.entry.file.now fault.NotStatic) result }
{
    lower(
        lowest_other_type(Header {
            file: segments.file,
        }),
        lowest_dynamic_segment(segments),
    )
}

fn writable_code(segments: SegmentTable, index: usize) -> Option<u64>
    requires index { index < e_phnum segments.file.now }
    ensures { IsLowest (IsWritableCode segments.entry.file.now index) result }
{
    let segment = segments.segment_of(index);
    let is_wrong = segment.is_code() && segment.has_flag(PF_W);
    place_if(is_wrong, segments.place(index))
}

/// The lowest place of a writable executable segment.
pub fn lowest_writable_code(segments: SegmentTable) -> Option<u64>
    ensures { IsLowest (HasFault segments.entry.file.now fault.WritableCode) result }
{
    lowest_below(segments.count(), |index| writable_code(segments, index))
}

// The first address of a segment that is at or above the limit.
fn first_high(segment: &Segment) -> Option<u64>
    ensures { IsLowest (λ a. IsTrue (loads_address a segment.now) × (ADDRESS_END ≤ a)) result }
{
    let first = segment.vaddr.max(ADDRESS_END);
    place_if(segment.loads(first), first)
}

fn high_address(segments: SegmentTable, index: usize) -> Option<u64>
    requires index { index < e_phnum segments.file.now }
    ensures { IsLowest (IsHigh segments.entry.file.now index) result }
{
    first_high(&segments.segment_of(index))
}

/// The first loaded address that is at or above [`ADDRESS_END`].
pub fn lowest_high_address(segments: SegmentTable) -> Option<u64>
    ensures { IsLowest (HasFault segments.entry.file.now fault.HighAddress) result }
{
    lowest_below(segments.count(), |index| high_address(segments, index))
}

// The index of a section, if it is compressed.
fn compressed_section(sections: &[Section], index: usize) -> Option<u64>
    requires index { index < length sections.now }
    ensures { IsSomeAnd (slice_get sections.now index)
        (λ s. result ≡ (if is_compressed s.flags s.name.now then Some index else None)) }
{
    place_if(sections[index].is_compressed(), index as u64)
}

/// The index of the first compressed section.
pub fn lowest_compressed(sections: &[Section]) -> Option<u64>
    ensures { (file : List ℕ) → AreSections file (e_shnum file) sections.now →
        IsLowest (HasFault file fault.CompressedSection) result }
{
    lowest_below(sections.len(), |index| compressed_section(sections, index))
}
