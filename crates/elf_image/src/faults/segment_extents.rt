// The ranges of addresses or of the file that loaded segments take.
ghost use Rattle.std.specs.Prelude.{◌≡◌, ◌<◌, ◌+◌, ◌==◌, if◌then◌else◌, IfOk, IfSome, IfNone, Some, None};
ghost use Rattle.elf_image.specs.file.Header.{e_phnum};
ghost use Rattle.elf_image.specs.internal.SegmentExtents.{AreExtents, IsExtentOf, IsAddressExtent, IsFileExtent};
ghost use Rattle.elf_image.specs.internal.SegmentExtents.{IsCodeExtent};

use crate::entries::SegmentTable;
use crate::extent::Extent;
use crate::segment::PT_LOAD;
use rb_bytes::fault::NoMemory;
use rb_bytes::lists::push_some;
use std::alloc::Global;

/// A kind of ranges.
#[derive(Clone, Copy)]
pub enum ExtentKind {
    /// Addresses of loaded segments.
    Addresses,
    /// Addresses of executable loaded segments.
    CodeAddresses,
    /// File bytes of loaded segments.
    FileBytes,
}

/// The ranges of a kind, one for each segment that has a range.
pub fn segment_extents(
    alloc: Global,
    segments: SegmentTable,
    kind: ExtentKind,
) -> Result<Vec<Extent>, NoMemory>
    ensures { IfOk result
        (λ extents. AreExtents (IsExtentOf kind segments.entry.file.now)
        (e_phnum segments.entry.file.now) extents.items) }
{
    let mut extents = Vec::new(alloc);
    for index in 0..segments.count() {
        push_some(&mut extents, extent_of(segments, index, kind))?;
    }
    Ok(extents)
}

// The range of a kind for a segment, if it has one.
fn extent_of(segments: SegmentTable, index: usize, kind: ExtentKind) -> Option<Extent>
    requires index { index < e_phnum segments.file.now }
    ensures some { IfSome result (λ s. IsExtentOf kind segments.entry.file.now index s) }
    ensures none { IfNone result ((s : Extent) → IsExtentOf kind segments.entry.file.now index s → ⊥) }
{
    match kind {
        ExtentKind::Addresses => address_extent(segments, index),
        ExtentKind::CodeAddresses => code_extent(segments, index),
        ExtentKind::FileBytes => file_extent(segments, index),
    }
}

// The addresses of a segment, if it is loaded and has any.
fn address_extent(segments: SegmentTable, index: usize) -> Option<Extent>
    requires index { index < e_phnum segments.file.now }
    ensures some { IfSome result (λ s. IsAddressExtent segments.entry.file.now index s) }
    ensures none { IfNone result ((s : Extent) → IsAddressExtent segments.entry.file.now index s → ⊥) }
{
    let segment = segments.segment_of(index);
    if segment.kind != PT_LOAD || segment.memsz == 0 {
        return None;
    }
    Some(extent_from(segment.vaddr, segment.memsz, segments.place(index)))
}

// The addresses of a segment, if it is executable and has any.
fn code_extent(segments: SegmentTable, index: usize) -> Option<Extent>
    requires index { index < e_phnum segments.file.now }
    ensures some { IfSome result (λ s. IsCodeExtent segments.entry.file.now index s) }
    ensures none { IfNone result ((s : Extent) → IsCodeExtent segments.entry.file.now index s → ⊥) }
{
    if segments.segment_of(index).is_code() {
        address_extent(segments, index)
    } else {
        None
    }
}

// The file bytes of a segment, if it is loaded and has any.
fn file_extent(segments: SegmentTable, index: usize) -> Option<Extent>
    requires index { index < e_phnum segments.file.now }
    ensures some { IfSome result (λ s. IsFileExtent segments.entry.file.now index s) }
    ensures none { IfNone result ((s : Extent) → IsFileExtent segments.entry.file.now index s → ⊥) }
{
    let segment = segments.segment_of(index);
    if segment.kind != PT_LOAD || segment.filesz == 0 {
        return None;
    }
    Some(extent_from(segment.offset, segment.filesz, segments.place(index)))
}

// The range of `size` numbers from `start` on.
fn extent_from(start: u64, size: u64, place: u64) -> Extent
    ensures start { result.start ≡ start }
    ensures end { result.end ≡ start + size }
    ensures place { result.place ≡ place }
{
    Extent {
        start,
        end: start as u128 + size as u128,
        place,
    }
}
