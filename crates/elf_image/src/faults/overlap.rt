// Loaded segments that share an address or a byte of the file.
ghost use Rattle.std.specs.Prelude.{IfOk};
ghost use Rattle.elf_image.specs.file.Header.{e_phnum};
ghost use Rattle.elf_image.specs.faults.SegmentLayout.{SharesAddress, SharesFileByte};
ghost use Rattle.elf_image.specs.faults.LowestPlace.{IsLowest, SomeBelow};

use crate::entries::SegmentTable;
use crate::extent::lowest_shared;
use crate::faults::segment_extents::{ExtentKind, segment_extents};
use rb_bytes::fault::NoMemory;
use std::alloc::Global;

/// The lowest place of a segment that shares an address with another.
pub fn lowest_shared_address(alloc: Global, segments: SegmentTable) -> Result<Option<u64>, NoMemory>
    ensures { IfOk result
        (λ lowest. IsLowest (SomeBelow (e_phnum segments.entry.file.now) (SharesAddress segments.entry.file.now))
        lowest) }
{
    lowest_shared(segment_extents(alloc, segments, ExtentKind::Addresses)?)
}

/// The lowest place of a segment that shares a byte of the file with another.
pub fn lowest_shared_byte(alloc: Global, segments: SegmentTable) -> Result<Option<u64>, NoMemory>
    ensures { IfOk result
        (λ lowest. IsLowest (SomeBelow (e_phnum segments.entry.file.now) (SharesFileByte segments.entry.file.now))
        lowest) }
{
    lowest_shared(segment_extents(alloc, segments, ExtentKind::FileBytes)?)
}
