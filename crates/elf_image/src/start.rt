// The start of a program's break. The page size is that of Linux for RISC-V.
ghost use Rattle.std.specs.Prelude.{◌≡◌, ◌<◌, ◌^◌};
ghost use Rattle.elf_image.specs.memory.Break.{writable_end};

use crate::segment::{PF_W, Segment};

/// The size of a page of memory in bytes.
pub const PAGE_SIZE: u64 = 4096;

/// The greatest size of the memory up to the break: 64 MiB.
pub const BREAK_ROOM: u64 = 0x400_0000;

/// The end of the highest writable segment, or 0 if no segment is writable.
pub fn writable_end(segments: &[Segment]) -> u128
    ensures end { result ≡ writable_end segments.now }
    ensures low { result < 2 ^ 65 }
{
    let mut end = 0;
    for segment in segments {
        if segment.has_memory() && segment.has_flag(PF_W) {
            end = end.max(segment.end());
        }
    }
    end
}
