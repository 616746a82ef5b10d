// The start of a program's break, and its upper bound.
ghost use Rattle.std.specs.Prelude.{◌≡◌, ◌≤◌, ◌^◌};
ghost use Rattle.elf_image.specs.memory.Break.{page_size, rounded_down, writable_end, break_start, break_bound};

use elf_image::Segment;
use elf_image::start::{BREAK_ROOM, PAGE_SIZE, writable_end};

fn rounded_down(address: u64) -> u64
    ensures { result ≡ rounded_down page_size address }
{
    address / PAGE_SIZE * PAGE_SIZE
}

/// The least break: the end of the highest writable segment, rounded up to a page, or 0 if no segment is writable.
pub fn break_start(segments: &[Segment]) -> u64
    requires { writable_end segments.now ≤ 2 ^ 63 }
    ensures { result ≡ break_start segments.now }
{
    (writable_end(segments) as u64 + (PAGE_SIZE - 1)) / PAGE_SIZE * PAGE_SIZE
}

/// The greatest break: at most `BREAK_ROOM` above the least, and at most the start of the page on which a higher
/// segment starts. It is 0 if no segment is writable.
pub fn break_bound(segments: &[Segment]) -> u64
    requires { writable_end segments.now ≤ 2 ^ 63 }
    ensures { result ≡ break_bound segments.now }
{
    let end = writable_end(segments) as u64;
    if end == 0 {
        return 0;
    }
    let start = break_start(segments);
    let mut bound = start + BREAK_ROOM;
    for segment in segments {
        if segment.has_memory() && end <= segment.vaddr {
            bound = bound.min(rounded_down(segment.vaddr));
        }
    }
    start.max(bound)
}
