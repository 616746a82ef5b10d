// Pages of a file's image.
ghost use Rattle.std.specs.Prelude.{◌≡◌, ◌+◌, ◌^◌, ◌≤◌};
ghost use Rattle.std.specs.List.{list_all};
ghost use Rattle.rv_memory.specs.BlankPages.{misses};

use crate::pages::PAGE_SIZE;
use elf_image::Segment;
use elf_image::segment::PT_LOAD;

// Whether none of a segment's file bytes is loaded to the page at address `from`.
fn misses(segment: &Segment, from: u64) -> bool
    requires { from + 4096 ≤ 2 ^ 64 }
    ensures { result ≡ misses from segment.now }
{
    segment.kind != PT_LOAD
        || segment.vaddr as u128 + segment.filesz as u128 <= from as u128
        || from as u128 + PAGE_SIZE as u128 <= segment.vaddr as u128
}

/// Whether no segment loads a byte of the file to the page at address `from`.
pub fn is_blank(segments: &[Segment], from: u64) -> bool
    requires { from + 4096 ≤ 2 ^ 64 }
    ensures { result ≡ list_all (misses from) segments.now }
{
    segments.iter().all(|segment| misses(segment, from))
}
