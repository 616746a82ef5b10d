// The executable segment.
ghost use Rattle.std.specs.Prelude.{◌≡◌, ◌&&◌, ◌||◌, ℕ, List, nat_lt};
ghost use Rattle.std.specs.List.{list_any};
ghost use Rattle.elf_image.specs.declared.elf.Elf.{Elf};
ghost use Rattle.elf_image.specs.declared.segment.Segment.{Segment};
ghost use Rattle.elf_image.specs.memory.CodeSegment.{executable_end, executable_segment};
ghost use Rattle.elf_image.specs.memory.HiddenFields.{is_executable_segment};
ghost use Rattle.elf_image.specs.faults.SegmentLayout.{is_code_segment};
ghost use Rattle.elf_image.specs.internal.LowestAddresses.{is_above};

use crate::segment::Segment;

// The lowest address of an executable segment.
fn lowest_address(segments: &[Segment]) -> Option<u64>
    ensures { (a : ℕ) → list_any (λ q. is_code_segment q && nat_lt q.vaddr a) segments.now ≡ is_above result a }
{
    let mut lowest: Option<u64> = None;
    for q in segments {
        if q.is_code() {
            lowest = Some(lower(lowest, q.vaddr));
        }
    }
    lowest
}

fn lower(lowest: Option<u64>, address: u64) -> u64
    ensures { (a : ℕ) → nat_lt result a ≡ (is_above lowest a || nat_lt address a) }
{
    match lowest {
        Some(other) => other.min(address),
        None => address,
    }
}

fn is_above(lowest: Option<u64>, address: u64) -> bool
    ensures { result ≡ is_above lowest address }
{
    match lowest {
        Some(other) => other < address,
        None => false,
    }
}

/// The index and the program header of the executable segment at the lowest address. If several have this address, the
/// first in the table.
pub fn executable_segment(segments: &[Segment]) -> Option<(usize, Segment)>
    ensures { result ≡ executable_segment segments.now }
{
    let lowest = lowest_address(segments);
    for i in 0..segments.len() {
        let p = &segments[i];
        if p.is_code() && !is_above(lowest, p.vaddr) {
            return Some((i, *p));
        }
    }
    None
}

/// The file offset at which the bytes of the executable segment end, or 0 if there is none. `executable` is the result
/// of `executable_segment`.
pub fn executable_end(executable: Option<(usize, Segment)>) -> u128
    ensures { (segments : List Segment) → executable ≡ executable_segment segments → result ≡ executable_end segments }
{
    match executable {
        Some((_, p)) => p.offset as u128 + p.filesz as u128,
        None => 0,
    }
}

/// Whether `index` is the index of the executable segment. `executable` is the result of `executable_segment`.
pub fn is_executable_segment(executable: Option<(usize, Segment)>, index: usize) -> bool
    ensures { (elf : Elf) → executable ≡ executable_segment elf.segments.items →
        result ≡ is_executable_segment elf index }
{
    match executable {
        Some((at, _)) => at == index,
        None => false,
    }
}
