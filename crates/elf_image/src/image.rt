// The memory that a file describes.
ghost use Rattle.std.specs.Prelude.{ℕ, ◌≡◌, ◌≤◌, ◌<◌, length, slice_index_or, All, IsTrue, IfOk, IfSome, OnOk, filter};
ghost use Rattle.std.specs.List.Sorted.{IsNonDecreasingBy, IsPermutation};
ghost use Rattle.std.specs.Option.{option_copied};
ghost use Rattle.elf_image.specs.memory.Image.{byte_of, has_memory, loads_address, segment_of, LoadOnce};

use crate::segment::Segment;
use rb_bytes::fault::NoMemory;
use std::alloc::Global;

// The segments with memory, sorted by address.
pub(crate) fn segments_by_address(
    alloc: Global,
    segments: &[Segment],
) -> Result<Vec<Segment>, NoMemory>
    requires { LoadOnce segments.now }
    ensures rising { IfOk result (λ loads. IsNonDecreasingBy (λ p. p.vaddr) loads.items) }
    ensures loaded { IfOk result (λ loads. All (λ p. IsTrue (has_memory p)) loads.items) }
    ensures once { IfOk result (λ loads. LoadOnce loads.items) }
    ensures same { IfOk result (λ loads. (a : ℕ) → segment_of loads.items a ≡ segment_of segments.now a) }
{
    let mut loads = segments_with_memory(alloc, segments)?;
    sort_by_address(&mut loads)?;
    Ok(loads)
}

fn segments_with_memory(alloc: Global, segments: &[Segment]) -> Result<Vec<Segment>, NoMemory>
    ensures { IfOk result (λ v. v.items ≡ filter has_memory segments.now) }
{
    let loads = segments
        .iter()
        .copied()
        .filter(|p| p.has_memory())
        .collect(alloc)?;
    Ok(loads)
}

fn sort_by_address(segments: &mut Vec<Segment>) -> Result<(), NoMemory>
    ensures permutation { IsPermutation segments.old.items segments.new.items }
    ensures rising { OnOk result (IsNonDecreasingBy (λ p. p.vaddr) segments.new.items) }
{
    segments.sort_by_key(|p| p.vaddr)?;
    Ok(())
}

/// The segment that loads an address, among segments with memory sorted by address.
pub(crate) fn segment_among(loads: &[Segment], address: u64) -> Option<&Segment>
    requires rising { IsNonDecreasingBy (λ p. p.vaddr) loads.now }
    requires loaded { All (λ p. IsTrue (has_memory p)) loads.now }
    requires once { LoadOnce loads.now }
    ensures loads { IfSome result (λ p. IsTrue (loads_address address p.now)) }
    ensures first { option_copied result ≡ segment_of loads.now address }
{
    let above = count_up_to(loads, address);
    if above == 0 {
        return None;
    }
    let segment = &loads[above - 1];
    if segment.loads(address) {
        Some(segment)
    } else {
        None
    }
}

// The number of segments that start at or below an address, among segments sorted by address.
fn count_up_to(segments: &[Segment], address: u64) -> usize
    requires { IsNonDecreasingBy (λ p. p.vaddr) segments.now }
    ensures bound { result ≤ length segments.now }
    ensures below { (k : ℕ) (d : Segment) → k < result → (slice_index_or segments.now k d).vaddr ≤ address }
    ensures above { (k : ℕ) (d : Segment) → result ≤ k → k < length segments.now →
        address < (slice_index_or segments.now k d).vaddr }
{
    segments.partition_point(|p| p.vaddr <= address)
}

/// The byte of a segment at one of its addresses.
pub(crate) fn segment_byte(file: &[u8], address: u64, segment: &Segment) -> u8
    requires { segment.now.vaddr ≤ address }
    ensures { result ≡ byte_of file.now address segment.now }
{
    let place = address - segment.vaddr;
    if place >= segment.filesz {
        return 0;
    }
    match segment.offset.checked_add(place) {
        Some(offset) => file.get(offset as usize).copied().unwrap_or(0),
        None => 0,
    }
}
