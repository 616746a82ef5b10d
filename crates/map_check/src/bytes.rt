// Clause `Byte`: whether the output keeps the bytes that the input loads.
ghost use Rattle.std.specs.Prelude.{◌≡◌, ◌↔◌, ◌<◌, ◌≤◌, ◌^◌, ℕ, All, IsTrue, length, slice_index, true};
ghost use Rattle.elf_image.specs.declared.segment.TheConstants.{PF_R, PF_W, PF_X};
ghost use Rattle.elf_image.specs.faults.LowestPlace.{IsLowest, SomeBelow};
ghost use Rattle.elf_image.specs.memory.Image.{end_of, has_flag, has_memory, loads_address};
ghost use Rattle.code_starts.specs.LoadedMemory.{IsLow};
ghost use Rattle.move_law.specs.Rewrite.{Rewrite};
ghost use Rattle.map_check.specs.FirstFalse.{IsKept};
ghost use Rattle.map_check.specs.internal.Cells.{AreApart};
ghost use Rattle.map_check.specs.internal.KeptBytes.{AreBytesOf, AreChangesOf, AreZeros, ChangedAt, IsChangedIn};
ghost use Rattle.map_check.specs.internal.KeptBytes.{IsFirstIn, SameFlags};

use crate::changes::{Changes, may_change};
use crate::output::byte_or_zero;
use code_starts::loaded::bytes_from;
use elf_image::lowest::lower;
use elf_image::segment::{PF_R, PF_W, PF_X};
use elf_image::{Elf, Segment};

// Whether two segments give the same rights.
fn same_flags(from: &Segment, to: &Segment) -> bool
    ensures { IsTrue result ↔ SameFlags from.now to.now }
{
    from.has_flag(PF_R) == to.has_flag(PF_R)
        && from.has_flag(PF_W) == to.has_flag(PF_W)
        && from.has_flag(PF_X) == to.has_flag(PF_X)
}

// Whether the output keeps the byte at `a`, if the input loads one there: with the same rights, and the same value
// unless it may change.
fn is_kept(input: &Elf, output: &Elf, changes: Changes, a: u64) -> bool
    requires { AreApart changes.cells.now }
    ensures { (r : Rewrite) → AreBytesOf r input.now output.now → AreChangesOf r changes.entry →
        IsTrue result ↔ IsKept r a }
{
    let Some(from) = input.segment_at(a) else {
        return true;
    };
    let Some(to) = output.segment_at(a) else {
        return false;
    };
    if !same_flags(from, to) {
        return false;
    }
    let before = byte_or_zero(input, Some(a));
    let after = byte_or_zero(output, Some(a));
    if before == after {
        return true;
    }
    may_change(input, changes, a)
}

// Whether both segments have a zero at `a`, since it is after the bytes that they load from their files.
fn are_zeros(from: &Segment, to: &Segment, a: u64) -> bool
    requires one { IsTrue (loads_address a from.now) }
    requires two { IsTrue (loads_address a to.now) }
    ensures { IsTrue result ↔ AreZeros a from.now to.now }
{
    a - from.vaddr >= from.filesz && a - to.vaddr >= to.filesz
}

// The lower of the ends of two segments that load `a`.
fn first_end(from: &Segment, to: &Segment, a: u64) -> u64
    requires one { IsTrue (loads_address a from.now) }
    requires two { IsTrue (loads_address a to.now) }
    requires inside { a < 2 ^ 63 }
    ensures above { a < result }
    ensures one { result ≤ end_of from.now }
    ensures two { result ≤ end_of to.now }
{
    let left = from.memsz - (a - from.vaddr);
    let other = to.memsz - (a - to.vaddr);
    a.saturating_add(left.min(other))
}

// The length of the longest common prefix of both lists.
fn common_length(left: &[u8], right: &[u8]) -> usize
    ensures within { result ≤ length left.now }
    ensures bound { result ≤ length right.now }
    ensures same { (i : ℕ) → i < result → slice_index left.now i ≡ slice_index right.now i }
{
    let most = left.len().min(right.len());
    for i in 0..most {
        if left[i] != right[i] {
            return i;
        }
    }
    most
}

// An address after `a` such that all bytes before it are kept if the one at `a` is: within both segments, the bytes are
// all zeros that come from no file, or are equal in both files. So huge segments of zeros take one step.
fn kept_up_to(input: &Elf, output: &Elf, a: u64) -> u64
    requires inside { a < 2 ^ 63 }
    ensures above { a < result }
    ensures kept { (r : Rewrite) → AreBytesOf r input.now output.now → IsKept r a → (q : ℕ) → a ≤ q → q < result →
        IsKept r q }
{
    let Some(from) = input.segment_at(a) else {
        return a + 1;
    };
    let Some(to) = output.segment_at(a) else {
        return a + 1;
    };
    let end = first_end(from, to, a);
    if are_zeros(from, to, a) {
        return end;
    }
    let same = common_length(bytes_from(input, a), bytes_from(output, a));
    end.min(a + (same as u64).max(1))
}

// The lowest address from `start` to before `end` whose byte isn't kept.
fn lowest_in(input: &Elf, output: &Elf, changes: Changes, start: u64, end: u64) -> Option<u64>
    requires apart { AreApart changes.cells.now }
    requires inside { end ≤ 2 ^ 63 }
    ensures { (r : Rewrite) → AreBytesOf r input.now output.now → AreChangesOf r changes.entry →
        IsFirstIn (IsKept r) start end result }
{
    let mut a = start;
    while a < end {
        if !is_kept(input, output, changes, a) {
            return Some(a);
        }
        a = kept_up_to(input, output, a);
    }
    None
}

// The lowest address of `segment` whose byte isn't kept.
fn lowest_in_segment(input: &Elf, output: &Elf, changes: Changes, segment: &Segment) -> Option<u64>
    requires apart { AreApart changes.cells.now }
    requires inside { has_memory segment.now ≡ true → end_of segment.now ≤ 2 ^ 63 }
    ensures { (r : Rewrite) → AreBytesOf r input.now output.now → AreChangesOf r changes.entry →
        IsLowest (IsChangedIn r segment.now) result }
{
    if !segment.has_memory() {
        return None;
    }
    let end = segment.end() as u64;
    lowest_in(input, output, changes, segment.vaddr, end)
}

// The lowest address of `segments` whose byte isn't kept.
fn lowest_over(input: &Elf, output: &Elf, changes: Changes, segments: &[Segment]) -> Option<u64>
    requires apart { AreApart changes.cells.now }
    requires inside { All (λ p. has_memory p ≡ true → end_of p ≤ 2 ^ 63) segments.now }
    ensures { (r : Rewrite) → AreBytesOf r input.now output.now → AreChangesOf r changes.entry →
        IsLowest (SomeBelow (length segments.now) (ChangedAt r segments.now)) result }
{
    let mut lowest = None;
    for segment in segments {
        lowest = lower(lowest, lowest_in_segment(input, output, changes, segment));
    }
    lowest
}

/// The lowest address of a byte that the input loads and the output doesn't keep.
pub fn lowest_changed(input: &Elf, output: &Elf, changes: Changes) -> Option<u64>
    requires apart { AreApart changes.cells.now }
    requires low { IsLow input.now }
    ensures { (r : Rewrite) → AreBytesOf r input.now output.now → AreChangesOf r changes.entry →
        IsLowest (λ a. IsKept r a → ⊥) result }
{
    lowest_over(input, output, changes, &input.segments)
}
