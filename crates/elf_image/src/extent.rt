// Ranges of numbers, and overlaps among them.
ghost use Rattle.std.specs.Prelude.{◌≡◌, ◌≤◌, ◌<◌, ◌↔◌, ◌+◌, ℕ, IsTrue, IfOk, OnOk, All, length, slice_index_or};
ghost use Rattle.std.specs.List.Sorted.{IsNonDecreasingBy, IsPermutation};
ghost use Rattle.elf_image.specs.faults.LowestPlace.{IsLowest};
ghost use Rattle.elf_image.specs.internal.Extents.{HavePlaces, IsInOneExtent, IsReach, MeetsAnother, MeetsNext};
ghost use Rattle.elf_image.specs.internal.Extents.{SharesAnother};

use crate::lowest::{lower, place_if};
use rb_bytes::fault::NoMemory;
use std::alloc::Global;

/// The numbers from `start` to before `end`, and the place that is reported if the range is at fault.
#[derive(Clone, Copy)]
pub struct Extent {
    pub start: u64,
    pub end: u128,
    pub place: u64,
}

/// The lowest place of a range that overlaps another one.
pub fn lowest_shared(mut extents: Vec<Extent>) -> Result<Option<u64>, NoMemory>
    requires places { HavePlaces extents.items }
    requires not_empty { All (λ s. s.start < s.end) extents.items }
    ensures { IfOk result (λ lowest. IsLowest (SharesAnother extents.items) lowest) }
{
    sort_by_start(&mut extents)?;
    Ok(lowest_shared_sorted(&extents))
}

/// Sorts ranges by start.
pub fn sort_by_start(extents: &mut Vec<Extent>) -> Result<(), NoMemory>
    ensures permutation { IsPermutation extents.old.items extents.new.items }
    ensures rising { OnOk result (IsNonDecreasingBy (λ s. s.start) extents.new.items) }
{
    extents.sort_by_key(|s| s.start)?;
    Ok(())
}

fn lowest_shared_sorted(extents: &[Extent]) -> Option<u64>
    requires rising { IsNonDecreasingBy (λ s. s.start) extents.now }
    requires places { HavePlaces extents.now }
    requires not_empty { All (λ s. s.start < s.end) extents.now }
    ensures { IsLowest (SharesAnother extents.now) result }
{
    let mut lowest = None;
    let mut reach = 0;
    for (index, extent) in extents.iter().enumerate() {
        lowest = lower(
            lowest,
            place_if(meets_another(extents, index, reach), extent.place),
        );
        reach = reach.max(extent.end);
    }
    lowest
}

// Whether the range with an index overlaps another, if `reach` is the greatest end of the ranges before it. Of the
// ranges after it, the next one starts first, so only that one is compared.
fn meets_another(extents: &[Extent], index: usize, reach: u128) -> bool
    requires rising { IsNonDecreasingBy (λ s. s.start) extents.now }
    requires not_empty { All (λ s. s.start < s.end) extents.now }
    requires reach { IsReach extents.now index reach }
    requires index { index < length extents.now }
    ensures { IsTrue result ↔ MeetsAnother extents.now index }
{
    (extents[index].start as u128) < reach || meets_next(extents, index)
}

// Whether the range with an index overlaps the next one.
fn meets_next(extents: &[Extent], index: usize) -> bool
    requires index { index < length extents.now }
    ensures { IsTrue result ↔ MeetsNext extents.now index }
{
    index + 1 < extents.len() && (extents[index + 1].start as u128) < extents[index].end
}

/// The ranges sorted by start, each extended to the greatest end of the ranges up to it. Then a single range, the last
/// that starts at or below a number, says whether some range contains all numbers from there to an end.
pub fn reaches_of(alloc: Global, extents: &[Extent]) -> Result<Vec<Extent>, NoMemory>
    requires { IsNonDecreasingBy (λ s. s.start) extents.now }
    ensures rising { IfOk result (λ reaches. IsNonDecreasingBy (λ s. s.start) reaches.items) }
    ensures growing { IfOk result (λ reaches. IsNonDecreasingBy (λ s. s.end) reaches.items) }
    ensures covered { IfOk result
        (λ reaches. (a e : ℕ) → a < e → IsInOneExtent reaches.items a e ↔ IsInOneExtent extents.now a e) }
{
    let mut reaches = Vec::new(alloc);
    let mut reach = 0;
    for extent in extents {
        reach = reach.max(extent.end);
        reaches.push(Extent {
            start: extent.start,
            end: reach,
            place: extent.place,
        })?;
    }
    Ok(reaches)
}

/// The number of ranges that start at or below a number.
pub fn count_from(extents: &[Extent], start: u64) -> usize
    requires { IsNonDecreasingBy (λ s. s.start) extents.now }
    ensures bound { result ≤ length extents.now }
    ensures below { (k : ℕ) (d : Extent) → k < result → (slice_index_or extents.now k d).start ≤ start }
    ensures above { (k : ℕ) (d : Extent) → result ≤ k → k < length extents.now →
        start < (slice_index_or extents.now k d).start }
{
    extents.partition_point(|s| s.start <= start)
}

/// Whether a single range contains all numbers from `start` to before `end`. `extents` is the result of `reaches_of`.
pub fn is_covered(extents: &[Extent], start: u64, end: u128) -> bool
    requires rising { IsNonDecreasingBy (λ s. s.start) extents.now }
    requires growing { IsNonDecreasingBy (λ s. s.end) extents.now }
    ensures { IsTrue result ↔ IsInOneExtent extents.now start end }
{
    let below = count_from(extents, start);
    below > 0 && end <= extents[below - 1].end
}
