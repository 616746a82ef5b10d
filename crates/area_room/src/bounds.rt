// Counting in ascending lists.
ghost use Rattle.std.specs.Prelude.{◌≡◌, nat_le, nat_lt, length, filter, IfOk};
ghost use Rattle.std.specs.List.Sorted.{IsNonDecreasing, IsPermutation};
ghost use Rattle.area_room.specs.EntryNeeds.{bounds_of, is_strictly_between};

use cfi_rows::frame_table::Fde;
use rb_bytes::fault::NoMemory;
use std::alloc::Global;

/// The starts and ends of entries, ascending.
pub(crate) fn ascending_bounds(alloc: Global, entries: &[Fde]) -> Result<Vec<u64>, NoMemory>
    ensures ascending { IfOk result (λ bounds. IsNonDecreasing bounds.items) }
    ensures all { IfOk result (λ bounds. IsPermutation (bounds_of entries.now) bounds.items) }
{
    let mut bounds = Vec::new(alloc);
    for entry in entries {
        bounds.push(entry.start)?;
        bounds.push(entry.end)?;
    }
    bounds.sort_unstable();
    Ok(bounds)
}

/// How many of `numbers`, which ascend, are below `end`.
pub(crate) fn count_below(numbers: &[u64], end: u64) -> usize
    requires { IsNonDecreasing numbers.now }
    ensures { result ≡ length (filter (λ n. nat_lt n end) numbers.now) }
{
    numbers.partition_point(|n| *n < end)
}

// How many of `numbers`, which ascend, are at most `last`.
fn count_up_to(numbers: &[u64], last: u64) -> usize
    requires { IsNonDecreasing numbers.now }
    ensures { result ≡ length (filter (λ n. nat_le n last) numbers.now) }
{
    numbers.partition_point(|n| *n <= last)
}

/// How many of `numbers`, which ascend, are strictly between `low` and `high`.
pub(crate) fn count_between(numbers: &[u64], low: u64, high: u64) -> usize
    requires { IsNonDecreasing numbers.now }
    ensures { result ≡ length (filter (is_strictly_between low high) numbers.now) }
{
    if high <= low {
        return 0;
    }
    count_below(numbers, high).saturating_sub(count_up_to(numbers, low))
}
