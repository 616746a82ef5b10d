// Which entries are marked: those with an exception table that counts from the start of a whole function.
ghost use Rattle.std.specs.Prelude.{◌≡◌, ◌<◌, ◌≤◌, ℕ, length, slice_index_or};
ghost use Rattle.std.specs.List.Sorted.{IsStrictlyIncreasing};
ghost use Rattle.frame_rewrite.specs.FrameLookups.{is_marked_as};

use cfi_rows::frame_table::Fde;

/// Whether an entry is marked, by the cuts of the file, which ascend.
pub(crate) fn is_marked(cuts: &[u64], fde: &Fde) -> bool
    requires { IsStrictlyIncreasing cuts.now }
    ensures { result ≡ is_marked_as cuts.now fde.now }
{
    if fde.table == 0 {
        return false;
    }
    let above = count_up_to(cuts, fde.start);
    if above == 0 || cuts[above - 1] != fde.start {
        return false;
    }
    above == cuts.len() || cuts[above] >= fde.end
}

// How many of ascending numbers are at most an address.
fn count_up_to(numbers: &[u64], address: u64) -> usize
    requires { IsStrictlyIncreasing numbers.now }
    ensures bound { result ≤ length numbers.now }
    ensures below { (k : ℕ) (d : ℕ) → k < result → slice_index_or numbers.now k d ≤ address }
    ensures above { (k : ℕ) (d : ℕ) → result ≤ k → k < length numbers.now → address < slice_index_or numbers.now k d }
{
    numbers.partition_point(|number| *number <= address)
}
