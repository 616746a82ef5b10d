// Looking up addresses of the input in a plan.
ghost use Rattle.std.specs.Prelude.{◌≡◌, ◌≢◌, ◌<◌, ◌≤◌, ℕ, IfOk, All, AllPairs, length, slice_index, slice_index_or};
ghost use Rattle.branch_fixup.specs.Lookup.{ArePlaces, Finds};

use rb_bytes::fault::NoMemory;
use rb_lanes::count_below;
use std::alloc::Global;

/// For each number below the length of `order` its index in `order`.
pub fn places_in(alloc: Global, order: &[usize]) -> Result<Vec<usize>, NoMemory>
    requires below { All (λ m. m < length order.now) order.now }
    requires differ { AllPairs (λ m n. m ≢ n) order.now }
    ensures length { IfOk result (λ places. length places.items ≡ length order.now) }
    ensures each { IfOk result (λ places. ArePlaces order.now places.items) }
{
    let mut places = vec![in alloc; 0; order.len()]?;
    for k in 0..order.len() {
        places[order[k]] = k;
    }
    Ok(places)
}

/// The block that contains `address`, by its index in the plan, and the offset of `address` in it. `starts` and
/// `places` have the start and the index of each block, in the old order; the search begins at block `near`.
pub fn find(starts: &[u64], places: &[usize], near: usize, address: u64) -> (usize, u64)
    requires ascending { AllPairs (λ a b. a < b) starts.now }
    requires one_each { length places.now ≡ length starts.now }
    ensures { Finds starts.now places.now address result.0 result.1 }
{
    let above = count_up_to(starts, near, address);
    if above == 0 {
        return (0, 0);
    }
    (places[above - 1], address - starts[above - 1])
}

// The number of `starts`, which ascend, that are at most `address`. The search begins at the guess `near`.
fn count_up_to(starts: &[u64], near: usize, address: u64) -> usize
    requires { AllPairs (λ a b. a < b) starts.now }
    ensures bound { result ≤ length starts.now }
    ensures below { (k : ℕ) (d : ℕ) → k < result → slice_index_or starts.now k d ≤ address }
    ensures above { (k : ℕ) (d : ℕ) → result ≤ k → k < length starts.now → address < slice_index_or starts.now k d }
{
    let below = count_below(starts, near, address);
    if below == starts.len() || starts[below] != address {
        return below;
    }
    below + 1
}
