// Bounds: the addresses at which ranges begin or end.
ghost use Rattle.std.specs.Prelude.{◌≡◌, ◌<◌, ◌≤◌, ◌++◌, ◌∷◌, [], ℕ, All, IfOk, IfSome, OnOk, IsTrue};
ghost use Rattle.std.specs.Prelude.{length, nat_le, slice_index_or};
ghost use Rattle.std.specs.List.Sorted.{IsNonDecreasing, IsPermutation};
ghost use Rattle.cover_lists.specs.Bounds.{bounds_in};
ghost use Rattle.cover_lists.specs.KeptLists.{list_bounds};

use crate::cover_tree::Cover;
use crate::kept_list::KeptList;
use rb_bytes::fault::NoMemory;
use std::alloc::Global;

fn put_bounds(bounds: &mut Vec<u128>, cover: Cover) -> Result<(), NoMemory>
    ensures { OnOk result (bounds.new.items ≡ bounds.old.items ++ (cover.low ∷ cover.high ∷ [])) }
{
    bounds.push(cover.low)?;
    bounds.push(cover.high)?;
    Ok(())
}

fn all_bounds(alloc: Global, covers: &[Cover]) -> Result<Vec<u128>, NoMemory>
    ensures { IfOk result (λ bs. bs.items ≡ bounds_in covers.now) }
{
    let mut bounds = Vec::new(alloc);
    for cover in covers {
        put_bounds(&mut bounds, *cover)?;
    }
    Ok(bounds)
}

/// The first addresses and the ends of ranges, ascending.
pub fn bounds_of(alloc: Global, covers: &[Cover]) -> Result<Vec<u128>, NoMemory>
    ensures rising { IfOk result (λ bs. IsNonDecreasing bs.items) }
    ensures all { IfOk result (λ bs. IsPermutation (bounds_in covers.now) bs.items) }
{
    let mut bounds = all_bounds(alloc, covers)?;
    bounds.sort_unstable();
    Ok(bounds)
}

// Appends the bounds of location lists.
fn put_list_bounds(bounds: &mut Vec<u128>, lists: &[KeptList]) -> Result<(), NoMemory>
    ensures { OnOk result (bounds.new.items ≡ bounds.old.items ++ list_bounds lists.now) }
{
    for list in lists {
        list.tree.put_bounds(bounds)?;
    }
    Ok(())
}

/// The first addresses and the ends of the ranges in location lists, ascending.
pub fn place_bounds(alloc: Global, lists: &[KeptList]) -> Result<Vec<u128>, NoMemory>
    ensures rising { IfOk result (λ bs. IsNonDecreasing bs.items) }
    ensures all { IfOk result (λ bs. IsPermutation (list_bounds lists.now) bs.items) }
{
    let mut bounds = Vec::new(alloc);
    put_list_bounds(&mut bounds, lists)?;
    bounds.sort_unstable();
    Ok(bounds)
}

/// The number of the ascending bounds that are at most `a`.
pub fn count_up_to(bounds: &[u128], a: u64) -> usize
    requires { IsNonDecreasing bounds.now }
    ensures below { (k d : ℕ) → k < result → slice_index_or bounds.now k d ≤ a }
    ensures above { (k d : ℕ) → result ≤ k → k < length bounds.now → a < slice_index_or bounds.now k d }
{
    bounds.partition_point(|bound| *bound <= a as u128)
}

// The number of bounds after a guess that are tested before all are searched.
const NEARBY: usize = 8;

/// The number of the ascending bounds that are at most `a`, with `near` as a guess (galloping search). No search is
/// needed if the result is the guess, or a few more. Any guess gives the right result.
pub fn count_near(bounds: &[u128], near: usize, a: u64) -> usize
    requires { IsNonDecreasing bounds.now }
    ensures below { (k d : ℕ) → k < result → slice_index_or bounds.now k d ≤ a }
    ensures above { (k d : ℕ) → result ≤ k → k < length bounds.now → a < slice_index_or bounds.now k d }
{
    match count_beside(bounds, near, a) {
        Some(count) => count,
        None => count_up_to(bounds, a),
    }
}

// The number of bounds that are at most `a`, if it is `near` or a few more.
fn count_beside(bounds: &[u128], near: usize, a: u64) -> Option<usize>
    requires { IsNonDecreasing bounds.now }
    ensures below { IfSome result (λ n. (k d : ℕ) → k < n → slice_index_or bounds.now k d ≤ a) }
    ensures above { IfSome result (λ n. (k d : ℕ) → n ≤ k → k < length bounds.now →
        a < slice_index_or bounds.now k d) }
{
    if !are_up_to(bounds, near, a) {
        return None;
    }
    let end = near.saturating_add(NEARBY).min(bounds.len());
    for k in near..end {
        if bounds[k] > a as u128 {
            return Some(k);
        }
    }
    if end == bounds.len() { Some(end) } else { None }
}

// Whether `count` bounds or more are at most `a`.
fn are_up_to(bounds: &[u128], count: usize, a: u64) -> bool
    requires { IsNonDecreasing bounds.now }
    ensures { IsTrue result → (k d : ℕ) → k < count → slice_index_or bounds.now k d ≤ a }
{
    if count == 0 {
        return true;
    }
    if bounds.len() < count {
        return false;
    }
    bounds[count - 1] <= a as u128
}
