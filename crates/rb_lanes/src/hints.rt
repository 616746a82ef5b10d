// Searches in ascending lists that start near the expected index.
ghost use Rattle.std.specs.Prelude.{◌↔◌, ◌<◌, ◌≤◌, ℕ, IsTrue, AllPairs, Contains, length, slice_index_or};

use std::alloc::{AllocError, Global};

// The number of members for each step of values, on average.
const MEMBERS: u64 = 8;

// The number of members that a search walks over before it falls back to a binary search.
const WALK: usize = 32;

/// Start indexes for searches in an ascending list. The values are divided into steps of equal size, and each step has
/// the index of the first member in the step or above. Hints only affect speed, since a search compares the members
/// themselves.
#[derive(Drop)]
pub struct Hints {
    // The least value.
    base: u64,
    // A step covers 2^shift values.
    shift: u32,
    firsts: Vec<usize>,
    // The number of members of the list.
    count: usize,
    ghost shift_is_low: { shift < 64 },
}

impl Hints {
    /// The hints for an ascending list. They take about an eighth of the list's memory. Hints for a list that doesn't
    /// ascend are useless, and may take far more memory.
    pub fn new(alloc: Global, members: &[u64]) -> Result<Hints, AllocError> {
        let base = members.first().copied().unwrap_or(0);
        let shift = shift_for(members, base);
        let mut firsts = Vec::new(alloc);
        for index in 0..members.len() {
            let step = (members[index].saturating_sub(base) >> shift) as usize;
            // Steps that were skipped have no member, and also get this index.
            if firsts.len() <= step {
                firsts.resize(step.saturating_add(1), index)?;
            }
        }
        Ok(Hints {
            base,
            shift,
            firsts,
            count: members.len(),
        })
    }

    /// About the number of members below `x`.
    pub fn near(&self, x: u64) -> usize {
        let step = x.saturating_sub(self.base) >> self.shift;
        match self.firsts.get(step as usize) {
            Some(first) => *first,
            None => self.count,
        }
    }
}

// The least shift for which the list has at most about one step for every eight members.
fn shift_for(members: &[u64], base: u64) -> u32
    ensures { result < 64 }
{
    let width = members.last().copied().unwrap_or(0).saturating_sub(base);
    for shift in 0..63 {
        if width >> shift <= members.len() as u64 / MEMBERS {
            return shift;
        }
    }
    63
}

/// Whether `x` is a member of an ascending list. `hints` are those of the list.
pub fn is_member(members: &[u64], hints: &Hints, x: u64) -> bool
    requires { AllPairs (λ a b. a < b) members.now }
    ensures { IsTrue result ↔ Contains members.now x }
{
    let mut near = hints.near(x);
    is_member_from(members, &mut near, x)
}

/// Whether `x` is a member of an ascending list. The search starts at index `near`, and sets `near` to the number of
/// members below `x`, so a sequence of ascending numbers walks along the list. A bad `near` only costs time.
pub fn is_member_from(members: &[u64], near: &mut usize, x: u64) -> bool
    requires { AllPairs (λ a b. a < b) members.now }
    ensures { IsTrue result ↔ Contains members.now x }
{
    let below = count_below(members, *near, x);
    *near = below;
    if below == members.len() {
        return false;
    }
    members[below] == x
}

/// The number of members of an ascending list that are below `x`. `near` is a guess; a bad guess only costs time.
pub fn count_below(members: &[u64], near: usize, x: u64) -> usize
    requires { AllPairs (λ a b. a < b) members.now }
    ensures bound { result ≤ length members.now }
    ensures below { (k : ℕ) (d : ℕ) → k < result → slice_index_or members.now k d < x }
    ensures above { (k : ℕ) (d : ℕ) → result ≤ k → k < length members.now → x ≤ slice_index_or members.now k d }
{
    if are_below(members, near, x) {
        let end = members.len().min(near.saturating_add(WALK));
        for count in near..end {
            if x <= members[count] {
                return count;
            }
        }
        if end == members.len() {
            return end;
        }
    }
    search_below(members, x)
}

/// The number of members of an ascending list that are below `x`, by a binary search.
pub fn search_below(members: &[u64], x: u64) -> usize
    requires { AllPairs (λ a b. a < b) members.now }
    ensures bound { result ≤ length members.now }
    ensures below { (k : ℕ) (d : ℕ) → k < result → slice_index_or members.now k d < x }
    ensures above { (k : ℕ) (d : ℕ) → result ≤ k → k < length members.now → x ≤ slice_index_or members.now k d }
{
    members.partition_point(|member| *member < x)
}

// Whether the first `count` members are below `x`. Only the last of these members is compared.
fn are_below(members: &[u64], count: usize, x: u64) -> bool
    requires { AllPairs (λ a b. a < b) members.now }
    ensures bound { IsTrue result → count ≤ length members.now }
    ensures below { IsTrue result → (k : ℕ) (d : ℕ) → k < count → slice_index_or members.now k d < x }
{
    if count == 0 {
        return true;
    }
    if count > members.len() {
        return false;
    }
    members[count - 1] < x
}
