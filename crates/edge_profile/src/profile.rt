// A profile that was read: counts of pairs of instructions.
ghost use Rattle.std.specs.Prelude.{◌≡◌, ◌<◌, ◌^◌, ℕ, All, IfSome, IsTrue, if◌then◌else◌, slice_index_or, true};
ghost use Rattle.edge_profile.specs.PairCounts.{Counted, count_among, is_pair, total_count};
ghost use Rattle.edge_profile.specs.Pairs.{IsAscending, IsCountBelow, is_before};

// The number of pairs after a guess that are looked at before a binary search.
const NEARBY: usize = 16;

/// How often control went from one instruction to another, by the two addresses.
#[derive(Drop)]
pub struct Profile {
    pub(crate) pairs: Vec<(u64, u64, u128)>,
    pub(crate) ignored: u64,
    ghost positive: { All (λ p. 0 < p.2) pairs.items },
    ghost ordered: { IsAscending pairs.items },
    pub ghost few: { total_count pairs.items < 2 ^ 100 },
}

impl Profile {
    ghost use Rattle.std.specs.Prelude.{◌≡◌, ◌<◌, ◌^◌};
    ghost use Rattle.edge_profile.specs.PairCounts.{ArePairs, total_count};
    ghost use Rattle.edge_profile.specs.Profile.{profile_counts, pairs_of, ignored_of};

    /// How often control went from the instruction at `from` to the one at `to`.
    pub fn count(&self, from: u64, to: u64) -> u128
        ensures { result ≡ profile_counts self.now from to }
    {
        count_in(&self.pairs, from, to)
    }

    /// The same as `count`, with a guess: `near` is about the number of pairs before the one that is asked for, and is
    /// set to this number. So pairs that are asked for in order are each found near the one before.
    pub fn count_near(&self, near: &mut usize, from: u64, to: u64) -> u128
        ensures { result ≡ profile_counts self.now from to }
    {
        let below = count_near(&self.pairs, *near, from, to);
        *near = below;
        count_at(&self.pairs, below, from, to)
    }

    /// The pairs with positive counts, and their counts, in order of the first and then of the second address.
    pub fn pairs(&self) -> &[(u64, u64, u128)]
        ensures value { result.now ≡ pairs_of self.now }
        ensures exact { ArePairs (profile_counts self.now) result.now }
        ensures few { total_count result.now < 2 ^ 100 }
    {
        self.pairs.as_slice()
    }

    /// The number of lines of the profile's text that were ignored.
    pub fn ignored(&self) -> u64
        ensures { result ≡ ignored_of self.now }
    {
        self.ignored
    }
}

// The count of the pair of `from` and `to` among `pairs`, which are in order; 0 if it isn't there.
fn count_in(pairs: &[(u64, u64, u128)], from: u64, to: u64) -> u128
    requires { IsAscending pairs.now }
    ensures { result ≡ count_among from to pairs.now }
{
    let below = count_below(pairs, from, to);
    count_at(pairs, below, from, to)
}

// The count of the pair of `from` and `to` among `pairs`, of which `below` come before it; 0 if it isn't there.
fn count_at(pairs: &[(u64, u64, u128)], below: usize, from: u64, to: u64) -> u128
    requires ascending { IsAscending pairs.now }
    requires below { IsCountBelow pairs.now from to below }
    ensures { result ≡ count_among from to pairs.now }
{
    if below == pairs.len() {
        return 0;
    }
    count_if_of(&pairs[below], from, to)
}

// The count of `pair`, if it is the pair of `from` and `to`, otherwise 0.
fn count_if_of(pair: &(u64, u64, u128), from: u64, to: u64) -> u128
    ensures { result ≡ (if is_pair from to pair.now then pair.now.2 else 0) }
{
    if pair.0 == from && pair.1 == to {
        pair.2
    } else {
        0
    }
}

// The number of `pairs` before the pair of `from` and `to`, by binary search.
fn count_below(pairs: &[(u64, u64, u128)], from: u64, to: u64) -> usize
    requires { IsAscending pairs.now }
    ensures { IsCountBelow pairs.now from to result }
{
    pairs.partition_point(|p| is_before(p, from, to))
}

// The number of `pairs` before the pair of `from` and `to`, by a search near the guess `near` first.
fn count_near(pairs: &[(u64, u64, u128)], near: usize, from: u64, to: u64) -> usize
    requires { IsAscending pairs.now }
    ensures { IsCountBelow pairs.now from to result }
{
    match count_beside(pairs, near, from, to) {
        Some(count) => count,
        None => count_below(pairs, from, to),
    }
}

// The number of `pairs` before the pair of `from` and `to`, if it is `near` or a few more, otherwise `None`.
fn count_beside(pairs: &[(u64, u64, u128)], near: usize, from: u64, to: u64) -> Option<usize>
    requires { IsAscending pairs.now }
    ensures { IfSome result (IsCountBelow pairs.now from to) }
{
    if !are_before(pairs, near, from, to) {
        return None;
    }
    let end = near.saturating_add(NEARBY).min(pairs.len());
    for k in near..end {
        if !is_before(&pairs[k], from, to) {
            return Some(k);
        }
    }
    None
}

// Whether there are at least `count` pairs, and the first `count` all come before the pair of `from` and `to`. The
// pairs are in order, so only the last of these is looked at.
fn are_before(pairs: &[(u64, u64, u128)], count: usize, from: u64, to: u64) -> bool
    requires { IsAscending pairs.now }
    ensures { IsTrue result → (k : ℕ) (d : Counted) → k < count →
        is_before (slice_index_or pairs.now k d) (from, to, 0) ≡ true }
{
    if count == 0 {
        return true;
    }
    if pairs.len() < count {
        return false;
    }
    is_before(&pairs[count - 1], from, to)
}

fn is_before(pair: &(u64, u64, u128), from: u64, to: u64) -> bool
    ensures { result ≡ is_before pair.now (from, to, 0) }
{
    pair.0 < from || (pair.0 == from && pair.1 < to)
}
