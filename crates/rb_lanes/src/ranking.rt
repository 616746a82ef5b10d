// Counts the members of a list that are at most a number.
ghost use Rattle.std.specs.Prelude.{◌≡◌, length};
ghost use Rattle.rb_lanes.specs.Ranks.{rank};

use std::simd::prelude::*;
use std::simd::u64x8;

// The number of members that are compared at once.
const LANES: usize = 8;

/// The number of members that are at most `x`. In an ascending list this is the index of the first member above `x`.
pub fn rank(xs: &[u64], x: u64) -> usize
    ensures { result ≡ rank xs.now x }
{
    let mut count = 0;
    let mut rest = xs;
    while rest.len() >= LANES {
        let (front, back) = rest.split_at(LANES);
        count += rank_of_lanes(front, x) as usize;
        rest = back;
    }
    count + rank_of_rest(rest, x)
}

// The count in a plain loop.
fn rank_of_rest(xs: &[u64], x: u64) -> usize
    ensures { result ≡ rank xs.now x }
{
    xs.iter().filter(|y| **y <= x).count()
}

// The count, with all members compared at once.
fn rank_of_lanes(xs: &[u64], x: u64) -> u32
    requires { length xs.now ≡ LANES }
    ensures { result ≡ rank xs.now x }
{
    let lanes = u64x8::from_slice(xs);
    lanes.simd_le(u64x8::splat(x)).to_bitmask().count_ones()
}
