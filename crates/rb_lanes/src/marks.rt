// Marks the halfwords of code that begin instructions of four bytes or more (ISA manual, volume I, section 1.5).
ghost use Rattle.std.specs.Prelude.{◌≡◌, ℕ, ◌*◌, ◌≤◌, length, slice_index};
ghost use Rattle.rb_lanes.specs.Marks.{ends_in_ones, is_marked, marks_of};

use std::simd::prelude::*;
use std::simd::u16x64;

// The number of marks in a 64-bit number.
const MARKS: usize = 64;

/// Marks the halfwords whose two lowest bits are set. Bit `i % 64` of `out[i / 64]` becomes 1 if both bits are set in
/// `halves[i]`, and all other bits become 0.
pub fn length_marks(halves: &[u16], out: &mut [u64])
    requires { length halves.now ≤ 64 * length out.old }
    ensures { (i : ℕ) → is_marked out.new i ≡ ends_in_ones (slice_index halves.now i) }
{
    let mut rest = halves;
    for marks in out.iter_mut() {
        let (front, back) = rest.split_at(MARKS.min(rest.len()));
        *marks = marks_of_group(front);
        rest = back;
    }
}

// The marks of a group of halfwords. The last group may have fewer than 64.
fn marks_of_group(halves: &[u16]) -> u64
    requires { length halves.now ≤ 64 }
    ensures { result ≡ marks_of halves.now }
{
    if halves.len() == MARKS {
        marks_of_lanes(halves)
    } else {
        marks_of_rest(halves)
    }
}

// The marks in a plain loop, from the last halfword to the first.
#[tactic(auto, using(crate::proofs::Masks::mask_below))]
fn marks_of_rest(halves: &[u16]) -> u64
    requires { length halves.now ≤ 64 }
    ensures { result ≡ marks_of halves.now }
{
    let mut marks = 0;
    let mut i = halves.len();
    while i > 0 {
        i -= 1;
        marks = 2 * marks + u64::from(halves[i] % 4 == 3);
    }
    marks
}

// The marks of 64 halfwords, which are tested at once.
fn marks_of_lanes(halves: &[u16]) -> u64
    requires { length halves.now ≡ MARKS }
    ensures { result ≡ marks_of halves.now }
{
    let ones = u16x64::splat(3);
    (u16x64::from_slice(halves) & ones)
        .simd_eq(ones)
        .to_bitmask()
}
