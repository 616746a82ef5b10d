// Finds the first of many ranges that contains an address.
ghost use Rattle.std.specs.Prelude.{◌≡◌, ◌<◌, ◌≤◌, ℕ, IfOk, length, position, slice_index_or};
ghost use Rattle.std.specs.List.Sorted.{IsNonDecreasingBy};
ghost use Rattle.answer_runs.specs.declared.pieces.Piece as spec;
ghost use Rattle.answer_runs.specs.AddressRanges.{holds_address};

use crate::pieces::{Piece, count_up_to, pieces_of};
use crate::range::Range;
use rb_bytes::fault::NoMemory;
use std::alloc::Global;

/// An index of ranges, for the first one that contains an address. Making it takes the time of a sort and up to 64
/// bytes for each range, and a search takes the time of a binary search.
#[derive(Drop)]
pub struct FirstRange {
    pieces: Vec<Piece>,
    ghost rises: { IsNonDecreasingBy (λ p. p.start) pieces.items },
}

// The last address before a piece, in 64 bits; 2^64 - 1 after the last piece.
fn last_before(pieces: &[Piece], i: usize, a: u64) -> u64
    requires rises { IsNonDecreasingBy (λ p. p.start) pieces.now }
    requires above { (k : ℕ) (d : spec.Piece) → i ≤ k → k < length pieces.now →
        a < (slice_index_or pieces.now k d).start }
    ensures later { (x k : ℕ) (d : spec.Piece) → x ≤ result → i ≤ k → k < length pieces.now →
        x < (slice_index_or pieces.now k d).start }
    ensures above { a ≤ result }
{
    match pieces.get(i) {
        Some(piece) => piece.start.saturating_sub(1).min(u64::MAX as u128) as u64,
        None => u64::MAX,
    }
}

impl FirstRange {
    ghost use Rattle.answer_runs.specs.FirstRanges.{first_range};

    /// An index of ranges, which are numbered from 0. They may overlap, and may be empty.
    pub fn new(alloc: Global, ranges: &[Range]) -> Result<FirstRange, NoMemory>
        ensures { IfOk result (λ index. (a : ℕ) → first_range index a ≡ position (holds_address a) ranges.now) }
    {
        let pieces = pieces_of(alloc, ranges, 0)?;
        Ok(FirstRange { pieces })
    }

    /// The number of the first range that contains an address, if there is one, and the last address up to which that
    /// stays so.
    pub fn piece(&self, a: u64) -> (Option<usize>, u64)
        ensures first { (x : ℕ) → a ≤ x → x ≤ result.1 → result.0 ≡ first_range self.now x }
        ensures last { a ≤ result.1 }
    {
        let started = count_up_to(&self.pieces, a as u128);
        let last = last_before(&self.pieces, started, a);
        if started == 0 {
            return (None, last);
        }
        (self.pieces[started - 1].first, last)
    }

    /// The number of the first range that contains an address. None if there is none.
    pub fn find(&self, a: u64) -> Option<usize>
        ensures { result ≡ first_range self.now a }
    {
        self.piece(a).0
    }
}
