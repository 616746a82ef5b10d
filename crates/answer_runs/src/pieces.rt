// The addresses divided into pieces: the first range that contains an address is the same for all addresses of a piece.
ghost use Rattle.std.specs.Prelude.{◌≡◌, ◌<◌, ◌≤◌, ◌+◌, ◌^◌, ◌⊎◌, ◌∷◌, [], ℕ, None, IfOk, IsTrue, IsFalse, length};
ghost use Rattle.std.specs.Prelude.{slice_index_or};
ghost use Rattle.std.specs.List.{position_from};
ghost use Rattle.std.specs.List.Sorted.{IsNonDecreasingBy};
ghost use Rattle.std.specs.Option.{option_or};
ghost use Rattle.answer_runs.specs.declared.pieces.Piece.{Piece};
ghost use Rattle.answer_runs.specs.AddressRanges.{holds_address};
ghost use Rattle.answer_runs.specs.Pieces.{under, IsNext};

use crate::range::Range;
use rb_bytes::fault::NoMemory;
use std::alloc::Global;

// The addresses from `start` up to the next piece, and the number of the first range that contains them, if one does.
// Starts have 128 bits, since a range may end at 2^64 or above.
#[derive(Clone, Copy)]
pub(crate) struct Piece {
    pub(crate) start: u128,
    pub(crate) first: Option<usize>,
}

// The pieces of ranges that are numbered from `number` on, by merging the pieces of two halves.
pub(crate) fn pieces_of(
    alloc: Global,
    ranges: &[Range],
    number: usize,
) -> Result<Vec<Piece>, NoMemory>
    requires { number + length ranges.now < 2 ^ 64 }
    ensures found { IfOk result (λ pieces. (a : ℕ) → under None pieces.items a
        ≡ position_from (holds_address a) number ranges.now) }
    ensures rises { IfOk result (λ pieces. IsNonDecreasingBy (λ p. p.start) pieces.items) }
{
    if ranges.is_empty() {
        return Ok(Vec::new(alloc));
    }
    if ranges.len() == 1 {
        return pieces_of_one(alloc, ranges[0], number);
    }
    let (front, back) = ranges.split_at(ranges.len() / 2);
    let front_pieces = pieces_of(alloc, front, number)?;
    let back_pieces = pieces_of(alloc, back, number + front.len())?;
    merged(alloc, &front_pieces, &back_pieces)
}

fn pieces_of_one(alloc: Global, range: Range, number: usize) -> Result<Vec<Piece>, NoMemory>
    ensures found { IfOk result (λ pieces. (a : ℕ) → under None pieces.items a
        ≡ position_from (holds_address a) number (range ∷ [])) }
    ensures rises { IfOk result (λ pieces. IsNonDecreasingBy (λ p. p.start) pieces.items) }
{
    let mut pieces = Vec::new(alloc);
    let low = range.low as u128;
    if range.high <= low {
        return Ok(pieces);
    }
    pieces.push(Piece {
        start: low,
        first: Some(number),
    })?;
    pieces.push(Piece {
        start: range.high,
        first: None,
    })?;
    Ok(pieces)
}

// Merges the pieces of some ranges with the pieces of the ranges after them. If ranges of both contain an address, the
// first one is in `front`. Each piece of either list gives one piece of the result.
fn merged(alloc: Global, front: &[Piece], back: &[Piece]) -> Result<Vec<Piece>, NoMemory>
    requires front { IsNonDecreasingBy (λ p. p.start) front.now }
    requires back { IsNonDecreasingBy (λ p. p.start) back.now }
    ensures found { IfOk result (λ pieces. (a : ℕ) → under None pieces.items a
        ≡ option_or (under None front.now a) (under None back.now a)) }
    ensures rises { IfOk result (λ pieces. IsNonDecreasingBy (λ p. p.start) pieces.items) }
{
    let mut pieces = Vec::new(alloc);
    let mut start = 0;
    let mut in_front = None;
    let mut in_back = None;
    let mut i = 0;
    let mut j = 0;
    while i < front.len() || j < back.len() {
        if is_front_next(front, i, back, j) {
            start = front[i].start;
            in_front = front[i].first;
            i += 1;
        } else {
            start = back[j].start;
            in_back = back[j].first;
            j += 1;
        }
        pieces.push(Piece {
            start,
            first: in_front.or(in_back),
        })?;
    }
    Ok(pieces)
}

// Whether `front[i]` is next in the merge, and not `back[j]`: it doesn't start later, or `back` has no more pieces.
fn is_front_next(front: &[Piece], i: usize, back: &[Piece], j: usize) -> bool
    requires { (i < length front.now) ⊎ (j < length back.now) }
    ensures front { IsTrue result → IsNext front.now i back.now j }
    ensures back { IsFalse result → IsNext back.now j front.now i }
{
    match front.get(i) {
        Some(x) => match back.get(j) {
            Some(y) => x.start <= y.start,
            None => true,
        },
        None => false,
    }
}

// The number of pieces that start at or below an address.
pub(crate) fn count_up_to(pieces: &[Piece], a: u128) -> usize
    requires { IsNonDecreasingBy (λ p. p.start) pieces.now }
    ensures bound { result ≤ length pieces.now }
    ensures below { (k : ℕ) (d : Piece) → k < result → (slice_index_or pieces.now k d).start ≤ a }
    ensures above { (k : ℕ) (d : Piece) → result ≤ k → k < length pieces.now →
        a < (slice_index_or pieces.now k d).start }
{
    pieces.partition_point(|piece| piece.start <= a)
}
