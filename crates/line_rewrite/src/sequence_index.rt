// The first sequence of many units that covers an address.
ghost use Rattle.std.specs.Prelude.{◌≡◌, ◌≤◌, ◌++◌, ℕ, IfOk, OnOk, map, slice_get, option_and_then};
ghost use Rattle.answer_runs.specs.FirstRanges.{first_range};
ghost use Rattle.line_rewrite.specs.SequenceIndex.{unit_numbered, kept_range, place_of, IsIndexOf};

use crate::unit::Unit;
use answer_runs::{FirstRange, Range};
use rb_bytes::fault::NoMemory;
use std::alloc::Global;

/// A sequence, by the index of its unit and its own index there.
#[derive(Clone, Copy)]
pub struct Place {
    pub unit: usize,
    pub sequence: usize,
}

/// The sequences of some units in order, and an index of the first one that covers an address.
#[derive(Drop)]
pub struct SequenceIndex {
    places: Vec<Place>,
    first: FirstRange,
}

// Adds the sequences of the unit with index `number`, and their ranges.
fn add_unit(
    number: usize,
    unit: &Unit,
    places: &mut Vec<Place>,
    ranges: &mut Vec<Range>,
) -> Result<(), NoMemory>
    ensures placed { OnOk result (places.new.items ≡ places.old.items ++ map place_of (unit_numbered number unit.now)) }
    ensures ranged { OnOk result (ranges.new.items ≡ ranges.old.items ++ map kept_range
        (unit_numbered number unit.now)) }
{
    for (index, sequence) in unit.sequences.iter().enumerate() {
        places.push(Place {
            unit: number,
            sequence: index,
        })?;
        ranges.push(Range {
            low: sequence.low,
            high: sequence.end as u128,
        })?;
    }
    Ok(())
}

impl SequenceIndex {
    /// An index of the sequences of some units.
    pub fn new(alloc: Global, units: &[Unit]) -> Result<SequenceIndex, NoMemory>
        ensures { IfOk result (λ index. IsIndexOf units.now index) }
    {
        let mut places = Vec::new(alloc);
        let mut ranges = Vec::new(alloc);
        for (number, unit) in units.iter().enumerate() {
            add_unit(number, unit, &mut places, &mut ranges)?;
        }
        let first = FirstRange::new(alloc, &ranges)?;
        Ok(SequenceIndex { places, first })
    }

    // The place with a number, if there is one.
    fn place(&self, number: Option<usize>) -> Option<Place>
        ensures { result ≡ option_and_then (slice_get self.now.places.items) number }
    {
        let number = number?;
        self.places.get(number).copied()
    }

    /// The first sequence that covers an address, if one does, and the last address up to which that stays so.
    pub fn find(&self, a: u64) -> (Option<Place>, u64)
        ensures first { (x : ℕ) → a ≤ x → x ≤ result.1 →
            result.0 ≡ option_and_then (slice_get self.now.places.items) (first_range self.now.first x) }
        ensures last { a ≤ result.1 }
    {
        let (number, last) = self.first.piece(a);
        (self.place(number), last)
    }
}
