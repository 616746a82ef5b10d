// The unit of an address, by an index.
ghost use Rattle.std.specs.Prelude.{◌≡◌, ◌≤◌, ℕ, IfOk, map, option_map, option_and_then, slice_get};
ghost use Rattle.std.specs.List.{find};
ghost use Rattle.answer_runs.specs.AddressRanges.{holds_address};

use crate::unit_range::UnitRange;
use answer_runs::{FirstRange, Range};
use rb_bytes::fault::NoMemory;
use std::alloc::Global;

/// An index of ranges of units: the unit of the first range that contains an address.
#[derive(Drop)]
pub struct UnitIndex {
    /// The unit of each range.
    units: Vec<u64>,
    first: FirstRange,
}

fn units_of(alloc: Global, ranges: &[UnitRange]) -> Result<Vec<u64>, NoMemory>
    ensures { IfOk result (λ units. units.items ≡ map (λ r. r.unit) ranges.now) }
{
    Ok(ranges.iter().map(|r| r.unit).collect(alloc)?)
}

fn bounds_of(alloc: Global, ranges: &[UnitRange]) -> Result<Vec<Range>, NoMemory>
    ensures { IfOk result (λ bounds. bounds.items ≡ map (λ r. r.range) ranges.now) }
{
    Ok(ranges.iter().map(|r| r.range).collect(alloc)?)
}

impl UnitIndex {
    ghost use Rattle.addr_rewrite.specs.ArangesReading.{unit_found};

    /// An index of ranges, which may overlap: the first that contains an address counts.
    pub fn new(alloc: Global, ranges: &[UnitRange]) -> Result<UnitIndex, NoMemory>
        ensures { IfOk result (λ index. (a : ℕ) → unit_found index a
            ≡ option_map (λ r. r.unit) (find (λ r. holds_address a r.range) ranges.now)) }
    {
        let units = units_of(alloc, ranges)?;
        let bounds = bounds_of(alloc, ranges)?;
        let first = FirstRange::new(alloc, &bounds)?;
        Ok(UnitIndex { units, first })
    }

    // The unit of a range, if there is one.
    fn unit(&self, number: Option<usize>) -> Option<u64>
        ensures { result ≡ option_and_then (slice_get self.now.units.items) number }
    {
        self.units.get(number?).copied()
    }

    /// The offset in `.debug_info` of the unit of an address, if it has one, and the last address up to which that
    /// stays so.
    pub fn piece(&self, a: u64) -> (Option<u64>, u64)
        ensures unit { (x : ℕ) → a ≤ x → x ≤ result.1 → result.0 ≡ unit_found self.now x }
        ensures last { a ≤ result.1 }
    {
        let (number, last) = self.first.piece(a);
        (self.unit(number), last)
    }
}
