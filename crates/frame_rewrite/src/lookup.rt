// The entry of a frame table that holds an address, and its answer there.
ghost use Rattle.std.specs.Prelude.{◌≡◌, ◌≤◌, ℕ, List, IfOk, map, option_map, position};
ghost use Rattle.answer_runs.specs.AddressRanges.{holds_address};
ghost use Rattle.answer_runs.specs.FirstRanges.{first_range};
ghost use Rattle.cfi_rows.specs.Entries.{Fde as Entry, range_of};
ghost use Rattle.cfi_rows.specs.ReadEntries.{fde_of};
ghost use Rattle.cfi_rows.specs.ReadFrames.{read_as};
ghost use Rattle.frame_rewrite.specs.FrameLookups.{told_at, answer_by};

use crate::answer::FrameAt;
use answer_runs::{FirstRange, Range};
use cfi_rows::Row;
use cfi_rows::frame_table::{Fde, Frames};
use rb_bytes::fault::NoMemory;
use std::alloc::Global;

/// The first entry that holds an address, and its row there.
#[derive(Drop)]
pub struct Told {
    pub fde: Fde,
    pub row: Row,
}

impl Told {
    /// The answer; `marked`: whether the entry is marked.
    pub(crate) fn answer(self, marked: bool) -> FrameAt
        ensures { result ≡ answer_by self.fde self.row marked }
    {
        FrameAt {
            row: self.row,
            ra: self.fde.ra,
            handler: self.fde.handler,
            indirect: self.fde.indirect,
            table: self.fde.table,
            signal: self.fde.signal,
            start: self.fde.start,
            marked,
        }
    }
}

/// An index of entries by the addresses in their ranges.
pub(crate) fn index_of(alloc: Global, list: &[Fde]) -> Result<FirstRange, NoMemory>
    ensures { IfOk result (λ index. (fs : List Entry) → list.now ≡ map fde_of fs →
        (a : ℕ) → first_range index a ≡ position (holds_address a) (map range_of fs)) }
{
    let ranges = ranges_of(alloc, list)?;
    FirstRange::new(alloc, &ranges)
}

fn ranges_of(alloc: Global, list: &[Fde]) -> Result<Vec<Range>, NoMemory>
    ensures { IfOk result (λ ranges. ranges.items ≡ map (λ f. record { low = f.start; high = f.end }) list.now) }
{
    let ranges = list
        .iter()
        .map(|f| Range {
            low: f.start,
            high: f.end as u128,
        })
        .collect(alloc)?;
    Ok(ranges)
}

/// The first entry that holds address `a`, and its row there, by an index of the table's entries; none if no entry
/// holds it. Also the last address up to which that stays so.
pub(crate) fn tell(
    alloc: Global,
    frames: &Frames,
    index: &FirstRange,
    a: u64,
) -> Result<(Option<Told>, u64), NoMemory>
    requires { (a : ℕ) → first_range index.now a ≡ position (holds_address a) (map range_of (read_as frames.now).list) }
    ensures told { IfOk result (λ r. option_map (λ t. (t.fde, t.row)) r.0 ≡ told_at (read_as frames.now).list a) }
    ensures last { IfOk result (λ r. (x : ℕ) → a ≤ x → x ≤ r.1 →
        told_at (read_as frames.now).list x ≡ told_at (read_as frames.now).list a) }
{
    let (found, last) = index.piece(a);
    let Some(i) = found else {
        return Ok((None, last));
    };
    let Some(fde) = frames.list.get(i) else {
        return Ok((None, a));
    };
    let last = last.min(frames.last_alike(i, a));
    match frames.row_at(alloc, i, a)? {
        Some(row) => Ok((Some(Told { fde: *fde, row }), last)),
        None => Ok((None, last)),
    }
}
