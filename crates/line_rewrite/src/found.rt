// The rows in force at an address.
ghost use Rattle.std.specs.Prelude.{◌≡◌, IfNone, IfOk, IfSome, None, OnOk};
ghost use Rattle.line_rewrite.specs.NearRows.{AreNear};
ghost use Rattle.line_rewrite.specs.SequenceIndex.{IsIndexOf, AreFound};
ghost use Rattle.line_rewrite.specs.SequenceViews.{IsViewAt, kept_at};

use crate::line_program::LineProgram;
use crate::lookup::SequenceView;
use crate::near::NearRows;
use crate::registers::Registers;
use crate::sequence_index::{Place, SequenceIndex};
use crate::unit::Unit;
use crate::walk::in_force;
use rb_bytes::fault::NoMemory;
use std::alloc::Global;

/// The rows in force at an address, in the first sequence that covers it.
#[derive(Drop)]
pub struct FoundRows {
    /// The index of its unit.
    pub unit: usize,
    pub rows: Vec<Registers>,
}

// The sequence at a place, if there is one.
pub(crate) fn view_at(units: &[Unit], place: Place) -> Option<SequenceView<'_>>
    ensures found { IfSome result (IsViewAt units.now place) }
    ensures none { IfNone result (kept_at units.now place ≡ None) }
{
    let unit = units.get(place.unit)?;
    let sequence = unit.sequences.get(place.sequence)?;
    Some(SequenceView {
        program: LineProgram {
            coding: &unit.header.coding,
            lengths: &unit.header.lengths,
            bytes: &unit.program,
        },
        kept: &sequence.kept,
        rows: sequence.rows,
    })
}

/// The rows in force at an address; none if no sequence covers it.
pub fn found_rows(
    alloc: Global,
    near: &mut NearRows,
    units: &[Unit],
    index: &SequenceIndex,
    a: u64,
) -> Result<Option<FoundRows>, NoMemory>
    requires index { IsIndexOf units.now index.now }
    requires near { AreNear units.now near.old }
    ensures near { OnOk result (AreNear units.now near.new) }
    ensures found { IfOk result (λ o. AreFound units.now a o) }
{
    if !near.reach(alloc, units, index, a)? {
        return Ok(None);
    }
    let rows = in_force(alloc, &near.rows, a)?;
    Ok(Some(FoundRows {
        unit: near.unit,
        rows,
    }))
}
