// The line units of a section.
ghost use Rattle.std.specs.Prelude.{◌≡◌, ◌≤◌, ℕ, IfOk, MatchResult, Some, None, map, position};
ghost use Rattle.answer_runs.specs.AddressRanges.{holds_address};
ghost use Rattle.answer_runs.specs.FirstRanges.{first_range};
ghost use Rattle.table_core.specs.DebugUnits.{Walked, first_place, walked};
ghost use Rattle.line_rewrite.specs.KeptEntries.{strings_held, texts_strings};
ghost use Rattle.line_rewrite.specs.KeptUnits.{HasTables, told_unit};
ghost use Rattle.line_rewrite.specs.Tables.{HasLineFault, line_sections_held, line_version};
ghost use Rattle.line_rewrite.specs.Troubles.{IfMalformed};
ghost use Rattle.line_rewrite.specs.LineUnits.{unit_in};
ghost use Rattle.line_rewrite.specs.UnitLists.{kept_size, walked_size, place_range, AreUnits, IsLineFault};
ghost use Rattle.rb_bytes.specs.FirstFault.{IsRefusalBy};

use crate::text::Texts;
use crate::trouble::Trouble;
use crate::unit::Unit;
use crate::unit_reader::read_unit;
use answer_runs::{FirstRange, Range};
use rb_bytes::fault::{Fault, FaultKind, NoMemory, Refusal};
use std::alloc::Global;
use table_core::{DWARF_VERSION, DebugUnit, debug_units};

// The offset of the first unit of another format or version.
fn first_other(units: &[DebugUnit]) -> Option<u64>
    ensures { result ≡ first_place (λ w. w.is_other) units.now }
{
    for unit in units {
        if unit.is_other {
            return Some(unit.place);
        }
    }
    None
}

// Reads the unit in `walked`.
fn unit_in(alloc: Global, texts: &Texts, walked: &DebugUnit) -> Result<Unit, Trouble>
    ensures read { IfOk result (λ u. unit_in (texts_strings texts.now) walked.now
        ≡ Some (told_unit (texts_strings texts.now) u)) }
    ensures tables { IfOk result (λ u. HasTables (texts_strings texts.now) u.header) }
    ensures size { IfOk result (λ u. kept_size u ≤ walked_size walked.now) }
    ensures malformed { IfMalformed result (unit_in (texts_strings texts.now) walked.now ≡ None) }
{
    match walked.bytes {
        Some(bytes) => read_unit(alloc, texts, bytes),
        None => Err(Trouble::Malformed),
    }
}

// The units that the walk found, or the fault of the first that can't be read.
fn units_in(alloc: Global, texts: &Texts, walked: &[DebugUnit]) -> Result<Vec<Unit>, Refusal>
    ensures { MatchResult result (λ us. AreUnits (texts_strings texts.now) walked.now us.items)
        (λ e. IsLineFault (texts_strings texts.now) walked.now e) }
{
    let mut units = Vec::new(alloc);
    for unit in walked {
        match unit_in(alloc, texts, unit) {
            Ok(unit) => units.push(unit)?,
            Err(Trouble::Malformed) => {
                return Err(Refusal::Fault(Fault::at(FaultKind::LineFault, unit.place)));
            }
            Err(Trouble::Memory) => return Err(Refusal::Memory),
        }
    }
    Ok(units)
}

/// Reads the line units of `.debug_line`, with the sections of their texts. Refuses the section for the first unit of
/// another version, or without one for the first that can't be read.
pub fn read_units(
    alloc: Global,
    line: &[u8],
    str: &[u8],
    line_str: &[u8],
) -> Result<Vec<Unit>, Refusal>
    ensures { MatchResult result
        (λ us. AreUnits (strings_held str.now line_str.now) (walked 5 line.now) us.items
        × (line_version (line_sections_held line.now str.now line_str.now) ≡ None))
        (λ e. IsRefusalBy (HasLineFault (line_sections_held line.now str.now line_str.now)) e) }
{
    let walked = debug_units(alloc, DWARF_VERSION, line)?;
    if let Some(place) = first_other(&walked) {
        return Err(Refusal::Fault(Fault::at(FaultKind::DwarfVersion, place)));
    }
    let texts = Texts::new(str, line_str);
    units_in(alloc, &texts, &walked)
}

/// An index of units by their offsets in `.debug_line`: the number of the unit that begins at an offset.
pub fn offsets_of(alloc: Global, line: &[u8]) -> Result<FirstRange, NoMemory>
    ensures { IfOk result (λ index. (a : ℕ) → first_range index a
        ≡ position (holds_address a) (map place_range (walked 5 line.now))) }
{
    let walked = debug_units(alloc, DWARF_VERSION, line)?;
    let mut ranges = Vec::new(alloc);
    for unit in &walked {
        ranges.push(Range {
            low: unit.place,
            high: unit.place as u128 + 1,
        })?;
    }
    FirstRange::new(alloc, &ranges)
}
