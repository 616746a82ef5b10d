// The weights of tables that would be written.
ghost use Rattle.std.specs.Prelude.{AllPairs, IfNone, IfOk, IfSome};
ghost use Rattle.rb_bytes.specs.FirstFault.{IsFree};
ghost use Rattle.addr_map.specs.MapText.{IsLineBefore};
ghost use Rattle.addr_map.specs.Spans.{ShareNoByte};
ghost use Rattle.answer_runs.specs.AnswerRuns.{AreLow};
ghost use Rattle.dw_unit.specs.Faults.{HasDwarfFault, unit_fault_places};
ghost use Rattle.dw_unit.specs.Tables.{sections_of};
ghost use Rattle.table_set.specs.AllTables.{AllComeFrom};
ghost use Rattle.table_set.specs.TableLimits.{IsTooHeavy};
ghost use Rattle.table_set.specs.WeighedTables.{AreWeighed};

use crate::all::AllTables;
use addr_map::AddrMap;
use answer_runs::{Run, WEIGHT_LIMIT};
use dw_unit::abbrev_weight;
use elf_image::Elf;
use file_bounds::{UNIT_WEIGHT, UNIT_WEIGHT_RATIO};
use line_rewrite::LineAt;
use range_loc_rewrite::PlaceRuns;
use rb_bytes::fault::NoMemory;
use std::alloc::Global;

// Whether lists and declarations are so heavy for the file that memory could run out while they are written.
fn is_much(weight: u64, file_size: u64) -> bool {
    weight
        > file_size
            .saturating_mul(UNIT_WEIGHT_RATIO)
            .saturating_add(UNIT_WEIGHT)
}

/// What tables were weighed by, and are written from.
#[derive(Drop)]
pub struct Weighed {
    /// The longest runs of the expressions of each location list at the owners of new bytes.
    pub places: PlaceRuns,
    /// The longest runs of line answers at the owners of new bytes.
    pub lines: Vec<Run<LineAt>>,
}

/// Weighs the tables that would be written for a map; `None` if one, or the declarations of units, would weigh more
/// than `WEIGHT_LIMIT`. Gives `NoMemory` also if none would, but lists and declarations together weigh too much for the
/// file.
pub fn weigh_all(
    alloc: Global,
    elf: &Elf<'_>,
    tables: &AllTables,
    map: &AddrMap,
) -> Result<Option<Weighed>, NoMemory>
    requires comes { AllComeFrom tables.now elf.now }
    requires ordered { AllPairs IsLineBefore map.now }
    requires disjoint { AllPairs ShareNoByte map.now }
    requires low { AreLow map.now }
    requires sound { IsFree (HasDwarfFault (unit_fault_places (sections_of elf.now))) }
    ensures heavy { IfOk result (λ o. IfNone o (IsTooHeavy elf.now map.now)) }
    ensures light { IfOk result (λ o. IfSome o (λ w. IsTooHeavy elf.now map.now → ⊥)) }
    ensures weighed { IfOk result (λ o. IfSome o (AreWeighed tables.now map.now)) }
{
    let ranges = tables.ranges.weight(alloc, map)?;
    if ranges > WEIGHT_LIMIT {
        return Ok(None);
    }
    let places = tables.places.carried(alloc, map)?;
    let expressions = tables.places.weight_of(&places);
    if expressions > WEIGHT_LIMIT {
        return Ok(None);
    }
    let aranges = tables.aranges.weight(alloc, map)?;
    if aranges > WEIGHT_LIMIT {
        return Ok(None);
    }
    let abbrevs = abbrev_weight(alloc, elf)?;
    if abbrevs > WEIGHT_LIMIT {
        return Ok(None);
    }
    // The runs of lines are made last, since they take the most memory.
    let lines = tables.lines.carried(alloc, map)?;
    let rows = tables.lines.weight_of(&lines);
    if rows > WEIGHT_LIMIT {
        return Ok(None);
    }
    let weight = ranges.saturating_add(expressions).saturating_add(abbrevs);
    if is_much(weight, elf.file.len() as u64) {
        return Err(NoMemory);
    }
    Ok(Some(Weighed { places, lines }))
}
