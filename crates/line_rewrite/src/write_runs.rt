// Writing line tables from runs. DWARF 5, section 6.2.
ghost use Rattle.std.specs.Prelude.{◌≡◌, ◌<◌, ◌-◌, ◌^◌, All, IfOk, length, map};
ghost use Rattle.answer_runs.specs.AnswerRuns.{IsWithin};
ghost use Rattle.line_rewrite.specs.LineTable.{moved_units, places_in};
ghost use Rattle.line_rewrite.specs.SequenceIndex.{IsIndexOf};
ghost use Rattle.line_rewrite.specs.WrittenRuns as spec;
ghost use Rattle.line_rewrite.specs.WrittenUnits.{written_units, spelled_units};

use crate::answer::LineAt;
use crate::program_list::programs_of;
use crate::sequence_index::SequenceIndex;
use crate::unit::Unit;
use crate::unit_writer::put_units;
use addr_map::AddrMap;
use answer_runs::Run;
use rb_bytes::fault::NoMemory;
use std::alloc::Global;
use table_core::written::DW_AT_stmt_list;
use table_core::{DWARF_VERSION, DebugUnit, ListAt, Written, debug_units};

// Pairs of the old and the new offset of each unit.
fn paired(alloc: Global, olds: &[DebugUnit], news: &[DebugUnit]) -> Result<Vec<ListAt>, NoMemory>
    ensures { IfOk result (λ l. l.items ≡ moved_units (map (λ w. w.place) olds.now) (map (λ w. w.place) news.now)) }
{
    let mut lists = Vec::new(alloc);
    for (i, old) in olds.iter().enumerate() {
        match news.get(i) {
            Some(new) => lists.push(ListAt {
                entry: old.place,
                attr: DW_AT_stmt_list,
                offset: new.place,
            })?,
            None => return Ok(lists),
        }
    }
    Ok(lists)
}

// Pairs of the offset of each unit in the old section and in the new one.
fn moved(alloc: Global, old: &[u8], new: &[u8]) -> Result<Vec<ListAt>, NoMemory>
    ensures { IfOk result (λ l. l.items ≡ moved_units (places_in old.now) (places_in new.now)) }
{
    let olds = debug_units(alloc, DWARF_VERSION, old)?;
    let news = debug_units(alloc, DWARF_VERSION, new)?;
    paired(alloc, &olds, &news)
}

/// Writes a new `.debug_line` with the same units in the same order. Each unit has sequences for the runs whose answers
/// are rows of that unit. A row begins at each of the addresses `cuts` that is inside of a run, too. The lists of the
/// result have the old and the new offset of each unit.
pub fn write_lines(
    alloc: Global,
    line: &[u8],
    units: &[Unit],
    sequences: &SequenceIndex,
    map: &AddrMap,
    runs: &[Run<LineAt>],
    cuts: &[u64],
) -> Result<Written, NoMemory>
    requires index { IsIndexOf units.now sequences.now }
    requires within { IsWithin 0 runs.now (2 ^ 64 - 1) }
    requires small { All (λ b. length b < 2 ^ 32 - 1)
        (written_units units.now (spec.with_runs units.now map.now (spec.begun units.now)
        (spec.cut_runs cuts.now runs.now))) }
    ensures written { IfOk result (λ w. w.bytes.items
        ≡ spelled_units (written_units units.now (spec.with_runs units.now map.now (spec.begun units.now)
        (spec.cut_runs cuts.now runs.now)))) }
    ensures rows { IfOk result (λ w. spec.AllRowsFit units.now map.now (spec.cut_runs cuts.now runs.now)) }
    ensures lists { IfOk result (λ w. w.lists.items ≡ moved_units (places_in line.now) (places_in w.bytes.items)) }
{
    let mut programs = programs_of(alloc, units, sequences, map, runs, cuts)?;
    let mut bytes = Vec::new(alloc);
    put_units(&mut bytes, units, &mut programs)?;
    let lists = moved(alloc, line, &bytes)?;
    Ok(Written { bytes, lists })
}
