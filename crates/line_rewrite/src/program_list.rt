// The programs of all line units, written run by run.
ghost use Rattle.std.specs.Prelude.{◌≡◌, ◌<◌, ◌≤◌, ◌+◌, ◌^◌, ◌-◌, ◌&&◌, All, IfOk, OnOk, length, nat_lt};
ghost use Rattle.answer_runs.specs.AnswerRuns.{IsWithin};
ghost use Rattle.line_rewrite.specs.LineAnswers.{LineSaid};
ghost use Rattle.line_rewrite.specs.NearRows.{AreNear};
ghost use Rattle.line_rewrite.specs.SequenceIndex.{IsIndexOf};
ghost use Rattle.line_rewrite.specs.WrittenRuns as spec;

use crate::answer::LineAt;
use crate::found::found_rows;
use crate::near::{NearRows, no_rows};
use crate::run_writer::Program;
use crate::sequence_index::SequenceIndex;
use crate::unit::Unit;
use addr_map::AddrMap;
use answer_runs::Run;
use rb_bytes::fault::NoMemory;
use std::alloc::Global;

// The most rows of a run that is cut: more than compilers give one address. With more, the table could pass its limit.
const MOST_ROWS: usize = 8;

// A program without a sequence for each unit.
fn begun(alloc: Global, units: &[Unit]) -> Result<Vec<Program>, NoMemory>
    ensures { IfOk result (λ programs. programs.items ≡ spec.begun units.now) }
{
    let mut programs = Vec::new(alloc);
    for _ in units {
        programs.push(Program::new(alloc))?;
    }
    Ok(programs)
}

// Appends the rows in force at the owner of a stretch's first byte to the program of their unit. From these the answer
// of the stretch's run was made. They are looked up again, since an answer has a path in place of a row's file index.
fn add_stretch(
    alloc: Global,
    near: &mut NearRows,
    programs: &mut [Program],
    units: &[Unit],
    sequences: &SequenceIndex,
    map: &AddrMap,
    start: u64,
    len: u64,
) -> Result<(), NoMemory>
    requires index { IsIndexOf units.now sequences.now }
    requires near { AreNear units.now near.old }
    requires each { length programs.old ≡ length units.now }
    requires fits { start + len < 2 ^ 64 }
    ensures near { OnOk result (AreNear units.now near.new) }
    ensures written { OnOk result ((said : LineSaid) → programs.new
        ≡ spec.with_placed programs.old (spec.placed units.now map.now (spec.run_over start len said))) }
    ensures rows { OnOk result ((said : LineSaid) →
        spec.RowsFit (spec.placed units.now map.now (spec.run_over start len said))) }
{
    let Some(owner) = map.owner(start) else {
        return Ok(());
    };
    let Some(found) = found_rows(alloc, near, units, sequences, owner)? else {
        return Ok(());
    };
    let Some(unit) = units.get(found.unit) else {
        return Ok(());
    };
    let stmt = unit.header.coding.default_is_stmt;
    programs[found.unit].add_run(stmt, start, len, &found.rows)?;
    Ok(())
}

// Whether an address is after the start of a stretch and before its end.
fn is_inside(start: u64, end: u64, a: u64) -> bool
    ensures { result ≡ (nat_lt start a && nat_lt a end) }
{
    start < a && a < end
}

// Appends the rows of a run at its start, and again at each of the addresses that is inside of it.
fn add_run(
    alloc: Global,
    near: &mut NearRows,
    programs: &mut [Program],
    units: &[Unit],
    sequences: &SequenceIndex,
    map: &AddrMap,
    run: &Run<LineAt>,
    cuts: &[u64],
) -> Result<(), NoMemory>
    requires index { IsIndexOf units.now sequences.now }
    requires near { AreNear units.now near.old }
    requires each { length programs.old ≡ length units.now }
    requires fits { run.now.start + run.now.len < 2 ^ 64 }
    ensures near { OnOk result (AreNear units.now near.new) }
    ensures written { OnOk result (programs.new
        ≡ spec.with_runs units.now map.now programs.old (spec.cut_run cuts.now run.now)) }
    ensures rows { OnOk result (spec.AllRowsFit units.now map.now (spec.cut_run cuts.now run.now)) }
{
    let end = run.start + run.len;
    let mut start = run.start;
    for cut in cuts {
        if is_inside(start, end, *cut) {
            let len = *cut - start;
            add_stretch(alloc, near, programs, units, sequences, map, start, len)?;
            start = *cut;
        }
    }
    let len = end - start;
    add_stretch(alloc, near, programs, units, sequences, map, start, len)?;
    Ok(())
}

// The number of addresses below a bound with which a list begins.
fn count_below(cuts: &[u64], bound: u64) -> usize
    ensures count { result ≡ spec.count_below bound cuts.now }
    ensures within { result ≤ length cuts.now }
{
    for (i, cut) in cuts.iter().enumerate() {
        if *cut >= bound {
            return i;
        }
    }
    cuts.len()
}

// The addresses to cut a run at: none if it has many rows.
fn cuts_for<'a>(run: &Run<LineAt>, cuts: &'a [u64]) -> &'a [u64]
    ensures { result.now ≡ spec.cuts_for run.now cuts.now }
{
    if run.answer.rows.len() <= MOST_ROWS {
        cuts
    } else {
        &[]
    }
}

/// The programs of all units, each with the rows of its runs: at the start of a run, and again at each of the addresses
/// `cuts` that is inside of it.
pub fn programs_of(
    alloc: Global,
    units: &[Unit],
    sequences: &SequenceIndex,
    map: &AddrMap,
    runs: &[Run<LineAt>],
    cuts: &[u64],
) -> Result<Vec<Program>, NoMemory>
    requires index { IsIndexOf units.now sequences.now }
    requires within { IsWithin 0 runs.now (2 ^ 64 - 1) }
    ensures written { IfOk result (λ programs. programs.items
        ≡ spec.with_runs units.now map.now (spec.begun units.now) (spec.cut_runs cuts.now runs.now)) }
    ensures rows { IfOk result (λ programs. spec.AllRowsFit units.now map.now (spec.cut_runs cuts.now runs.now)) }
{
    let mut programs = begun(alloc, units)?;
    let mut near = no_rows(alloc);
    let mut rest = cuts;
    for run in runs {
        let (inside, behind) = rest.split_at(count_below(rest, run.start + run.len));
        let here = cuts_for(run, inside);
        add_run(
            alloc,
            &mut near,
            &mut programs,
            units,
            sequences,
            map,
            run,
            here,
        )?;
        rest = behind;
    }
    Ok(programs)
}
