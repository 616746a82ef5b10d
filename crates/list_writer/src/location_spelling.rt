// Writing location lists. DWARF 5, sections 2.6.2 and 7.29.
ghost use Rattle.std.specs.Prelude.{◌≡◌, ◌++◌, ◌∷◌, [], IfOk, OnOk, All, map};
ghost use Rattle.answer_runs.specs.AnswerRuns.{said_runs};
ghost use Rattle.dw_lists.specs.declared.list_kind.ListKind.TheVariants as kind;
ghost use Rattle.cover_lists.specs.KeptLists.{items_in};
ghost use Rattle.list_writer.specs.ListBytes.{IsWritable, list_bytes};
ghost use Rattle.cover_lists.specs.ListRuns.{said};
ghost use Rattle.list_writer.specs.WrittenLocations as spec;

use crate::list_writing::{put_end, put_entry};
use cover_lists::list_runs::ListRun;
use dw_lists::list_kind::ListKind;
use rb_bytes::fault::NoMemory;
use std::alloc::Global;

fn put_expression(
    out: &mut Vec<u8>,
    start: u64,
    len: u64,
    expression: &[u8],
) -> Result<(), NoMemory>
    ensures written { OnOk result (out.new.items ≡ out.old.items
        ++ spec.entries_bytes (spec.over start len (expression.now ∷ []))) }
    ensures fits { IsWritable kind.Locations (record { start = start; len = len; expression = expression.now }) }
{
    put_entry(out, ListKind::Locations, start, len, expression)
}

// Appends an entry for each expression, all over the `len` addresses from `start` on.
fn put_expressions(
    out: &mut Vec<u8>,
    start: u64,
    len: u64,
    expressions: &[Vec<u8>],
) -> Result<(), NoMemory>
    ensures written { OnOk result (out.new.items ≡ out.old.items
        ++ spec.entries_bytes (spec.over start len (items_in expressions.now))) }
    ensures fits { OnOk result (All (IsWritable kind.Locations) (spec.over start len (items_in expressions.now))) }
{
    for expression in expressions {
        put_expression(out, start, len, expression.as_slice())?;
    }
    Ok(())
}

fn put_run(out: &mut Vec<u8>, run: &ListRun) -> Result<(), NoMemory>
    ensures written { OnOk result (out.new.items
        ≡ out.old.items ++ spec.entries_bytes (spec.over run.now.start run.now.len (said run.now.answer))) }
    ensures fits { OnOk result (All (IsWritable kind.Locations)
        (spec.over run.now.start run.now.len (said run.now.answer))) }
{
    put_expressions(out, run.start, run.len, &run.answer)
}

// Appends the list of some runs, and its end.
fn put_list(out: &mut Vec<u8>, runs: &[ListRun]) -> Result<(), NoMemory>
    ensures written { OnOk result (out.new.items
        ≡ out.old.items ++ list_bytes kind.Locations (spec.bounded (said_runs said runs.now))) }
    ensures fits { OnOk result (All (IsWritable kind.Locations) (spec.bounded (said_runs said runs.now))) }
{
    for run in runs {
        put_run(out, run)?;
    }
    put_end(out)?;
    Ok(())
}

fn put_spelled(alloc: Global, all: &mut Vec<Vec<u8>>, runs: &Vec<ListRun>) -> Result<(), NoMemory>
    ensures written { OnOk result (items_in all.new.items ≡ items_in all.old.items ++ spec.runs_bytes runs.now ∷ []) }
    ensures fits { OnOk result (spec.CanBeWritten runs.now) }
{
    let mut bytes = Vec::new(alloc);
    put_list(&mut bytes, runs)?;
    all.push(bytes)?;
    Ok(())
}

/// The bytes of location lists, by the runs of new code. A list's expressions are the same at all owners of a run.
pub fn spelled_locations(alloc: Global, lists: &[Vec<ListRun>]) -> Result<Vec<Vec<u8>>, NoMemory>
    ensures written { IfOk result (λ bs. items_in bs.items ≡ map spec.runs_bytes lists.now) }
    ensures fits { OnOk result (All spec.CanBeWritten lists.now) }
{
    let mut all = Vec::new(alloc);
    for runs in lists {
        put_spelled(alloc, &mut all, runs)?;
    }
    Ok(all)
}
