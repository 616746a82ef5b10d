// The ranges of an entry in the order of its list: the one at which the entry is entered comes first.
ghost use Rattle.std.specs.Prelude.{◌≡◌, ◌++◌, IfOk, OnOk, IsTrue, is_some};
ghost use Rattle.answer_runs.specs.AnswerRuns.{run_at};
ghost use Rattle.cover_lists.specs.declared.groups.RangedEntry as entry;
ghost use Rattle.cover_lists.specs.EntryOrders as spec;

use crate::groups::RangedEntry;
use addr_map::AddrMap;
use answer_runs::Run;
use rb_bytes::fault::NoMemory;
use std::alloc::Global;

fn holds(run: &Run<bool>, p: u64) -> bool
    ensures { result ≡ spec.has_byte p run.now }
{
    run.start <= p && p - run.start < run.len
}

// Whether some runs hold a byte.
fn are_at(runs: &[Run<bool>], p: u64) -> bool
    ensures { result ≡ spec.are_at runs.now p }
{
    for run in runs {
        if holds(run, p) {
            return true;
        }
    }
    false
}

// The new place of the instruction at an address, if it has bytes there and some runs hold it.
fn placed(map: &AddrMap, runs: &[Run<bool>], a: Option<u64>) -> Option<u64>
    ensures { result ≡ spec.placed map.now runs.now a }
{
    let old = a?;
    let new = map.moved(old)?;
    if map.owner(new) == Some(old) && are_at(runs, new) {
        Some(new)
    } else {
        None
    }
}

/// Where an entry whose ranges have some runs of new code is entered: the new place of the address that it names, or of
/// the start of its first range; 0 if none of both is in the runs.
pub fn entry_place(map: &AddrMap, runs: &[Run<bool>], entry: &RangedEntry) -> u64
    ensures { result ≡ spec.entry_place map.now runs.now entry.now }
{
    let named = placed(map, runs, entry.entry);
    let first = placed(map, runs, entry.first);
    named.or(first).unwrap_or(0)
}

// Adds the part of a run from `at` on, if it holds that.
fn put_front(out: &mut Vec<Run<bool>>, run: &Run<bool>, at: u64) -> Result<(), NoMemory>
    ensures { OnOk result (out.new.items ≡ out.old.items ++ spec.front at run.now) }
{
    if holds(run, at) {
        out.push(Run {
            start: at,
            len: run.len - (at - run.start),
            answer: run.answer,
        })?;
    }
    Ok(())
}

// Adds what `put_front` leaves of a run.
fn put_rest(out: &mut Vec<Run<bool>>, run: &Run<bool>, at: u64) -> Result<(), NoMemory>
    ensures { OnOk result (out.new.items ≡ out.old.items ++ spec.rest at run.now) }
{
    let mut len = run.len;
    if holds(run, at) {
        len = at - run.start;
        if len == 0 {
            return Ok(());
        }
    }
    out.push(Run {
        start: run.start,
        len,
        answer: run.answer,
    })?;
    Ok(())
}

/// The same bytes as some runs have, of which those from `at` on come first, up to the end of their run.
pub fn entry_first(alloc: Global, runs: &[Run<bool>], at: u64) -> Result<Vec<Run<bool>>, NoMemory>
    ensures { IfOk result (λ rs. rs.items ≡ spec.entry_first at runs.now) }
{
    let mut ordered = Vec::new(alloc);
    for run in runs {
        put_front(&mut ordered, run, at)?;
    }
    for run in runs {
        put_rest(&mut ordered, run, at)?;
    }
    Ok(ordered)
}
