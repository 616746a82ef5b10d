// A run whose moves are counted.
ghost use Rattle.std.specs.Prelude.{◌≡◌, ◌+◌, ◌-◌, ◌^◌, ◌<◌, ◌≤◌, ◌&&◌, ℕ, [], OnOk, if◌then◌else◌};
ghost use Rattle.edge_profile.specs.PairCounts.{count_among, is_pair};
ghost use Rattle.edge_record.specs.AddressSets.{watches};
ghost use Rattle.edge_record.specs.EdgeCounts.{said_of};
ghost use Rattle.edge_record.specs.WatchedRuns.{WatchesRun};
ghost use Rattle.rv_machine.specs.StepResults.{answered};
ghost use Rattle.run_core.specs.Inputs.{outside_of};

use crate::edge_counts::EdgeCounts;
use crate::watched::Watched;
use rb_bytes::fault::NoMemory;
use rb_io::{Sink, Source};
use run_core::InputEnd;
use rv_machine::known::KnownActions;
use rv_machine::{Machine, Ran, Stepped};
use std::alloc::Global;

/// Does at most `limit` steps, as `Machine::run` does, and counts the moves that are watched.
pub fn watch_run<I: Source, O: Sink>(
    alloc: Global,
    machine: &mut Machine<'_>,
    watched: &Watched,
    counts: &mut EdgeCounts,
    limit: u64,
    input: &mut I,
    out: &mut O,
) -> Ran
    requires { said_of counts.old ≡ [] }
    ensures answer { WatchesRun (watches watched.now) machine.old machine.new limit result.steps
        (outside_of (I.seen input.old) (O.seen out.old))
        (outside_of (I.seen input.new) (O.seen out.new)) (said_of counts.new) (answered result.end) }
    ensures reads { (I.seen input.old).faults ≤ (I.seen input.new).faults }
    ensures writes { (O.seen out.old).faults ≤ (O.seen out.new).faults }
{
    let mut known = KnownActions::new(alloc);
    let mut input_end = InputEnd::new();
    let mut steps = 0;
    while steps < limit {
        let from = machine.pc();
        match machine.step_known(&mut known, &mut input_end, input, out) {
            Stepped::Going => steps += 1,
            end => return Ran::ended(end, steps),
        }
        if note(counts, watched, from, machine.pc()).is_err() {
            return Ran {
                end: Stepped::Memory,
                steps,
            };
        }
    }
    Ran {
        end: Stepped::Going,
        steps,
    }
}

// Counts the move from `from` to `to`, if it is watched.
fn note(counts: &mut EdgeCounts, watched: &Watched, from: u64, to: u64) -> Result<(), NoMemory>
    requires { count_among from to (said_of counts.old) < 2 ^ 64 - 1 }
    ensures { OnOk result ((x y : ℕ) → count_among x y (said_of counts.new)
        ≡ count_among x y (said_of counts.old) + (if watches watched.now (from, to)
        && is_pair x y (from, to, 1) then 1 else 0)) }
{
    if watched.has(from, to) {
        counts.add(from, to)?;
    }
    Ok(())
}
