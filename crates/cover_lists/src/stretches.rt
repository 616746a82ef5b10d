// Stretches of new code between whose owners no range begins or ends, so that no group or list changes in one.
ghost use Rattle.std.specs.Prelude.{◌≡◌, ◌≢◌, ◌<◌, ◌+◌, ◌-◌, ◌^◌, AllPairs, Some, IfOk, OnOk, IsTrue, IsFalse};
ghost use Rattle.std.specs.List.Sorted.{IsNonDecreasing};
ghost use Rattle.addr_map.specs.MapText.{IsLineBefore};
ghost use Rattle.addr_map.specs.Spans.{ShareNoByte};
ghost use Rattle.answer_runs.specs.AnswerRuns.{said_runs, carried, AreLow, AreLongest, AreRunsOf, IsWithin};
ghost use Rattle.answer_runs.specs.LastRuns as last;
ghost use Rattle.cover_lists.specs.ListRuns.{IsExtended};
ghost use Rattle.cover_lists.specs.Stretches.{bounds_before};

use crate::bounds::count_near;
use addr_map::{AddrMap, Span};
use answer_runs::{Run, ends_at, lengthen};
use rb_bytes::fault::NoMemory;
use std::alloc::Global;

// The number of bounds that are at most `a`, with `near` as a guess: `count_near`, with the clause that callers need.
fn bounds_before(bounds: &[u128], near: usize, a: u64) -> usize
    requires { IsNonDecreasing bounds.now }
    ensures { result ≡ bounds_before bounds.now a }
{
    count_near(bounds, near, a)
}

// Whether no bound is between `a` and the owner of the last stretch. `near` is a guess of the number of bounds that are
// at most that owner, and becomes the number for `a`.
fn goes_on(bounds: &[u128], stretches: &[Run<u64>], near: &mut usize, a: u64) -> bool
    requires { IsNonDecreasing bounds.now }
    ensures has { IsTrue result → last.IsAnswer (Some (bounds_before bounds.now a))
        (said_runs (bounds_before bounds.now) stretches.now) }
    ensures lacks { IsFalse result → last.IfLast (λ r. r.answer ≢ bounds_before bounds.now a)
        (said_runs (bounds_before bounds.now) stretches.now) }
{
    match stretches.last() {
        Some(last) => {
            let before = bounds_before(bounds, *near, last.answer);
            let now = bounds_before(bounds, before, a);
            *near = now;
            before == now
        }
        None => false,
    }
}

fn add_span(
    bounds: &[u128],
    stretches: &mut Vec<Run<u64>>,
    near: &mut usize,
    span: Span,
) -> Result<(), NoMemory>
    requires rising { IsNonDecreasing bounds.now }
    requires before { IsWithin 0 (said_runs (bounds_before bounds.now) stretches.old.items) span.out }
    requires longest { AreLongest (said_runs (bounds_before bounds.now) stretches.old.items) }
    requires some { 0 < span.len }
    requires fits { span.out + span.len < 2 ^ 64 }
    ensures { OnOk result (IsExtended span.out span.len (Some (bounds_before bounds.now span.input))
        (said_runs (bounds_before bounds.now) stretches.old.items)
        (said_runs (bounds_before bounds.now) stretches.new.items)) }
{
    if ends_at(stretches, span.out) && goes_on(bounds, stretches, near, span.input) {
        lengthen(stretches, span.len as u64);
    } else {
        stretches.push(Run {
            start: span.out,
            len: span.len as u64,
            answer: span.input,
        })?;
    }
    Ok(())
}

/// The longest stretches of new code between whose owners no bound is. The answer of each is the owner of one of its
/// bytes.
pub fn stretches_of(
    alloc: Global,
    bounds: &[u128],
    map: &AddrMap,
) -> Result<Vec<Run<u64>>, NoMemory>
    requires rising { IsNonDecreasing bounds.now }
    requires ordered { AllPairs IsLineBefore map.now }
    requires disjoint { AllPairs ShareNoByte map.now }
    requires low { AreLow map.now }
    ensures runs { IfOk result (λ ss. AreRunsOf (carried (λ a. Some (bounds_before bounds.now a)) map.now)
        (said_runs (bounds_before bounds.now) ss.items)) }
    ensures within { IfOk result (λ ss. IsWithin 0 ss.items (2 ^ 64 - 1)) }
{
    let mut stretches = Vec::new(alloc);
    let mut near = 0;
    for i in 0..map.len() {
        if let Some(span) = map.span(i) {
            if span.len > 0 {
                add_span(bounds, &mut stretches, &mut near, span)?;
            }
        }
    }
    Ok(stretches)
}
