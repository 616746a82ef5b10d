// The runs of all tables, merged so that no two runs have a common entry.
ghost use Rattle.std.specs.Prelude.{◌≡◌, ◌≤◌, ◌+◌, ◌-◌, ◌<◌, ◌++◌, ◌∷◌, ℕ, List, All, IfOk, OnOk, length};
ghost use Rattle.rv_reloc.specs.declared.entry_run.EntryRun.{EntryRun};
ghost use Rattle.rv_reloc.specs.EntryRuns.{entries, run_entries, all_entries, IsWholeRun, AreWholeRuns};
ghost use Rattle.rv_reloc.specs.Thinned.{IsThinned};

use crate::entry_run::EntryRun;
use rb_bytes::fault::NoMemory;
use std::alloc::Global;
use std::collections::VecDeque;

// Appends a run to others, unless it is empty.
fn push_last<'a>(runs: &mut VecDeque<EntryRun<'a>>, run: &EntryRun<'a>) -> Result<(), NoMemory>
    ensures entries { OnOk result ((file : List ℕ) →
        entries file runs.new.items ≡ entries file runs.old.items ++ run_entries file run.now) }
    ensures whole { OnOk result ((size : ℕ) → IsWholeRun size run.now → All (IsWholeRun size) runs.old.items →
        All (IsWholeRun size) runs.new.items) }
{
    if run.first < run.end {
        runs.push_back(*run)?;
    }
    Ok(())
}

// Puts a run before others, unless it is empty.
fn push_first<'a>(runs: &mut VecDeque<EntryRun<'a>>, run: &EntryRun<'a>) -> Result<(), NoMemory>
    ensures entries { OnOk result ((file : List ℕ) →
        entries file runs.new.items ≡ run_entries file run.now ++ entries file runs.old.items) }
    ensures whole { OnOk result ((size : ℕ) → IsWholeRun size run.now → All (IsWholeRun size) runs.old.items →
        All (IsWholeRun size) runs.new.items) }
    ensures more { length runs.new.items ≤ length runs.old.items + 1 }
    ensures none { run.now.first ≡ run.now.end → length runs.new.items ≡ length runs.old.items }
{
    if run.first < run.end {
        runs.push_front(*run)?;
    }
    Ok(())
}

// Merges two runs of which `next` starts inside `run`, up to the end of the shorter one. Their common entries become
// one run, and the rest of the other run goes back to the front of its list.
fn merge_common<'a>(
    done: &mut VecDeque<EntryRun<'a>>,
    left: &mut VecDeque<EntryRun<'a>>,
    right: &mut VecDeque<EntryRun<'a>>,
    run: &EntryRun<'a>,
    next: &EntryRun<'a>,
) -> Result<(), NoMemory>
    requires phase { run.now.phase ≡ next.now.phase }
    requires from { run.now.first ≤ next.now.first }
    requires to { next.now.first < run.now.end }
    ensures thinned { OnOk result ((file : List ℕ) → IsThinned
        (all_entries file done.old.items (run.now ∷ left.old.items) (next.now ∷ right.old.items))
        (all_entries file done.new.items left.new.items right.new.items)) }
    ensures whole { OnOk result ((size : ℕ) →
        AreWholeRuns size done.old.items (run.now ∷ left.old.items) (next.now ∷ right.old.items) →
        AreWholeRuns size done.new.items left.new.items right.new.items) }
    ensures fewer { OnOk result
        (length left.new.items + length right.new.items ≤ length left.old.items + length right.old.items + 1) }
{
    let end = run.end.min(next.end);
    push_last(done, &run.part(run.first, next.first))?;
    push_last(done, &run.common(next, next.first, end))?;
    push_first(left, &run.part(end, run.end))?;
    push_first(right, &next.part(end, next.end))?;
    Ok(())
}

// Takes the first of two runs. `run`, taken from `left`, doesn't start after `next`, taken from `right`.
fn merge_first<'a>(
    done: &mut VecDeque<EntryRun<'a>>,
    left: &mut VecDeque<EntryRun<'a>>,
    right: &mut VecDeque<EntryRun<'a>>,
    run: &EntryRun<'a>,
    next: &EntryRun<'a>,
) -> Result<(), NoMemory>
    ensures thinned { OnOk result ((file : List ℕ) → IsThinned
        (all_entries file done.old.items (run.now ∷ left.old.items) (next.now ∷ right.old.items))
        (all_entries file done.new.items left.new.items right.new.items)) }
    ensures whole { OnOk result ((size : ℕ) →
        AreWholeRuns size done.old.items (run.now ∷ left.old.items) (next.now ∷ right.old.items) →
        AreWholeRuns size done.new.items left.new.items right.new.items) }
    ensures fewer { OnOk result
        (length left.new.items + length right.new.items ≤ length left.old.items + length right.old.items + 1) }
{
    if run.has_start_of(next) {
        return merge_common(done, left, right, run, next);
    }
    done.push_back(*run)?;
    right.push_front(*next)?;
    Ok(())
}

// Takes at least one run from the two lists, if one is left.
fn merge_next<'a>(
    done: &mut VecDeque<EntryRun<'a>>,
    left: &mut VecDeque<EntryRun<'a>>,
    right: &mut VecDeque<EntryRun<'a>>,
) -> Result<(), NoMemory>
    ensures thinned { OnOk result ((file : List ℕ) → IsThinned
        (all_entries file done.old.items left.old.items right.old.items)
        (all_entries file done.new.items left.new.items right.new.items)) }
    ensures whole { OnOk result ((size : ℕ) →
        AreWholeRuns size done.old.items left.old.items right.old.items →
        AreWholeRuns size done.new.items left.new.items right.new.items) }
    ensures fewer { OnOk result
        (length left.new.items + length right.new.items ≤ length left.old.items + length right.old.items - 1) }
{
    match left.pop_front() {
        Some(run) => match right.pop_front() {
            Some(next) => {
                if run.comes_first(&next) {
                    merge_first(done, left, right, &run, &next)
                } else {
                    merge_first(done, right, left, &next, &run)
                }
            }
            None => push_last(done, &run),
        },
        None => match right.pop_front() {
            Some(next) => push_last(done, &next),
            None => Ok(()),
        },
    }
}

// Merges two lists of runs. If each list is sorted and without common entries, so is the result.
fn merged<'a>(
    alloc: Global,
    mut left: VecDeque<EntryRun<'a>>,
    mut right: VecDeque<EntryRun<'a>>,
) -> Result<VecDeque<EntryRun<'a>>, NoMemory>
    ensures thinned { IfOk result (λ runs. (file : List ℕ) →
        IsThinned (entries file left.entry.items ++ entries file right.entry.items) (entries file runs.items)) }
    ensures whole { IfOk result (λ runs. (size : ℕ) → All (IsWholeRun size) left.entry.items →
        All (IsWholeRun size) right.entry.items →
        All (IsWholeRun size) runs.items) }
{
    let mut done = VecDeque::new(alloc);
    // Each step takes at least one run from the two lists, so none is left.
    for step in 0..left.len() + right.len() {
        merge_next(&mut done, &mut left, &mut right)?;
    }
    Ok(done)
}

/// Merges runs, so that no two runs of the result have a common entry. The result is sorted by phase and number. An
/// entry that is in several tables is kept with two of the sections that it applies to.
pub fn merged_runs<'a>(
    alloc: Global,
    runs: &[EntryRun<'a>],
) -> Result<VecDeque<EntryRun<'a>>, NoMemory>
    ensures thinned { IfOk result (λ merged. (file : List ℕ) →
        IsThinned (entries file runs.now) (entries file merged.items)) }
    ensures whole { IfOk result (λ merged. (size : ℕ) → All (IsWholeRun size) runs.now →
        All (IsWholeRun size) merged.items) }
{
    if runs.len() < 2 {
        return listed(alloc, runs);
    }
    let (left, right) = runs.split_at(runs.len() / 2);
    let left = merged_runs(alloc, left)?;
    let right = merged_runs(alloc, right)?;
    merged(alloc, left, right)
}

fn listed<'a>(alloc: Global, runs: &[EntryRun<'a>]) -> Result<VecDeque<EntryRun<'a>>, NoMemory>
    ensures { IfOk result (λ listed. listed.items ≡ runs.now) }
{
    let mut listed = VecDeque::new(alloc);
    for run in runs {
        listed.push_back(*run)?;
    }
    Ok(listed)
}
