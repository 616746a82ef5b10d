// The runs of new code whose owners are in a group of ranges.
ghost use Rattle.std.specs.Prelude.{◌≡◌, ◌≢◌, ◌+◌, ◌<◌, ◌^◌, ◌-◌, [], ℕ, AllPairs, true, false, IfOk, OnOk, length};
ghost use Rattle.std.specs.List.Sorted.{IsNonDecreasing};
ghost use Rattle.addr_map.specs.MapText.{IsLineBefore};
ghost use Rattle.addr_map.specs.Spans.{ShareNoByte};
ghost use Rattle.answer_runs.specs.AnswerRuns.{carried, AreLow, AreRunsOf, IsWithin};
ghost use Rattle.answer_runs.specs.LastRuns as last;
ghost use Rattle.cover_lists.specs.GroupRuns as spec;
ghost use Rattle.cover_lists.specs.GroupRuns.{AreApart, AreHeld, IsStretched, AreStretched, IsGroupRuns, held_by};
ghost use Rattle.cover_lists.specs.GroupRuns.{runs_in};

use crate::cost::is_too_much;
use crate::cover_tree::CoverTree;
use crate::stretches::stretches_of;
use addr_map::AddrMap;
use answer_runs::{Run, ends_at, lengthen};
use rb_bytes::fault::NoMemory;
use std::alloc::Global;

/// For each group, by its number, the longest runs of new bytes whose owners are in its ranges. Their answers are all
/// `true`.
pub type GroupRuns = Vec<Vec<Run<bool>>>;

fn no_runs(alloc: Global, count: usize) -> Result<GroupRuns, NoMemory>
    ensures count { IfOk result (λ ls. length ls.items ≡ count) }
    ensures none { IfOk result (λ ls. (g : ℕ) → runs_in ls.items g ≡ []) }
{
    let mut lists = Vec::new(alloc);
    for number in 0..count {
        lists.push(Vec::new(alloc))?;
    }
    Ok(lists)
}

// Adds a stretch of new code to runs, unless the last one ends with it: a group is found once for each of its ranges
// that contain an address.
fn stretch(runs: &mut Vec<Run<bool>>, start: u64, len: u64) -> Result<(), NoMemory>
    requires some { 0 < len }
    requires low { start + len < 2 ^ 64 }
    requires within { IsWithin 0 runs.old.items (start + len) }
    requires ready { last.ends_at (start + len) runs.old.items ≡ false → AreHeld start runs.old.items }
    ensures kept { last.ends_at (start + len) runs.old.items ≡ true → OnOk result (runs.new.items ≡ runs.old.items) }
    ensures more { last.ends_at (start + len) runs.old.items ≡ false →
        OnOk result (IsStretched start len runs.old.items runs.new.items) }
{
    if ends_at(runs, start + len) {
        return Ok(());
    }
    if ends_at(runs, start) {
        lengthen(runs, len);
    } else {
        runs.push(Run {
            start,
            len,
            answer: true,
        })?;
    }
    Ok(())
}

// Adds a stretch to the runs of a group, unless they have it.
fn stretch_group(lists: &mut GroupRuns, group: usize, start: u64, len: u64) -> Result<(), NoMemory>
    requires group { group < length lists.old.items }
    requires some { 0 < len }
    requires low { start + len < 2 ^ 64 }
    requires within { IsWithin 0 (runs_in lists.old.items group) (start + len) }
    requires ready { last.ends_at (start + len) (runs_in lists.old.items group) ≡ false →
        AreHeld start (runs_in lists.old.items group) }
    ensures count { OnOk result (length lists.new.items ≡ length lists.old.items) }
    ensures others { OnOk result ((g : ℕ) → g ≢ group → runs_in lists.new.items g ≡ runs_in lists.old.items g) }
    ensures kept { last.ends_at (start + len) (runs_in lists.old.items group) ≡ true →
        OnOk result (runs_in lists.new.items group ≡ runs_in lists.old.items group) }
    ensures more { last.ends_at (start + len) (runs_in lists.old.items group) ≡ false →
        OnOk result (IsStretched start len (runs_in lists.old.items group) (runs_in lists.new.items group)) }
{
    stretch(&mut lists[group], start, len)
}

// Adds a stretch to the runs of some groups.
fn add_run(lists: &mut GroupRuns, groups: &[usize], start: u64, len: u64) -> Result<(), NoMemory>
    requires some { 0 < len }
    requires low { start + len < 2 ^ 64 }
    requires held { (g : ℕ) → g < length lists.old.items → AreHeld start (runs_in lists.old.items g) }
    ensures { OnOk result (AreStretched groups.now start len lists.old.items lists.new.items) }
{
    for group in groups {
        if *group < lists.len() {
            stretch_group(lists, *group, start, len)?;
        }
    }
    Ok(())
}

// The groups that contain an address, once for each of their ranges that does.
fn holders(alloc: Global, tree: &CoverTree, a: u64) -> Result<Vec<usize>, NoMemory>
    ensures { IfOk result (λ gs. gs.items ≡ spec.holders tree.now a) }
{
    let mut groups = Vec::new(alloc);
    tree.find(a, &mut groups)?;
    Ok(groups)
}

/// The runs of a group; none if there is no such group.
pub fn runs_in(lists: &[Vec<Run<bool>>], group: usize) -> &[Run<bool>]
    ensures { result.now ≡ runs_in lists.now group }
{
    match lists.get(group) {
        Some(runs) => runs,
        None => &[],
    }
}

// The runs of `count` groups, by stretches of new code. The answer of a stretch is the owner of one of its bytes. Gives
// `NoMemory` also if groups contain too many stretches.
fn group_runs(
    alloc: Global,
    tree: &CoverTree,
    count: usize,
    stretches: &[Run<u64>],
) -> Result<GroupRuns, NoMemory>
    requires { IsWithin 0 stretches.now (2 ^ 64 - 1) }
    ensures count { IfOk result (λ ls. length ls.items ≡ count) }
    ensures each { IfOk result (λ ls. (g : ℕ) → g < count → IsGroupRuns tree.now g stretches.now (runs_in ls.items g)) }
{
    let mut lists = no_runs(alloc, count)?;
    let mut asked: usize = 0;
    for stretch in stretches {
        let groups = holders(alloc, tree, stretch.answer)?;
        asked = asked.saturating_add(groups.len());
        if is_too_much(asked, count) {
            return Err(NoMemory);
        }
        add_run(&mut lists, &groups, stretch.start, stretch.len)?;
    }
    Ok(lists)
}

/// For each of `count` groups, by its number, the longest runs of new code whose owners are in its ranges. `bounds` has
/// all first addresses and ends of these ranges, ascending, so that each group contains all or no addresses between two
/// neighbours.
pub fn carried_groups(
    alloc: Global,
    tree: &CoverTree,
    count: usize,
    bounds: &[u128],
    map: &AddrMap,
) -> Result<GroupRuns, NoMemory>
    requires rising { IsNonDecreasing bounds.now }
    requires apart { AreApart bounds.now tree.now }
    requires ordered { AllPairs IsLineBefore map.now }
    requires disjoint { AllPairs ShareNoByte map.now }
    requires low { AreLow map.now }
    ensures count { IfOk result (λ ls. length ls.items ≡ count) }
    ensures each { IfOk result (λ ls. (g : ℕ) → g < count →
        AreRunsOf (carried (held_by tree.now g) map.now) (runs_in ls.items g)) }
    ensures within { IfOk result (λ ls. (g : ℕ) → g < count → IsWithin 0 (runs_in ls.items g) (2 ^ 64 - 1)) }
{
    if count == 0 {
        return Ok(Vec::new(alloc));
    }
    let stretches = stretches_of(alloc, bounds, map)?;
    group_runs(alloc, tree, count, &stretches)
}
