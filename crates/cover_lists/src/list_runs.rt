// The runs of new code in each of which a location list has the same expressions in force.
ghost use Rattle.std.specs.Prelude.{◌≡◌, ◌≢◌, ◌+◌, ◌-◌, ◌<◌, ◌^◌, [], ℕ, Some, IsTrue, IsFalse, IfOk, OnOk, length};
ghost use Rattle.answer_runs.specs.AnswerRuns.{said_runs, IsWithin, AreLongest};
ghost use Rattle.answer_runs.specs.LastRuns as last;
ghost use Rattle.answer_runs.specs.Choices.{unless_empty};
ghost use Rattle.cover_lists.specs.KeptLists.{items_in, said_by};
ghost use Rattle.cover_lists.specs.ListFinder.{IsFinder};
ghost use Rattle.cover_lists.specs.ListRuns as spec;
ghost use Rattle.cover_lists.specs.GroupRuns.{runs_end};
ghost use Rattle.cover_lists.specs.ListRuns.{IsExtended, AreCandidates, AreExtended, IsListRuns, list_answer, said_in};

use crate::cost::is_too_much;
use crate::expressions::same_expressions;
use crate::kept_list::KeptList;
use crate::kept_lists::{copies_at, cost_at, is_said, numbers_at};
use crate::list_finder::ListFinder;
use answer_runs::{Run, ends_at, lengthen};
use rb_bytes::fault::NoMemory;
use std::alloc::Global;

/// A stretch of new code in which a list has the same expressions in force.
pub type ListRun = Run<Vec<Vec<u8>>>;

// Whether there is a last run, and it has this answer.
fn ends_with(runs: &[ListRun], answer: &[Vec<u8>]) -> bool
    ensures has { IsTrue result → last.IsAnswer (Some (items_in answer.now)) (said_runs spec.said runs.now) }
    ensures lacks { IsFalse result → last.IfLast (λ r. r.answer ≢ items_in answer.now) (said_runs spec.said runs.now) }
{
    match runs.last() {
        Some(last) => same_expressions(&last.answer, answer),
        None => false,
    }
}

// Adds a stretch of bytes with an answer to the runs.
fn add(runs: &mut Vec<ListRun>, start: u64, len: u64, answer: Vec<Vec<u8>>) -> Result<(), NoMemory>
    requires before { IsWithin 0 (said_runs spec.said runs.old.items) start }
    requires longest { AreLongest (said_runs spec.said runs.old.items) }
    requires some { 0 < len }
    requires fits { start + len < 2 ^ 64 }
    ensures { OnOk result (IsExtended start len (Some (items_in answer.items)) (said_runs spec.said runs.old.items)
        (said_runs spec.said runs.new.items)) }
{
    if ends_at(runs, start) && ends_with(runs, &answer) {
        lengthen(runs, len);
    } else {
        runs.push(Run { start, len, answer })?;
    }
    Ok(())
}

// Whether there is a last run, and it has the expressions of the items with some numbers. No copy is made.
fn goes_on(runs: &[ListRun], list: &KeptList, numbers: &[usize]) -> bool
    ensures { IsTrue result → last.IsAnswer (unless_empty (said_by list.now numbers.now))
        (said_runs spec.said runs.now) }
{
    match runs.last() {
        Some(last) => is_said(list, numbers, &last.answer),
        None => false,
    }
}

// Adds a stretch of bytes to the runs of a list, with the expressions of the items with some numbers.
fn put_answer(
    alloc: Global,
    runs: &mut Vec<ListRun>,
    start: u64,
    len: u64,
    list: &KeptList,
    numbers: &[usize],
) -> Result<(), NoMemory>
    requires before { IsWithin 0 (said_runs spec.said runs.old.items) start }
    requires longest { AreLongest (said_runs spec.said runs.old.items) }
    requires some { 0 < len }
    requires fits { start + len < 2 ^ 64 }
    ensures { OnOk result (IsExtended start len (unless_empty (said_by list.now numbers.now))
        (said_runs spec.said runs.old.items)
        (said_runs spec.said runs.new.items)) }
{
    if ends_at(runs, start) && goes_on(runs, list, numbers) {
        lengthen(runs, len);
        return Ok(());
    }
    let answer = copies_at(alloc, list, numbers)?;
    match answer.first() {
        Some(_) => {
            add(runs, start, len, answer)?;
            Ok(())
        }
        None => Ok(()),
    }
}

// Adds a stretch of bytes to the runs of a list, if the list has an answer at `a`, the stretch's owner. `asked` is the
// cost of all answers so far. Gives `NoMemory` also if that becomes too high. `found` is written over.
fn add_list(
    alloc: Global,
    lists: &[KeptList],
    runs: &mut Vec<Vec<ListRun>>,
    number: usize,
    start: u64,
    len: u64,
    a: u64,
    found: &mut Vec<usize>,
    asked: &mut usize,
) -> Result<(), NoMemory>
    requires number { number < length lists.now }
    requires count { length runs.old.items ≡ length lists.now }
    requires before { IsWithin 0 (said_in runs.old.items number) start }
    requires longest { AreLongest (said_in runs.old.items number) }
    requires some { 0 < len }
    requires fits { start + len < 2 ^ 64 }
    ensures count { OnOk result (length runs.new.items ≡ length runs.old.items) }
    ensures others { OnOk result ((n : ℕ) → n ≢ number → said_in runs.new.items n ≡ said_in runs.old.items n) }
    ensures more { OnOk result (IsExtended start len (list_answer lists.now number a) (said_in runs.old.items number)
        (said_in runs.new.items number)) }
{
    let list = &lists[number];
    numbers_at(list, a, found)?;
    *asked = asked.saturating_add(cost_at(list, found));
    if is_too_much(*asked, lists.len()) {
        return Err(NoMemory);
    }
    put_answer(alloc, &mut runs[number], start, len, list, found)
}

// Adds a stretch of bytes to the runs of the lists with these numbers, which ascend.
fn add_lists(
    alloc: Global,
    lists: &[KeptList],
    runs: &mut Vec<Vec<ListRun>>,
    numbers: &[usize],
    start: u64,
    len: u64,
    a: u64,
    found: &mut Vec<usize>,
    asked: &mut usize,
) -> Result<(), NoMemory>
    requires candidates { AreCandidates lists.now a numbers.now }
    requires count { length runs.old.items ≡ length lists.now }
    requires before { (n : ℕ) → IsWithin 0 (said_in runs.old.items n) start }
    requires longest { (n : ℕ) → AreLongest (said_in runs.old.items n) }
    requires some { 0 < len }
    requires fits { start + len < 2 ^ 64 }
    ensures { OnOk result (AreExtended lists.now a numbers.now start len runs.old.items runs.new.items) }
{
    for number in numbers {
        add_list(alloc, lists, runs, *number, start, len, a, found, asked)?;
    }
    Ok(())
}

fn no_runs(alloc: Global, count: usize) -> Result<Vec<Vec<ListRun>>, NoMemory>
    ensures count { IfOk result (λ ls. length ls.items ≡ count) }
    ensures none { IfOk result (λ ls. (n : ℕ) → said_in ls.items n ≡ []) }
{
    let mut runs = Vec::new(alloc);
    for number in 0..count {
        runs.push(Vec::new(alloc))?;
    }
    Ok(runs)
}

/// For each list, by its number, the longest runs with the same expressions in force, by stretches of new code. The
/// answer of a stretch is the owner of one of its bytes.
pub fn list_runs(
    alloc: Global,
    lists: &[KeptList],
    finder: &ListFinder,
    stretches: &[Run<u64>],
) -> Result<Vec<Vec<ListRun>>, NoMemory>
    requires finder { IsFinder lists.now finder.now }
    requires within { IsWithin 0 stretches.now (2 ^ 64 - 1) }
    ensures count { IfOk result (λ rs. length rs.items ≡ length lists.now) }
    ensures each { IfOk result (λ rs. (n : ℕ) → IsListRuns lists.now n stretches.now (runs_end 0 stretches.now)
        (said_in rs.items n)) }
{
    let mut runs = no_runs(alloc, lists.len())?;
    let mut found = Vec::new(alloc);
    let mut asked: usize = 0;
    for stretch in stretches {
        let a = stretch.answer;
        let numbers = finder.find(alloc, a)?;
        add_lists(
            alloc,
            lists,
            &mut runs,
            &numbers,
            stretch.start,
            stretch.len,
            a,
            &mut found,
            &mut asked,
        )?;
    }
    Ok(runs)
}
