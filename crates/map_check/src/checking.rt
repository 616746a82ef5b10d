// The check of a rewrite: its clauses, one after another.
ghost use Rattle.std.specs.Prelude.{◌≡◌, IfOk};
ghost use Rattle.std.specs.List.Sorted.{IsNonDecreasingBy};
ghost use Rattle.rv_code.specs.layout.FunctionLists.{AreLaidOut};
ghost use Rattle.rv_code.specs.layout.ProgramCode.{program_code};
ghost use Rattle.elf_image.specs.memory.Executables.{executable_read};
ghost use Rattle.rv_reloc.specs.Refs.{IsRead};
ghost use Rattle.move_law.specs.FaithfulRewrite.{IsMapOf};
ghost use Rattle.move_law.specs.Rewrite.{Rewrite};
ghost use Rattle.map_check.specs.FirstFalse.{HasCode, IsVerdict};
ghost use Rattle.map_check.specs.internal.InstRows.{IsChecked};
ghost use Rattle.map_check.specs.internal.Verdicts.{AreInputsOf, AreReady, HoldUpTo, IsVerdictIn, KeepsAllCode};

use crate::bytes::lowest_changed;
use crate::cells::lowest_bad_cell;
use crate::changes::Changes;
use crate::clause::{Clause, Verdict};
use crate::code_spans::lowest_outside;
use crate::found::new_of;
use crate::headers::Headers;
use crate::insts::{Demand, lowest_unmet};
use crate::layout::keeps_layout;
use crate::sorted_spans::sort_by_input;
use crate::spans::lowest_bad_span;
use crate::text::{MapRead, read};
use addr_map::Span;
use elf_image::Elf;
use rb_bytes::fault::NoMemory;
use rv_code::Func;
use rv_reloc::Refs;
use std::alloc::Global;

/// Whether `output` and the text `map` are a faithful rewrite of `input`, whose code is `funcs` and `refs`; otherwise
/// the first clause that is false, at its lowest place. `tight` says that there is no room for new code after the
/// input's executable segment.
pub fn check(
    alloc: Global,
    input: &Elf,
    funcs: &[Func],
    refs: &Refs,
    tight: bool,
    output: &Elf,
    map: &[u8],
) -> Result<Verdict, NoMemory>
    requires input { IsRead input.now }
    requires code { HasCode input.now
        (program_code funcs.now refs.now.roles.items refs.now.cells.items input.now.entry) }
    requires laid { AreLaidOut funcs.now }
    requires output { IsRead output.now }
    ensures { IfOk result (IsVerdict (record {
      input = input.now;
      code = program_code funcs.now refs.now.roles.items refs.now.cells.items input.now.entry;
      tight = tight;
      output = output.now;
      text = map.now;
    })) }
{
    match read(alloc, map)? {
        MapRead::BadLine(number) => Ok(Verdict::Unfaithful(Clause::MapText, number)),
        MapRead::Spans(spans) => check_spans(alloc, input, funcs, refs, tight, output, spans),
    }
}

// Checks the clause `MapSpan` on the spans of a map that was read, and then all later clauses.
fn check_spans(
    alloc: Global,
    input: &Elf,
    funcs: &[Func],
    refs: &Refs,
    tight: bool,
    output: &Elf,
    spans: Vec<Span>,
) -> Result<Verdict, NoMemory>
    requires ready { AreReady input.now refs.now.cells.items output.now }
    requires laid { AreLaidOut funcs.now }
    ensures { IfOk result (IsVerdictIn (record {
      input = input.now;
      code = program_code funcs.now refs.now.roles.items refs.now.cells.items input.now.entry;
      tight = tight;
      output = executable_read output.now;
      spans = spans.items;
    })) }
{
    let mut table = spans;
    sort_by_input(&mut table);
    let bad = lowest_bad_span(alloc, &table, funcs, &refs.roles, &refs.cells, input.entry)?;
    match bad {
        Some(a) => Ok(Verdict::Unfaithful(Clause::MapSpan, a)),
        None => Ok(check_code(input, funcs, refs, tight, output, &table)),
    }
}

// Checks the clauses from `SpanBytes` to `Entry`, which are about code, and then all later clauses. `table` has the
// spans in order of their inputs.
fn check_code(
    input: &Elf,
    funcs: &[Func],
    refs: &Refs,
    tight: bool,
    output: &Elf,
    table: &[Span],
) -> Verdict
    requires ready { AreReady input.now refs.now.cells.items output.now }
    requires laid { AreLaidOut funcs.now }
    requires sorted { IsNonDecreasingBy (λ s. s.input) table.now }
    ensures { (r : Rewrite) → IsChecked r output.now table.now →
        AreInputsOf r input.now
        (program_code funcs.now refs.now.roles.items refs.now.cells.items input.now.entry) tight →
        IsMapOf r → HoldUpTo r 2 → IsVerdictIn r result }
{
    if let Some(a) = lowest_outside(output, table) {
        return Verdict::Unfaithful(Clause::SpanBytes, a);
    }
    if let Some(a) = lowest_unmet(Demand::Kept, output, table, funcs) {
        return Verdict::Unfaithful(Clause::Instruction, a);
    }
    if let Some(a) = lowest_unmet(Demand::Followed, output, table, funcs) {
        return Verdict::Unfaithful(Clause::Next, a);
    }
    if output.entry != new_of(table, input.entry) {
        return Verdict::Unfaithful(Clause::Entry, output.entry);
    }
    check_memory(input, refs, tight, output, table)
}

// Checks the clauses from `Byte` to `Table`, which are about memory and the layout that a program finds.
fn check_memory(input: &Elf, refs: &Refs, tight: bool, output: &Elf, table: &[Span]) -> Verdict
    requires ready { AreReady input.now refs.now.cells.items output.now }
    requires sorted { IsNonDecreasingBy (λ s. s.input) table.now }
    ensures { (r : Rewrite) → IsChecked r output.now table.now → r.input ≡ input.now → r.tight ≡ tight →
        r.code.cells ≡ refs.now.cells.items → KeepsAllCode r → HoldUpTo r 6 → IsVerdictIn r result }
{
    let changes = Changes {
        cells: &refs.cells,
        headers: Headers::of(input, tight),
    };
    if let Some(a) = lowest_changed(input, output, changes) {
        return Verdict::Unfaithful(Clause::Byte, a);
    }
    if let Some(a) = lowest_bad_cell(output, table, &refs.cells, changes.headers.entry) {
        return Verdict::Unfaithful(Clause::Cell, a);
    }
    if !keeps_layout(input, output, tight) {
        return Verdict::Unfaithful(Clause::Table, 0);
    }
    Verdict::Faithful
}
