// Clauses `Instruction` and `Next`, over all instructions of the input.
ghost use Rattle.std.specs.Prelude.{◌≡◌, ◌+◌, ◌<◌, ◌↔◌, ℕ, Contains, IsTrue, length, slice_index_or};
ghost use Rattle.std.specs.List.Sorted.{IsNonDecreasingBy};
ghost use Rattle.rv_code.specs.declared.placed.Placed.{Placed};
ghost use Rattle.rv_code.specs.layout.Flow.{insts_of};
ghost use Rattle.rv_code.specs.layout.FunctionLists.{AreLaidOut};
ghost use Rattle.elf_image.specs.declared.elf.Elf.{Elf};
ghost use Rattle.sym_machine.specs.internal.FunctionOrder.{addr_at};
ghost use Rattle.move_law.specs.Rewrite.{Rewrite};
ghost use Rattle.move_law.specs.FaithfulRewrite.{IsMapOf};
ghost use Rattle.move_law.specs.FaithfulRewrite as faithful;
ghost use Rattle.code_starts.specs.LoadedMemory.{IsLow};
ghost use Rattle.map_check.specs.internal.InstRows.{IsChecked, IsJudgedOf, Meets};

use crate::keeps::{goes_on, keeps_inst};
use crate::sorted_spans::span_of;
use addr_map::Span;
use elf_image::Elf;
use elf_image::lowest::{lower, place_if};
use rv_code::flow::is_call;
use rv_code::{Func, Placed};

// The address of the instruction after the one with index `i` in a function, if there is one.
fn next_in(func: &Func, i: usize) -> Option<u64>
    requires { i < length func.now.insts.items }
    ensures { result ≡ addr_at func.now.insts.items (i + 1) }
{
    if i + 1 < func.insts.len() {
        Some(func.insts[i + 1].addr)
    } else {
        None
    }
}

// The address of the instruction to which control goes on after the one with index `i` in a function, if there is one.
// After a call it is the next one of the function; otherwise it is the one at the end of the instruction, in any
// function. The map has an input for each instruction, so it shows if there is one.
fn next_at(table: &[Span], func: &Func, i: usize) -> Option<u64>
    requires inside { i < length func.now.insts.items }
    requires sorted { IsNonDecreasingBy (λ s. s.input) table.now }
    ensures { (r : Rewrite) (output : Elf) (d : Placed) → IsChecked r output table.now → IsMapOf r →
        AreLaidOut r.code.funcs → Contains r.code.funcs func.now →
        faithful.next r (slice_index_or func.now.insts.items i d) ≡ result }
{
    let p = &func.insts[i];
    if is_call(&p.inst) {
        return next_in(func, i);
    }
    let after = p.addr.wrapping_add(p.len as u64);
    span_of(table, after)?;
    Some(after)
}

/// A condition on each instruction of the input.
#[derive(Clone, Copy)]
pub enum Demand {
    /// The instruction is kept.
    Kept,
    /// Control goes on from the end of its new code to what followed it.
    Followed,
}

// Whether `p` meets `demand`. `next` is the address of the instruction to which control goes on after it.
fn meets(demand: Demand, output: &Elf, table: &[Span], p: &Placed, next: Option<u64>) -> bool
    requires low { IsLow output.now }
    requires sorted { IsNonDecreasingBy (λ s. s.input) table.now }
    ensures { (r : Rewrite) → IsChecked r output.now table.now → faithful.next r p.now ≡ next →
        IsTrue result ↔ Meets demand r p.now }
{
    match demand {
        Demand::Kept => keeps_inst(output, table, p, next),
        Demand::Followed => goes_on(output, table, p, next),
    }
}

fn lowest_unmet_in(demand: Demand, output: &Elf, table: &[Span], func: &Func) -> Option<u64>
    requires low { IsLow output.now }
    requires sorted { IsNonDecreasingBy (λ s. s.input) table.now }
    ensures { (r : Rewrite) → IsChecked r output.now table.now → IsMapOf r → AreLaidOut r.code.funcs →
        Contains r.code.funcs func.now → IsJudgedOf (Meets demand r) func.now.insts.items result }
{
    let mut lowest = None;
    for i in 0..func.insts.len() {
        let p = &func.insts[i];
        let met = meets(demand, output, table, p, next_at(table, func, i));
        lowest = lower(lowest, place_if(!met, p.addr));
    }
    lowest
}

/// The lowest address of an instruction that doesn't meet `demand`.
pub fn lowest_unmet(demand: Demand, output: &Elf, table: &[Span], funcs: &[Func]) -> Option<u64>
    requires low { IsLow output.now }
    requires sorted { IsNonDecreasingBy (λ s. s.input) table.now }
    ensures { (r : Rewrite) → IsChecked r output.now table.now → IsMapOf r → AreLaidOut funcs.now →
        r.code.funcs ≡ funcs.now → IsJudgedOf (Meets demand r) (insts_of funcs.now) result }
{
    let mut lowest = None;
    for func in funcs {
        lowest = lower(lowest, lowest_unmet_in(demand, output, table, func));
    }
    lowest
}
