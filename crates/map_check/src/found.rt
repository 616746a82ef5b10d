// The instruction in a span, and branches.
ghost use Rattle.std.specs.Prelude.{◌≡◌, ◌↔◌, ℕ, IsTrue};
ghost use Rattle.std.specs.List.Sorted.{IsNonDecreasingBy};
ghost use Rattle.rv_code.specs.declared.placed.Placed.{Placed};
ghost use Rattle.addr_map.specs.Spans.{new};
ghost use Rattle.move_law.specs.Rewrite.{Rewrite, Goes};
ghost use Rattle.move_law.specs.FaithfulRewrite.{GetsToNext, KeepsBranch};
ghost use Rattle.move_law.specs.FaithfulRewrite as faithful;
ghost use Rattle.code_starts.specs.LoadedMemory.{IsLow};
ghost use Rattle.map_check.specs.internal.InstRows.{FindsBranch, FindsInSpan, IsChecked, Leads};

use crate::output::{goes, inst_at};
use crate::sorted_spans::span_of;
use addr_map::Span;
use elf_image::Elf;
use rv_code::flow::moved_by;
use rv_code::{Action, Inst, Placed, Test};

/// An instruction of the output.
#[derive(Clone, Copy)]
pub struct Found {
    /// Its address.
    pub out: u64,
    pub inst: Inst,
    /// Its length in bytes: 2 or 4.
    pub width: u8,
}

/// The new address of the instruction at `a`. If no instruction starts at `a`, the result is `a`.
pub fn new_of(table: &[Span], a: u64) -> u64
    requires { IsNonDecreasingBy (λ s. s.input) table.now }
    ensures { result ≡ new table.now a }
{
    match span_of(table, a) {
        Some(span) => span.out,
        None => a,
    }
}

/// The instruction at the start of the span of `p`, if it is code and ends within the span.
pub fn found_in_span(output: &Elf, table: &[Span], p: &Placed) -> Option<Found>
    requires low { IsLow output.now }
    requires sorted { IsNonDecreasingBy (λ s. s.input) table.now }
    ensures { (r : Rewrite) → IsChecked r output.now table.now → FindsInSpan r p.now result }
{
    let span = span_of(table, p.addr)?;
    let (inst, width) = inst_at(output, span.out)?;
    if width > span.len {
        return None;
    }
    Some(Found {
        out: span.out,
        inst,
        width,
    })
}

/// Whether control gets from `from` to the new address of the instruction at `next`, if there is one.
pub fn gets_to(output: &Elf, table: &[Span], from: u64, next: Option<u64>) -> bool
    requires low { IsLow output.now }
    requires sorted { IsNonDecreasingBy (λ s. s.input) table.now }
    ensures { (r : Rewrite) (p : Placed) → IsChecked r output.now table.now → faithful.next r p ≡ next →
        IsTrue result ↔ GetsToNext r (Goes r.output) p from }
{
    match next {
        Some(a) => goes(output, from, new_of(table, a)),
        None => true,
    }
}

// Whether control gets from `yes` to the new address of a branch's target, and from `no` to the next instruction.
fn leads(output: &Elf, table: &[Span], yes: u64, no: u64, target: u64, next: Option<u64>) -> bool
    requires low { IsLow output.now }
    requires sorted { IsNonDecreasingBy (λ s. s.input) table.now }
    ensures { (r : Rewrite) (p : Placed) → IsChecked r output.now table.now → faithful.next r p ≡ next →
        IsTrue result ↔ Leads r p yes no target }
{
    let there = goes(output, yes, new_of(table, target));
    let on = gets_to(output, table, no, next);
    there && on
}

// If `inst` branches on `test` of the registers `rs1` and `rs2`, or on the opposite test: whether it branches if the
// test holds, and its offset.
fn branch_of(inst: &Inst, test: Test, rs1: u8, rs2: u8) -> Option<(bool, i64)>
    ensures { FindsBranch test rs1 rs2 inst.now result }
{
    match inst.action() {
        Action::Branch {
            test: found,
            wanted,
            rs1: left,
            rs2: right,
            imm,
        } => {
            if found == test && left == rs1 && right == rs2 {
                Some((wanted, imm))
            } else {
                None
            }
        }
        _ => None,
    }
}

/// Whether the branch `p` is kept: its span has a branch, possibly with the opposite condition, from which control gets
/// one way to the new address of `target`, and the other way to the new address of the instruction at `next`. `wanted`
/// says whether `p` branches if `test` holds.
pub fn keeps_branch(
    output: &Elf,
    table: &[Span],
    p: &Placed,
    test: Test,
    wanted: bool,
    rs1: u8,
    rs2: u8,
    target: u64,
    next: Option<u64>,
) -> bool
    requires low { IsLow output.now }
    requires sorted { IsNonDecreasingBy (λ s. s.input) table.now }
    ensures { (r : Rewrite) → IsChecked r output.now table.now → faithful.next r p.now ≡ next →
        IsTrue result ↔ KeepsBranch r (Goes r.output) p.now test wanted rs1 rs2 target }
{
    let Some(f) = found_in_span(output, table, p) else {
        return false;
    };
    let Some((same, imm)) = branch_of(&f.inst, test, rs1, rs2) else {
        return false;
    };
    let there = moved_by(f.out, imm);
    let end = f.out.wrapping_add(f.width as u64);
    if same == wanted {
        leads(output, table, there, end, target, next)
    } else {
        leads(output, table, end, there, target, next)
    }
}
