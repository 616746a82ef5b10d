// Whether an instruction of the input is kept, and whether control goes on from it to what followed it.
ghost use Rattle.std.specs.Prelude.{◌≡◌, ◌↔◌, IsTrue};
ghost use Rattle.std.specs.List.Sorted.{IsNonDecreasingBy};
ghost use Rattle.move_law.specs.Rewrite.{Rewrite, Goes};
ghost use Rattle.elf_image.specs.memory.Executables.{executable_read};
ghost use Rattle.move_law.specs.Rewrite as rewrite;
ghost use Rattle.move_law.specs.FaithfulRewrite.{GoesOn, KeepsCall, KeepsInst};
ghost use Rattle.move_law.specs.FaithfulRewrite as faithful;
ghost use Rattle.code_starts.specs.LoadedMemory.{IsLow};
ghost use Rattle.map_check.specs.internal.InstRows.{IsChecked, calls_to};

use crate::found::{found_in_span, gets_to, keeps_branch, new_of};
use crate::others::keeps_other;
use crate::output::{goes, width_at};
use addr_map::Span;
use elf_image::Elf;
use rv_code::flow::{is_branch, is_plain_jump, moved_by};
use rv_code::{Action, Inst, Placed, ZERO};

// Whether `inst`, at `from`, is a JAL that saves the return address in `rd` and goes to `to`.
fn calls_to(inst: &Inst, rd: u8, from: u64, to: u64) -> bool
    ensures { result ≡ calls_to inst.now rd from to }
{
    match *inst {
        Inst::Jal { rd: found, imm } => found == rd && moved_by(from, imm) == to,
        _ => false,
    }
}

// Whether the JAL `p`, which saves a return address in `rd`, is kept: its span has a JAL that saves the return address
// in `rd` and goes to the new address of `target`.
fn keeps_call(output: &Elf, table: &[Span], p: &Placed, rd: u8, target: u64) -> bool
    requires low { IsLow output.now }
    requires sorted { IsNonDecreasingBy (λ s. s.input) table.now }
    ensures { (r : Rewrite) → IsChecked r output.now table.now → IsTrue result ↔ KeepsCall r p.now rd target }
{
    match found_in_span(output, table, p) {
        Some(f) => calls_to(&f.inst, rd, f.out, new_of(table, target)),
        None => false,
    }
}

// Whether the JAL `p` is kept. If it saves no return address, it is enough that control gets from its new address to
// the new address of its target, so its span may be empty.
fn keeps_jump(output: &Elf, table: &[Span], p: &Placed, rd: u8, imm: i64) -> bool
    requires low { IsLow output.now }
    requires sorted { IsNonDecreasingBy (λ s. s.input) table.now }
    ensures { (r : Rewrite) → IsChecked r output.now table.now →
        IsTrue result ↔ faithful.KeepsAction r (Goes r.output) p.now (Action.Jump rd imm) }
{
    let target = moved_by(p.addr, imm);
    if rd == ZERO {
        let from = new_of(table, p.addr);
        let to = new_of(table, target);
        goes(output, from, to)
    } else {
        keeps_call(output, table, p, rd, target)
    }
}

/// Whether the instruction `p` is kept. `next` is the address of the instruction to which control goes on after it.
pub fn keeps_inst(output: &Elf, table: &[Span], p: &Placed, next: Option<u64>) -> bool
    requires low { IsLow output.now }
    requires sorted { IsNonDecreasingBy (λ s. s.input) table.now }
    ensures { (r : Rewrite) → IsChecked r output.now table.now → faithful.next r p.now ≡ next →
        IsTrue result ↔ KeepsInst r (Goes r.output) p.now }
{
    match p.inst.action() {
        Action::Jump { rd, imm } => keeps_jump(output, table, p, rd, imm),
        Action::Branch {
            test,
            wanted,
            rs1,
            rs2,
            imm,
        } => {
            let target = moved_by(p.addr, imm);
            keeps_branch(output, table, p, test, wanted, rs1, rs2, target, next)
        }
        _ => keeps_other(output, table, p),
    }
}

/// Whether control goes on from the end of the new instruction for `p` to the new address of the instruction at `next`.
/// True for jumps and branches, whose targets are checked when it is checked that they are kept.
pub fn goes_on(output: &Elf, table: &[Span], p: &Placed, next: Option<u64>) -> bool
    requires low { IsLow output.now }
    requires sorted { IsNonDecreasingBy (λ s. s.input) table.now }
    ensures { (r : Rewrite) → IsChecked r output.now table.now → faithful.next r p.now ≡ next →
        IsTrue result ↔ GoesOn r (Goes r.output) p.now }
{
    if is_plain_jump(&p.inst) {
        return true;
    }
    if is_branch(&p.inst) {
        return true;
    }
    let start = new_of(table, p.addr);
    let end = start.wrapping_add(width_at(output, start) as u64);
    gets_to(output, table, end, next)
}
