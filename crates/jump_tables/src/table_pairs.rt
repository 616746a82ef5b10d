// The pairs of an indirect jump and a possible target in a jump table.
ghost use Rattle.std.specs.Prelude.{◌≡◌, ◌<◌, ◌↔◌, ℕ, AllPairs, Any, Contains, IfOk, OnOk, IsTrue};
ghost use Rattle.rv_code.specs.layout.Edges.{AreTablePairs, IsTableJump};
ghost use Rattle.rv_code.specs.layout.Lists.{IsPairBefore};
ghost use Rattle.rb_bytes.specs.Lists.{Gains};
ghost use Rattle.jump_tables.specs.TablePairs.{HasTableJump, IsPairOf};

use crate::labels::{labels, named_addresses};
use file_bounds::JUMP_PAIRS;
use rb_bytes::fault::NoMemory;
use rv_code::{CodeCell, Func, Inst, Placed, RETURN_ADDRESS, Role, ZERO};
use std::alloc::Global;

/// The pairs of an indirect jump through a table and an address of its function that a cell refers to, by jump and by
/// address. The result is `NoMemory` also if there are more than 2^24 pairs before the pairs of a jump, which no usual
/// program has.
pub fn tables(
    alloc: Global,
    funcs: &[Func],
    cells: &[CodeCell],
) -> Result<Vec<(u64, u64)>, NoMemory>
    ensures { IfOk result (λ pairs. AreTablePairs funcs.now cells.now pairs.items) }
{
    let mut pairs = Vec::new(alloc);
    if !any_jumps(funcs) {
        return Ok(pairs);
    }
    let named = named_addresses(alloc, cells)?;
    for func in funcs {
        push_pairs(alloc, &mut pairs, &func.insts, &named)?;
    }
    make_ordered(&mut pairs);
    Ok(pairs)
}

// Whether a function has an indirect jump through a table.
fn any_jumps(funcs: &[Func]) -> bool
    ensures { Any HasTableJump funcs.now → IsTrue result }
{
    for func in funcs {
        if jumps_by_table(func) {
            return true;
        }
    }
    false
}

fn jumps_by_table(func: &Func) -> bool
    ensures { IsTrue result ↔ HasTableJump func.now }
{
    has_table_jump(&func.insts)
}

// Appends the pairs of the function with the instructions `insts`.
fn push_pairs(
    alloc: Global,
    pairs: &mut Vec<(u64, u64)>,
    insts: &[Placed],
    named: &[u64],
) -> Result<(), NoMemory>
    requires { AllPairs (λ a b. a < b) named.now }
    ensures { OnOk result (Gains pairs.old.items pairs.new.items (IsPairOf insts.now named.now)) }
{
    if !has_table_jump(insts) {
        return Ok(());
    }
    let labels = labels(alloc, insts, named)?;
    for inst in insts {
        if !is_table_jump(inst) {
            continue;
        }
        push_row(pairs, inst.addr, &labels)?;
    }
    Ok(())
}

// Appends the pairs of the jump at the address `jump` and each of `labels`, unless there are too many pairs already.
fn push_row(pairs: &mut Vec<(u64, u64)>, jump: u64, labels: &[u64]) -> Result<(), NoMemory>
    ensures { OnOk result (Gains pairs.old.items pairs.new.items (λ e. (e.0 ≡ jump) × Contains labels.now e.1)) }
{
    if pairs.len() > JUMP_PAIRS {
        return Err(NoMemory);
    }
    for label in labels {
        pairs.push((jump, *label))?;
    }
    Ok(())
}

fn has_table_jump(insts: &[Placed]) -> bool
    ensures { IsTrue result ↔ Any IsTableJump insts.now }
{
    insts.iter().any(|inst| is_table_jump(inst))
}

// Whether an instruction is an indirect jump through a table: a JALR that saves no return address, has no part of an
// address and isn't a return.
fn is_table_jump(inst: &Placed) -> bool
    ensures { IsTrue result ↔ IsTableJump inst.now }
{
    if inst.role != Role::Plain {
        return false;
    }
    match inst.inst {
        Inst::Jalr { rd, rs1, .. } => rd == ZERO && rs1 != RETURN_ADDRESS,
        _ => false,
    }
}

// Sorts pairs and removes duplicates.
fn make_ordered(pairs: &mut Vec<(u64, u64)>)
    ensures ordered { AllPairs IsPairBefore pairs.new.items }
    ensures same { (e : ℕ × ℕ) → Contains pairs.new.items e ↔ Contains pairs.old.items e }
{
    pairs.sort_unstable();
    pairs.dedup();
}
