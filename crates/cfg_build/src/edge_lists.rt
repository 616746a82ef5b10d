// Lists the edges between blocks.
ghost use Rattle.std.specs.Prelude.{◌≡◌, ◌+◌, ◌<◌, ◌≤◌, ◌⊎◌, ◌↔◌, ℕ, List, All, Any, AllPairs, Contains, IfOk, IfSome};
ghost use Rattle.std.specs.Prelude.{OnOk, Some, length, slice_get};
ghost use Rattle.rv_code.specs.declared.cell.CodeCell.{CodeCell};
ghost use Rattle.rv_code.specs.layout.Edges.{AreEdges, AreTablePairs};
ghost use Rattle.rv_code.specs.layout.FunctionLists.{AreLaidOut, IsLaidOut, address_end};
ghost use Rattle.rv_code.specs.layout.Lists.{IsPairBefore, ListsPairs};
ghost use Rattle.rb_bytes.specs.Lists.{Gains};
ghost use Rattle.cfg_build.specs.EdgeLists.{AreStretches, IsNextOf, LeadsFrom, IsBlockAt};

use crate::ends::jump_target;
use elf_image::function_bounds::make_ascending;
use rb_bytes::fault::NoMemory;
use rb_bytes::lists::push_some;
use rb_lanes::count_below;
use rv_code::flow::fall_target;
use rv_code::functions::block_starts;
use rv_code::{Block, Func};
use std::alloc::Global;

/// The edges of the control-flow graph of each function, as indices of blocks, by source and by target. `targets` are
/// the pairs of an indirect jump and one of its targets in a jump table, in order.
pub fn edges(
    alloc: Global,
    funcs: &[Func],
    blocks: &[Block],
    targets: &[(u64, u64)],
) -> Result<Vec<(usize, usize)>, NoMemory>
    requires funcs { AreLaidOut funcs.now }
    requires blocks { AreStretches funcs.now blocks.now }
    requires targets { AllPairs IsPairBefore targets.now }
    ensures { IfOk result (λ edges. (cells : List CodeCell) → AreTablePairs funcs.now cells targets.now →
        AreEdges funcs.now cells blocks.now edges.items) }
{
    let starts = block_starts(alloc, funcs, blocks)?;
    let mut edges = Vec::new(alloc);
    let mut leads = Vec::new(alloc);
    for (source, block) in blocks.iter().enumerate() {
        leads.clear();
        push_leads(&mut leads, &funcs[block.func], block.last, targets)?;
        make_ascending(&mut leads);
        push_edges(&mut edges, blocks, &starts, source, block.func, &leads)?;
    }
    Ok(edges)
}

// Appends the targets of instruction `i` of `func`, including fall-through, if a block ends with it.
fn push_leads(
    leads: &mut Vec<u64>,
    func: &Func,
    i: usize,
    targets: &[(u64, u64)],
) -> Result<(), NoMemory>
    requires inside { i < length func.now.insts.items }
    requires laid_out { IsLaidOut func.now }
    requires low { func.now.end ≤ address_end }
    requires targets { AllPairs IsPairBefore targets.now }
    ensures { OnOk result (Gains leads.old.items leads.new.items (LeadsFrom targets.now func.now i)) }
{
    let inst = func.insts[i];
    push_some(leads, jump_target(&inst))?;
    push_some(leads, fall_target(func, i, &inst))?;
    push_table(leads, targets, inst.addr)?;
    Ok(())
}

// Appends the targets in jump tables of the jump at the address `jump`.
fn push_table(leads: &mut Vec<u64>, targets: &[(u64, u64)], jump: u64) -> Result<(), NoMemory>
    requires { AllPairs IsPairBefore targets.now }
    ensures { OnOk result (Gains leads.old.items leads.new.items (λ a. Contains targets.now (jump, a))) }
{
    for pair in pairs_of(targets, jump) {
        leads.push(pair.1)?;
    }
    Ok(())
}

// The pairs of `targets` whose jump is at the address `jump`.
fn pairs_of<'a>(targets: &'a [(u64, u64)], jump: u64) -> &'a [(u64, u64)]
    requires { AllPairs IsPairBefore targets.now }
    ensures { (e : ℕ × ℕ) → Contains result.now e ↔ (Contains targets.now e × (e.0 ≡ jump)) }
{
    let (upto, _) = targets.split_at(targets.partition_point(|e| e.0 <= jump));
    let (_, pairs) = upto.split_at(upto.partition_point(|e| e.0 < jump));
    pairs
}

// Appends the edges from block `source`, of function `func`, to the blocks of that function that start at addresses in
// `leads`.
fn push_edges(
    edges: &mut Vec<(usize, usize)>,
    blocks: &[Block],
    starts: &[u64],
    source: usize,
    func: usize,
    leads: &[u64],
) -> Result<(), NoMemory>
    requires starts { AllPairs (λ a b. a < b) starts.now }
    requires all { length starts.now ≡ length blocks.now }
    requires leads { AllPairs (λ a b. a < b) leads.now }
    requires ordered { AllPairs IsPairBefore edges.old.items }
    requires before { All (λ e. e.0 < source) edges.old.items }
    ensures { OnOk result (ListsPairs (λ e. Contains edges.old.items e
        ⊎ IsNextOf blocks.now starts.now source func leads.now e)
        edges.new.items) }
{
    for lead in leads {
        if let Some(target) = block_at(blocks, starts, source, func, *lead) {
            edges.push((source, target))?;
        }
    }
    Ok(())
}

// The block of function `func` that starts at `address`. The search starts after `source`, since the block is mostly
// near.
fn block_at(
    blocks: &[Block],
    starts: &[u64],
    source: usize,
    func: usize,
    address: u64,
) -> Option<usize>
    requires starts { AllPairs (λ a b. a < b) starts.now }
    requires all { length starts.now ≡ length blocks.now }
    ensures { (t : ℕ) → (result ≡ Some t) ↔ IsBlockAt blocks.now starts.now func address t }
{
    let place = index_of(starts, source.saturating_add(1), address)?;
    if blocks[place].func != func {
        return None;
    }
    Some(place)
}

// The index of `number` in the ascending list `numbers`. `near` is a guess for it.
fn index_of(numbers: &[u64], near: usize, number: u64) -> Option<usize>
    requires { AllPairs (λ a b. a < b) numbers.now }
    ensures inside { IfSome result (λ k. k < length numbers.now) }
    ensures is { (k : ℕ) → (result ≡ Some k) ↔ (slice_get numbers.now k ≡ Some number) }
{
    let place = count_below(numbers, near, number);
    if place == numbers.len() || numbers[place] != number {
        return None;
    }
    Some(place)
}
