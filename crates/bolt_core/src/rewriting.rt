// Rewriting a file by a profile.
ghost use Rattle.std.specs.Prelude.{◌≡◌, ◌+◌, ◌%◌, ◌<◌, ◌≤◌, All, IfErr, IfOk, map, sum_by};
ghost use Rattle.rv_code.specs.layout.BlockOrders.{HasAllBlocks, HaveAllBlocks};
ghost use Rattle.rv_code.specs.layout.Flow.{insts_of};
ghost use Rattle.rv_code.specs.layout.FunctionLists.{AreLaidOut, address_end};
ghost use Rattle.rv_code.specs.layout.WorstSizes.{worst_size_of_block};
ghost use Rattle.edge_profile.specs.PairCounts.{ArePairs};
ghost use Rattle.edge_profile.specs.Profile.{profile_counts, pairs_of};
ghost use Rattle.edge_profile.specs.Weights.{block_weight};
ghost use Rattle.branch_fixup.specs.Inputs.{AreBlocksOf, AreDirect, AreNear};
ghost use Rattle.code_emit.specs.Inputs.{CanMove, IsLowCell};
ghost use Rattle.bolt_core.specs.ProfileOrder.{ArePartsOf};
ghost use Rattle.bolt_core.specs.Refusals.{IsRefusal};
ghost use Rattle.bolt_core.specs.RewriteCounts.{counts_seen};
ghost use Rattle.bolt_core.specs.RewrittenFile.{IsRewritten};
ghost use Rattle.bolt_core.specs.internal.MovedCode.{IsMovedCode};

use crate::carrying::new_tables;
use crate::cold_parts::cold_starts;
use crate::counting::{count_hot, count_insts};
use crate::limits::{check_blocks, check_lengths, check_sizes, check_weight};
use crate::reading::read_tables;
use addr_map::AddrMap;
use edge_profile::Profile;
use edge_profile::weights::block_weights;
use rb_bytes::fault::{NoMemory, Refusal};
use rv_code::{Block, Chains, Emitted, Func, Plan};
use rv_reloc::Refs;
use std::alloc::Global;

/// A rewritten file, and the counts of its summary.
#[derive(Drop)]
pub struct Rewritten {
    /// The bytes of the written file, which the reader accepts.
    pub file: Vec<u8>,
    /// The new address of each instruction of the input: a span for each.
    pub map: AddrMap,
    /// The number of functions that were moved: all functions of the input.
    pub functions: u64,
    /// The number of instructions of the input's functions.
    pub instructions: u64,
    /// The size of the new code in bytes.
    pub bytes: u64,
    /// The number of hot blocks: blocks whose weight by the profile isn't 0.
    pub hot: u64,
    /// The number of lines of the profile that name no pair of instructions of the file, and are ignored.
    pub ignored: u64,
}

// Does nothing: its clause gives the proof of its caller that the items of a slice of bytes are below 256.
fn are_bytes(bytes: &[u8])
    ensures { All (λ b. b < 256) bytes.now }
{}

/// Rewrites a file so that its code is in the order that a profile asks for. The error is the fault for which the file
/// is refused, or that memory ran out.
///
/// The order of the passes is the order of the faults for which a file is refused (`specs/Refusals.antt`).
pub fn rewrite(alloc: Global, file: &[u8], profile: &[u8]) -> Result<Rewritten, Refusal>
    ensures rewritten { IfOk result (λ r. IsRewritten file.now profile.now r.file.items r.map (counts_seen r)) }
    ensures refused { IfErr result (IsRefusal file.now profile.now) }
{
    check_lengths(file, profile)?;
    let program = program::read_program(alloc, file)?;
    let funcs = program.funcs.as_slice();
    let blocks = program.blocks.as_slice();
    check_blocks(alloc, &program)?;
    let counts = edge_profile::read(alloc, profile, &program.elf, funcs)?;
    let pairs = counts.pairs();
    let weights = block_weights(alloc, funcs, blocks, &counts)?;
    let parts = parts(alloc, funcs, &program.refs, blocks, &counts, &weights)?;
    let plan = func_place::place_by(alloc, funcs, blocks, &parts, pairs, &weights)?;
    let tables = read_tables(alloc, &program.elf)?;
    let start = program::new_start(alloc, &program)?;
    let cold = cold_starts(alloc, funcs, blocks, &parts)?;
    check_sizes(alloc, &program.elf, funcs, &cold)?;
    let (map, emitted) = moved_code(alloc, funcs, &program.refs, blocks, &plan, start)?;
    let weighed = check_weight(alloc, &program.elf, &tables, &map)?;
    let code = emitted.code.len();
    let given = new_tables(
        alloc,
        &program.elf,
        funcs,
        &tables,
        &map,
        start,
        code,
        weighed,
    )?;
    let written = elf_write::write(alloc, &program.elf, funcs, &cold, &emitted, &map, &given)?;
    are_bytes(&written);
    let instructions = count_insts(funcs)?;
    Ok(Rewritten {
        file: written,
        map,
        functions: funcs.len() as u64,
        instructions,
        bytes: code as u64,
        hot: count_hot(&weights),
        ignored: counts.ignored(),
    })
}

// The hot and the cold part of each function: chains of blocks between which control often took an edge, also edges of
// jumps through tables. `weights` are the weights of blocks by the counts.
fn parts(
    alloc: Global,
    funcs: &[Func],
    refs: &Refs,
    blocks: &[Block],
    counts: &Profile,
    weights: &[u128],
) -> Result<Chains, NoMemory>
    requires blocks { AreBlocksOf funcs.now blocks.now }
    requires laid { AreLaidOut funcs.now }
    requires pairs { ArePairs (profile_counts counts.now) (pairs_of counts.now) }
    requires weights { weights.now ≡ map (block_weight (pairs_of counts.now) funcs.now) blocks.now }
    ensures parts { IfOk result
        (ArePartsOf (profile_counts counts.now) (pairs_of counts.now) funcs.now refs.now.cells.items blocks.now) }
    ensures all { IfOk result (HaveAllBlocks funcs.now blocks.now) }
{
    let targets = jump_tables::tables(alloc, funcs, &refs.cells)?;
    let edges = cfg_build::edges(alloc, funcs, blocks, &targets)?;
    block_layout::chains_by(alloc, funcs, blocks, &edges, counts, weights)
}

// The new code of the blocks in the order of `plan`, from the address `start` on, and the map to it. Forms that reach
// come first, since they give the map, which is needed for the bytes and the code cells.
fn moved_code(
    alloc: Global,
    funcs: &[Func],
    refs: &Refs,
    blocks: &[Block],
    plan: &Plan,
    start: u64,
) -> Result<(AddrMap, Emitted), NoMemory>
    requires laid { AreLaidOut funcs.now }
    requires direct { AreDirect funcs.now }
    requires insts { All CanMove (insts_of funcs.now) }
    requires cells { All IsLowCell refs.now.cells.items }
    requires blocks { AreBlocksOf funcs.now blocks.now }
    requires order { HasAllBlocks blocks.now plan.now.order.items }
    requires near { AreNear funcs.now blocks.now plan.now.order.items }
    requires even { start % 2 ≡ 0 }
    requires some { 0 < start }
    requires room { start + sum_by (worst_size_of_block funcs.now) blocks.now ≤ address_end }
    ensures { IfOk result
        (λ r. IsMovedCode funcs.now refs.now.cells.items blocks.now plan.now.order.items start r.0 r.1) }
{
    let (forms, spans) = branch_fixup::forms(alloc, funcs, blocks, plan, start)?;
    let map = AddrMap::new(alloc, spans)?;
    let emitted = code_emit::emit(alloc, funcs, blocks, plan, &forms, &map, &refs.cells)?;
    Ok((map, emitted))
}
