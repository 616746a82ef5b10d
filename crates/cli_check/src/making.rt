// Repairing a profile, with the lines that show that no other repaired profile changes less.
ghost use Rattle.std.specs.Prelude.{◌+◌, ◌/◌, ◌<◌, ◌≤◌, ◌^◌, length, IfErr, IfOk, OnOk};
ghost use Rattle.rv_code.specs.layout.Edges.{AreEdges};
ghost use Rattle.program.specs.Limits.{file_limit};
ghost use Rattle.program.specs.Program.{program_seen};
ghost use Rattle.program.specs.Refusals.{IsRefusalFor};
ghost use Rattle.cli_base.specs.ProgramFiles.{IsFileProgram};
ghost use Rattle.cli_check.specs.RepairedFiles.{CannotRepair, IsRepairOf};

use cli_base::{Inputs, file_program};
use file_bounds::EDGES;
use flow_text::{repaired_profile, report};
use program::Program;
use rb_bytes::fault::{NoMemory, Refusal};
use std::alloc::Global;

/// The text of a repaired profile, and the lines that show that no other repaired profile changes less.
#[derive(Drop)]
pub struct Outputs {
    pub profile: Vec<u8>,
    pub lines: Vec<u8>,
}

/// Repairs the profile of an input, each of at most 64 MiB. The error is the fault for which the profile can't be
/// repaired, or that memory ran out: one of 1 to 17, or `TooLarge` at 2 (`CODE_BYTES`) or 3 (`FUNCTIONS`).
pub fn repaired(alloc: Global, inputs: &Inputs) -> Result<Outputs, Refusal>
    requires file { length inputs.now.file.items ≤ file_limit }
    requires profile { length inputs.now.profile.items ≤ file_limit }
    ensures made { IfOk result
        (λ r. IsRepairOf inputs.now.file.items inputs.now.profile.items r.profile.items r.lines.items) }
    ensures fault { IfErr result (IsRefusalFor (CannotRepair inputs.now.file.items inputs.now.profile.items)) }
{
    let program = file_program(alloc, &inputs.file)?;
    let made = repaired_counts(alloc, &program, &inputs.profile)?;
    Ok(made)
}

// The edges between the blocks of a program, including those of jumps through tables.
fn edges_of(alloc: Global, program: &Program<'_>) -> Result<Vec<(usize, usize)>, NoMemory>
    requires { IsFileProgram program.now.elf.file.now (program_seen program.now) }
    ensures { IfOk result (λ edges.
        AreEdges program.now.funcs.items program.now.refs.cells.items program.now.blocks.items edges.items) }
{
    let funcs = program.funcs.as_slice();
    let blocks = program.blocks.as_slice();
    let targets = jump_tables::tables(alloc, funcs, &program.refs.cells)?;
    cfg_build::edges(alloc, funcs, blocks, &targets)
}

// `NoMemory` for very many edges, as huge jump tables make them, or code that consists almost only of branches: flows
// on them would need much memory.
fn check_edges(edges: &[(usize, usize)], file: &[u8]) -> Result<(), NoMemory>
    ensures few { OnOk result (length edges.now ≤ length file.now / 2 + 2 ^ 21) }
    ensures many { IfErr result (λ _. length file.now / 2 + 2 ^ 21 < length edges.now) }
{
    if edges.len() > file.len() / 2 + EDGES {
        Err(NoMemory)
    } else {
        Ok(())
    }
}

// Repairs the text `profile` of a profile of a program.
fn repaired_counts(
    alloc: Global,
    program: &Program<'_>,
    profile: &[u8],
) -> Result<Outputs, NoMemory>
    requires program { IsFileProgram program.now.elf.file.now (program_seen program.now) }
    requires profile { length profile.now ≤ file_limit }
    ensures { IfOk result
        (λ r. IsRepairOf program.now.elf.file.now profile.now r.profile.items r.lines.items) }
{
    let funcs = program.funcs.as_slice();
    let blocks = program.blocks.as_slice();
    let found = edges_of(alloc, program)?;
    let edges = found.as_slice();
    check_edges(edges, program.elf.file)?;
    let counts = edge_profile::read(alloc, profile, &program.elf, funcs)?;
    let pairs = counts.pairs();
    let entry = program.elf.entry;
    let flow = flow_infer::repair(alloc, funcs, blocks, edges, &program.refs, entry, &counts)?;
    let profile = repaired_profile(alloc, funcs, blocks, &flow.links, pairs)?;
    let lines = report(alloc, funcs, blocks, &flow)?;
    Ok(Outputs { profile, lines })
}
