// Whether a program has no fault for which a rewrite would refuse it.
ghost use Rattle.std.specs.Prelude.{◌≡◌, ◌≤◌, ℕ, All, IsTrue, IfOk, OnOk, false, length, sum_by};
ghost use Rattle.rb_bytes.specs.FirstFault.{IsFree};
ghost use Rattle.rv_code.specs.layout.WorstSizes as worst;
ghost use Rattle.frame_rewrite.specs.Faults.{IsRegisteredFrames};
ghost use Rattle.func_place.specs.Faults.{HasPlacementFault};
ghost use Rattle.program.specs.Limits.{file_limit};
ghost use Rattle.program.specs.Program.{IsProgramOf, program_seen};
ghost use Rattle.table_set.specs.TableFaults.{HasTableFault};
ghost use Rattle.sample_gen.specs.Faultless.{HasNoFault};
ghost use Rattle.sample_gen.specs.internal.Light.{AreLightTables};

use crate::weight_check::{are_light_tables, has_light_names};
use elf_image::Elf;
use frame_rewrite::registered_frames;
use program::{FILE_LIMIT, Program, check_code, new_start};
use rb_bytes::fault::Refusal;
use rv_code::worst_sizes::NEAR_LIMIT;
use rv_code::{Block, Func, worst_size_of_block};
use sample_file::file::{SECTION_COUNT, SEGMENT_COUNT};
use std::alloc::Global;
use table_set::read_all;

// Whether a jump reaches every address of the code, wherever its blocks are put.
fn is_near(funcs: &[Func], blocks: &[Block]) -> bool
    ensures { IsTrue result → sum_by (worst.worst_size_of_block funcs.now) blocks.now ≤ worst.near_limit }
{
    let mut room = NEAR_LIMIT;
    for block in blocks {
        let size = worst_size_of_block(funcs, block);
        if size > room {
            return false;
        }
        room -= size;
    }
    true
}

// Whether no function moves as one piece.
fn none_whole(funcs: &[Func]) -> bool
    ensures { IsTrue result → All (λ f. f.whole ≡ false) funcs.now }
{
    funcs.iter().all(|f| !f.whole)
}

// Whether there is no fault of placement.
fn can_be_placed(funcs: &[Func], blocks: &[Block]) -> bool
    ensures { IsTrue result → IsFree (HasPlacementFault funcs.now blocks.now) }
{
    none_whole(funcs) && is_near(funcs, blocks)
}

// Whether a program has as few section and program headers as a sample, and `profile` is within the size limit of a
// profile.
fn is_small(program: &Program<'_>, profile: &[u8]) -> bool
    ensures sections { IsTrue result → length program.now.elf.sections.items ≡ 13 }
    ensures segments { IsTrue result → length program.now.elf.segments.items ≡ 3 }
    ensures profile { IsTrue result → length profile.now ≤ file_limit }
{
    program.elf.sections.len() == SECTION_COUNT as usize
        && program.elf.segments.len() == SEGMENT_COUNT as usize
        && profile.len() <= FILE_LIMIT
}

// Whether all tables of a file, whose functions are `funcs`, can be carried and don't weigh too much. The error is a
// fault of a table, or that memory ran out.
fn have_sound_tables(alloc: Global, elf: &Elf<'_>, funcs: &[Func]) -> Result<bool, Refusal>
    ensures registered { IfOk result (λ b. IsTrue b → (place : ℕ) → IsRegisteredFrames elf.now place → ⊥) }
    ensures tables { OnOk result (IsFree (HasTableFault elf.now)) }
    ensures light { IfOk result (λ b. IsTrue b → AreLightTables elf.now funcs.now) }
{
    let tables = read_all(alloc, elf)?;
    if registered_frames(elf).is_some() {
        return Ok(false);
    }
    let light = are_light_tables(alloc, elf, &tables.lines, funcs)?;
    Ok(light)
}

/// Whether the program of a file has no fault for which a rewrite by this profile would refuse it. The error is such a
/// fault, or that memory ran out.
pub fn is_faultless(alloc: Global, program: &Program<'_>, profile: &[u8]) -> Result<bool, Refusal>
    requires { IsProgramOf program.now.elf.file.now (program_seen program.now) }
    ensures { IfOk result (λ b. IsTrue b → HasNoFault program.now.elf.file.now profile.now
        (program_seen program.now)) }
{
    let elf = &program.elf;
    if !can_be_placed(&program.funcs, &program.blocks) || !is_small(program, profile) {
        return Ok(false);
    }
    if !have_sound_tables(alloc, elf, &program.funcs)? {
        return Ok(false);
    }
    if !has_light_names(alloc, elf, &program.funcs)? {
        return Ok(false);
    }
    // Both refuse the program if a fault is present; the start of the new code doesn't matter here.
    new_start(alloc, program)?;
    check_code(elf, &program.funcs)?;
    Ok(true)
}
