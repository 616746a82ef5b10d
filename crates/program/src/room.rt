// The address of a program's new code.
ghost use Rattle.std.specs.Prelude.{◌≡◌, ◌<◌, IfErr, IfOk, None, OnOk, Some};
ghost use Rattle.rv_code.specs.layout.FunctionLists.{AreLaidOut};
ghost use Rattle.area_room.specs.Need.{AreBlocksOf};
ghost use Rattle.program.specs.Program.{program_seen};
ghost use Rattle.program.specs.Refusals.{IsRefusalFor};
ghost use Rattle.program.specs.Room as spec;

use crate::program::Program;
use area_room::{area_start_of, need, no_room};
use rb_bytes::fault::{NoMemory, Refusal};
use std::alloc::Global;

/// Whether there is no room for the new area after the executable segment, so that it gets a segment of its own.
pub fn is_tight(alloc: Global, program: &Program<'_>) -> Result<bool, NoMemory>
    requires laid { AreLaidOut program.now.funcs.items }
    requires blocks { AreBlocksOf program.now.funcs.items program.now.blocks.items }
    ensures { IfOk result (λ tight. tight ≡ spec.is_tight_program (program_seen program.now)) }
{
    let need = need(alloc, &program.elf, &program.funcs, &program.blocks)?;
    Ok(area_room::is_tight(&program.elf, need))
}

/// The address at which the new code starts, or the fault `NoRoom`.
pub fn new_start(alloc: Global, program: &Program<'_>) -> Result<u64, Refusal>
    requires laid { AreLaidOut program.now.funcs.items }
    requires blocks { AreBlocksOf program.now.funcs.items program.now.blocks.items }
    ensures start { IfOk result (λ start. start ≡ spec.new_start (program_seen program.now)) }
    ensures some { IfOk result (λ start. 0 < start) }
    ensures room { OnOk result (spec.no_program_room (program_seen program.now) ≡ None) }
    ensures refused { IfErr result (IsRefusalFor (λ fault. spec.no_program_room
        (program_seen program.now) ≡ Some fault)) }
{
    let elf = &program.elf;
    let need = need(alloc, elf, &program.funcs, &program.blocks)?;
    if let Some(fault) = no_room(elf, need) {
        return Err(Refusal::Fault(fault));
    }
    let start = area_start_of(&elf.segments, area_room::is_tight(elf, need)).ok_or(NoMemory)?;
    Ok(start)
}
