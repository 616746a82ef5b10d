// Reading a file as a program.
ghost use Rattle.std.specs.Prelude.{◌≤◌, IfErr, IfOk, length};
ghost use Rattle.program.specs.Limits.{file_limit};
ghost use Rattle.program.specs.Program.{IsProgramOf, program_seen};
ghost use Rattle.program.specs.Refusals.{IsRefusalFor, IsUnreadable};

use crate::program::Program;
use cfi_rows::tabled;
use rb_bytes::fault::Refusal;
use std::alloc::Global;

/// Reads a file with its code. If some of the faults 1 to 17 are present, the error is the one with the lowest number,
/// at its lowest place; or memory ran out.
pub fn read_program<'file>(alloc: Global, file: &'file [u8]) -> Result<Program<'file>, Refusal>
    requires { length file.now ≤ file_limit }
    ensures program { IfOk result (λ program. IsProgramOf file.now (program_seen program)) }
    ensures fault { IfErr result (IsRefusalFor (IsUnreadable file.now)) }
{
    let elf = elf_image::read(alloc, file)?;
    let ranges = tabled(alloc, &elf)?;
    let whole = ranges.as_slice();
    let starts = rv_reloc::starts(alloc, &elf)?;
    let refs = rv_reloc::references(alloc, &elf, &starts, whole)?;
    let funcs = func_find::functions(alloc, &elf, &starts, &refs, whole)?;
    let blocks = cfg_build::blocks(alloc, &funcs, &refs, elf.entry)?;
    Ok(Program {
        elf,
        funcs,
        refs,
        blocks,
    })
}
