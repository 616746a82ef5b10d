// Reading a file as a program, for commands that use its code but no tables.
ghost use Rattle.std.specs.Prelude.{◌≤◌, length, IfErr, IfOk};
ghost use Rattle.program.specs.Limits.{file_limit};
ghost use Rattle.program.specs.Program.{program_seen};
ghost use Rattle.program.specs.Refusals.{IsRefusalFor};
ghost use Rattle.cli_base.specs.ProgramFiles.{IsNoProgram, IsFileProgram};

use program::{Program, check_code, read_program};
use rb_bytes::fault::Refusal;
use std::alloc::Global;

/// The program of a file of at most 64 MiB, or the fault for which it isn't one: one of 1 to 17, otherwise `TooLarge`
/// at 2 (`CODE_BYTES`) or 3 (`FUNCTIONS`).
pub fn file_program<'file>(alloc: Global, file: &'file [u8]) -> Result<Program<'file>, Refusal>
    requires { length file.now ≤ file_limit }
    ensures program { IfOk result (λ program. IsFileProgram file.now (program_seen program)) }
    ensures fault { IfErr result (IsRefusalFor (IsNoProgram file.now)) }
{
    let program = read_program(alloc, file)?;
    check_code(&program.elf, &program.funcs)?;
    Ok(program)
}
