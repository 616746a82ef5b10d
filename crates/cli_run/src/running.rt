// The command `run`: the file is read completely, and then runs on the byte machine or, with `--symbols`, on the symbol
// machine.
ghost use Rattle.rv_memory.specs.Limits.{IsWithinLimits};
ghost use Rattle.cli_base.specs.Served.{IsInputKept};
ghost use Rattle.cli_args.specs.Args.{run_given};
ghost use Rattle.cli_run.specs.run.Serving.{ServesRun};
ghost use Rattle.cli_base.specs.World.{world};

use crate::byte_run::run_elf;
use crate::symbol_run::run_program;
use cli_args::RunArgs;
use cli_base::{Status, file_image, file_program, read_file, refuse};
use program::FILE_LIMIT;
use rb_io::{Files, Sink, Source};
use std::alloc::Global;

/// The machine on which a file runs.
#[derive(Clone, Copy)]
pub enum RunMode {
    /// The byte machine, `rv_machine`.
    Bytes,
    /// The symbol machine, `sym_machine`.
    Symbols,
}

/// Does `run`.
pub fn run<F: Files, I: Source, O: Sink>(
    alloc: Global,
    args: &RunArgs<'_>,
    mode: RunMode,
    files: &mut F,
    input: &mut I,
    out: &mut O,
) -> Status
    requires { IsWithinLimits (run_given args.now).args }
    ensures serves { ServesRun mode (run_given args.now) result
        (world (F.seen files.old) (I.seen input.old) (O.seen out.old))
        (world (F.seen files.new) (I.seen input.new) (O.seen out.new)) }
    // A run may read standard input; after a refusal it is unchanged.
    ensures input_kept { IsInputKept ⊥ result input.old input.new }
{
    let file = match read_file(alloc, args.file, FILE_LIMIT, files, out) {
        Ok(file) => file,
        Err(answer) => return answer,
    };
    match mode {
        RunMode::Bytes => match file_image(alloc, &file) {
            Ok(elf) => run_elf(alloc, args, &elf, input, out),
            Err(refusal) => refuse(alloc, refusal, out),
        },
        RunMode::Symbols => match file_program(alloc, &file) {
            Ok(program) => run_program(alloc, &program, args, input, out),
            Err(refusal) => refuse(alloc, refusal, out),
        },
    }
}
