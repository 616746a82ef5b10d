// Runs on the byte machine.
ghost use Rattle.std.specs.Prelude.{◌≤◌};
ghost use Rattle.elf_image.specs.faults.FileFaults.{IsSound};
ghost use Rattle.elf_image.specs.file.ParsedFile.{IsElfOf};
ghost use Rattle.rv_memory.specs.Limits.{IsWithinLimits};
ghost use Rattle.cli_args.specs.Args.{run_given};
ghost use Rattle.cli_run.specs.run.ByteRuns.{byte_machine};
ghost use Rattle.cli_run.specs.run.RunAnswers.{IsAnsweredRun};
ghost use Rattle.run_core.specs.Inputs.{outside_of};

use crate::closing::{close, status_of};
use cli_args::RunArgs;
use cli_base::Status;
use elf_image::Elf;
use rb_io::{Sink, Source};
use rv_machine::Machine;
use std::alloc::Global;

/// Runs a file that was read, with the arguments and the limit of steps of `args`, and prints the result of the run.
pub fn run_elf<I: Source, O: Sink>(
    alloc: Global,
    args: &RunArgs<'_>,
    elf: &Elf<'_>,
    input: &mut I,
    out: &mut O,
) -> Status
    requires limits { IsWithinLimits (run_given args.now).args }
    requires fields { IsElfOf elf.now.file.now elf.now }
    requires sound { IsSound elf.now.file.now }
    ensures ran { IsAnsweredRun (byte_machine elf.now.file.now (run_given args.now).args) args.now.limit
        (outside_of (I.seen input.old) (O.seen out.old))
        (outside_of (I.seen input.new) (O.seen out.new)) result }
    ensures reads { (I.seen input.old).faults ≤ (I.seen input.new).faults }
    ensures writes { (O.seen out.old).faults ≤ (O.seen out.new).faults }
{
    let Ok(mut machine) = Machine::load(alloc, elf, args.args) else {
        return Status::NoMemory;
    };
    let ran = machine.run(args.limit, input, out);
    close(alloc, status_of(ran.end), ran.steps, out)
}
