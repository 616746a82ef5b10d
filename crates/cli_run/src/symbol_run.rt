// Runs on the symbol machine.
ghost use Rattle.std.specs.Prelude.{◌≡◌, ◌≤◌};
ghost use Rattle.rv_memory.specs.Limits.{IsWithinLimits};
ghost use Rattle.sym_machine.specs.MachineState.{answered};
ghost use Rattle.program.specs.Program.{program_seen};
ghost use Rattle.cli_args.specs.Args.{run_given};
ghost use Rattle.cli_run.specs.run.Phases.{status_of};
ghost use Rattle.cli_run.specs.run.RunAnswers.{IsAnsweredRun};
ghost use Rattle.cli_base.specs.ProgramFiles.{IsFileProgram};
ghost use Rattle.cli_run.specs.run.SymbolRuns.{symbol_machine};
ghost use Rattle.run_core.specs.Inputs.{outside_of};

use crate::closing::close;
use cli_args::RunArgs;
use cli_base::Status;
use program::{Program, is_tight};
use rb_io::{Sink, Source};
use std::alloc::Global;
use sym_machine::{SymMachine, SymStepped};

// The command's result for a run on the symbol machine, or for a run that was interrupted.
fn status_of(end: SymStepped) -> Status
    ensures { result ≡ status_of Status.Stuck (answered end) }
{
    match end {
        SymStepped::Ended(value) => Status::Ended(value),
        SymStepped::Stuck(pc, reason) => Status::Stuck(pc, reason),
        SymStepped::Going => Status::OutOfSteps,
        SymStepped::ReadFault => Status::ReadFault,
        SymStepped::WriteFault => Status::WriteFault,
        SymStepped::Memory => Status::NoMemory,
    }
}

/// Runs a program, with the arguments and the limit of steps of `args`, and prints the result of the run.
pub fn run_program<I: Source, O: Sink>(
    alloc: Global,
    program: &Program<'_>,
    args: &RunArgs<'_>,
    input: &mut I,
    out: &mut O,
) -> Status
    requires program { IsFileProgram program.now.elf.file.now (program_seen program.now) }
    requires limits { IsWithinLimits (run_given args.now).args }
    ensures ran { IsAnsweredRun (symbol_machine (program_seen program.now) (run_given args.now).args) args.now.limit
        (outside_of (I.seen input.old) (O.seen out.old))
        (outside_of (I.seen input.new) (O.seen out.new)) result }
    ensures reads { (I.seen input.old).faults ≤ (I.seen input.new).faults }
    ensures writes { (O.seen out.old).faults ≤ (O.seen out.new).faults }
{
    let funcs = program.funcs.as_slice();
    let cells = program.refs.cells.as_slice();
    let Ok(tight) = is_tight(alloc, program) else {
        return Status::NoMemory;
    };
    let Ok(mut machine) = SymMachine::load(alloc, &program.elf, funcs, cells, args.args, tight)
    else {
        return Status::NoMemory;
    };
    let ran = machine.run(args.limit, input, out);
    close(alloc, status_of(ran.end), ran.steps, out)
}
