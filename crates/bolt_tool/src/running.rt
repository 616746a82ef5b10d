// The commands `run` and `record`: the list of the program's arguments, which needs memory, is made of the tokens
// before the file is read.
ghost use Rattle.std.specs.Prelude.{Some};
ghost use Rattle.rv_memory.specs.Limits.{IsWithinLimits};
ghost use Rattle.cli_base.specs.World.{world};
ghost use Rattle.bolt_tool.specs.CommandAnswers.{KeepsInput, Serves};
ghost use Rattle.cli_args.specs.CommandLineViews.{record_read, run_read};
ghost use Rattle.bolt_tool.specs.RunCommands.{run_on};
ghost use Rattle.cli_args.specs.CommandLine.{Record};

use cli_args::command_line::{RecordTokens, RunTokens, program_args};
use cli_args::{RecordArgs, RunArgs};
use cli_base::Status;
use cli_run::{RunMode, record, run};
use rb_io::{Files, Sink, Source};
use std::alloc::Global;

/// Does `run`, on the machine that `mode` names.
pub fn run_tokens<F: Files, I: Source, O: Sink>(
    alloc: Global,
    tokens: &RunTokens<'_>,
    mode: RunMode,
    files: &mut F,
    input: &mut I,
    out: &mut O,
) -> Status
    requires { IsWithinLimits (run_read tokens.now).args }
    ensures serves { Serves (Some (run_on mode (run_read tokens.now))) result
        (world (F.seen files.old) (I.seen input.old) (O.seen out.old))
        (world (F.seen files.new) (I.seen input.new) (O.seen out.new)) }
    ensures input_kept { KeepsInput (Some (run_on mode (run_read tokens.now))) result input.old input.new }
{
    let Ok(args) = program_args(alloc, tokens) else {
        return Status::NoMemory;
    };
    let given = RunArgs {
        file: tokens.file,
        args: &args,
        limit: tokens.limit,
    };
    run(alloc, &given, mode, files, input, out)
}

/// Does `record`.
pub fn record_tokens<F: Files, I: Source, O: Sink>(
    alloc: Global,
    tokens: &RecordTokens<'_>,
    files: &mut F,
    input: &mut I,
    out: &mut O,
) -> Status
    requires { IsWithinLimits (run_read tokens.now.run).args }
    ensures serves { Serves (Some (Record (record_read tokens.now))) result
        (world (F.seen files.old) (I.seen input.old) (O.seen out.old))
        (world (F.seen files.new) (I.seen input.new) (O.seen out.new)) }
    ensures input_kept { KeepsInput (Some (Record (record_read tokens.now))) result input.old input.new }
{
    let Ok(args) = program_args(alloc, &tokens.run) else {
        return Status::NoMemory;
    };
    let run = RunArgs {
        file: tokens.run.file,
        args: &args,
        limit: tokens.run.limit,
    };
    let given = RecordArgs {
        run,
        out: tokens.out,
    };
    record(alloc, &given, files, input, out)
}
