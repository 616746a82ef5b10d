// Doing the command that the arguments are.
ghost use Rattle.std.specs.Prelude.{map, string_bytes, None, Some};
ghost use Rattle.rb_io.specs.Views.{SourceSeen};
ghost use Rattle.bolt_tool.specs.CommandAnswers.{KeepsInput, Serves};
ghost use Rattle.cli_args.specs.CommandLineViews.{NamesDiffer, ArgsFit, command_read};
ghost use Rattle.cli_args.specs.CommandLine.{command_of};
ghost use Rattle.cli_base.specs.World.{world};

use crate::lines;
use crate::running::{record_tokens, run_tokens};
use cli_args::command_line::{Command, parse};
use cli_base::Status;
use cli_check::{repair, verify};
use cli_look::{Question, look_up, sample};
use cli_rewrite::{print_map, rewrite};
use cli_run::RunMode;
use rb_io::{Files, Put, Sink, Source, print_all};
use std::alloc::Global;

// Prints the usage, for arguments that are no command.
fn usage<F: Files, O: Sink>(files: &F, out: &mut O) -> Status
    ensures { (input : SourceSeen) → Serves None result
        (world (F.seen files.now) input (O.seen out.old)) (world (F.seen files.now) input (O.seen out.new)) }
{
    match print_all(out, lines::usage()) {
        Put::Took(_) => Status::Usage,
        Put::Failed => Status::WriteFault,
    }
}

// Does a command.
fn perform<F: Files, I: Source, O: Sink>(
    alloc: Global,
    command: &Command<'_>,
    files: &mut F,
    input: &mut I,
    out: &mut O,
) -> Status
    requires apart { NamesDiffer command.now }
    requires limits { ArgsFit command.now }
    ensures serves { Serves (Some (command_read command.now)) result
        (world (F.seen files.old) (I.seen input.old) (O.seen out.old))
        (world (F.seen files.new) (I.seen input.new) (O.seen out.new)) }
    ensures input_kept { KeepsInput (Some (command_read command.now)) result input.old input.new }
{
    match command {
        Command::Rewrite(args) => rewrite(alloc, args, files, out),
        Command::Map(args) => print_map(alloc, args, files, out),
        Command::Run(args) => run_tokens(alloc, args, RunMode::Bytes, files, input, out),
        Command::RunSymbols(args) => run_tokens(alloc, args, RunMode::Symbols, files, input, out),
        Command::Record(args) => record_tokens(alloc, args, files, input, out),
        Command::Repair(args) => repair(alloc, args, files, out),
        Command::Lookup(args) => look_up(alloc, args, Question::Report, files, out),
        Command::Sample(args) => sample(alloc, args, files, out),
        Command::Verify(args) => verify(alloc, args, files, out),
        Command::Frames(args) => look_up(alloc, args, Question::Frames, files, out),
    }
}

/// Does what `args` say; they don't include the program's own name.
///
/// `input` is standard input, and `out` standard output. The contract says what holds at the end, by the answer. It
/// says nothing about the bytes of opaque files and streams (`rb_io`).
pub fn tool<F: Files, I: Source, O: Sink>(
    alloc: Global,
    args: &[String],
    files: &mut F,
    input: &mut I,
    out: &mut O,
) -> Status
    ensures serves { Serves (command_of (map string_bytes args.now)) result
        (world (F.seen files.old) (I.seen input.old) (O.seen out.old))
        (world (F.seen files.new) (I.seen input.new) (O.seen out.new)) }
    ensures input_kept { KeepsInput (command_of (map string_bytes args.now)) result input.old input.new }
{
    match parse(args) {
        Some(command) => perform(alloc, &command, files, input, out),
        None => usage(files, out),
    }
}
