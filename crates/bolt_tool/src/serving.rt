// The process, for any files and streams.
ghost use Rattle.std.specs.Prelude.{map, string_bytes};
ghost use Rattle.bolt_tool.specs.CommandAnswers.{Exits};
ghost use Rattle.cli_args.specs.CommandLine.{command_of};
ghost use Rattle.cli_base.specs.World.{world};

use crate::commands::tool;
use rb_io::{Files, Sink, Source};
use std::alloc::Global;
use std::process::ExitCode;

/// Does what `args` say, without the program's own name, and returns the exit code of the process.
///
/// `input` is standard input, and `out` standard output.
pub fn serve<F: Files, I: Source, O: Sink>(
    alloc: Global,
    args: &[String],
    files: &mut F,
    input: &mut I,
    out: &mut O,
) -> ExitCode
    ensures { Exits (command_of (map string_bytes args.now)) result
        (world (F.seen files.old) (I.seen input.old) (O.seen out.old))
        (world (F.seen files.new) (I.seen input.new) (O.seen out.new)) input.old input.new }
{
    let status = tool(alloc, args, files, input, out);
    ExitCode::from(status.number())
}
