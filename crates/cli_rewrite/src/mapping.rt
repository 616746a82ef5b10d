// The command `map`: a rewrite is made, and its map is printed.
ghost use Rattle.rb_io.specs.Views.{SourceSeen};
ghost use Rattle.cli_args.specs.Args.{inputs_read};
ghost use Rattle.cli_base.specs.World.{world};
ghost use Rattle.cli_rewrite.specs.MapAnswers.{MapServes};

use crate::inputs::rewrite_inputs;
use cli_args::InputArgs;
use cli_base::Status;
use rb_io::{Files, Put, Sink};
use std::alloc::Global;

/// Does `map`.
pub fn print_map<F: Files, O: Sink>(
    alloc: Global,
    args: &InputArgs<'_>,
    files: &mut F,
    out: &mut O,
) -> Status
    // For any standard input, which is unchanged.
    ensures { (input : SourceSeen) → MapServes (inputs_read args.now) result
        (world (F.seen files.old) input (O.seen out.old)) (world (F.seen files.new) input (O.seen out.new)) }
{
    let rewritten = match rewrite_inputs(alloc, args, files, out) {
        Ok(rewritten) => rewritten,
        Err(answer) => return answer,
    };
    match rewritten.map.print(out) {
        Put::Took(_) => Status::Ok,
        Put::Failed => Status::WriteFault,
    }
}
