// Reading an input and its profile, and rewriting the input, for `rewrite` and `map`.
ghost use Rattle.std.specs.Prelude.{◌≡◌, ◌≤◌, IfErr, IfOk, OnOk};
ghost use Rattle.rb_io.specs.Names.{Unchanged};
ghost use Rattle.rb_io.specs.Views.{FilesGoOn, SourceSeen};
ghost use Rattle.bolt_core.specs.Refusals.{IsRefused};
ghost use Rattle.cli_base.specs.Inputs.{IsStopped};
ghost use Rattle.cli_args.specs.Args.{inputs_read};
ghost use Rattle.cli_base.specs.World.{world};
ghost use Rattle.cli_rewrite.specs.InputAnswers.{IsMadeOf, made_by};

use bolt_core::{Rewritten, rewrite};
use cli_args::InputArgs;
use cli_base::{Status, read_inputs, refuse};
use rb_io::{Files, Sink};
use std::alloc::Global;

/// Rewrites an input by its profile, and writes no file. The error is the command's result. For a refusal the line has
/// been printed, or its printing failed.
pub fn rewrite_inputs<F: Files, O: Sink>(
    alloc: Global,
    args: &InputArgs<'_>,
    files: &mut F,
    out: &mut O,
) -> Result<Rewritten, Status>
    ensures made { IfOk result (λ r. IsMadeOf (inputs_read args.now) (F.seen files.old) (made_by r)) }
    ensures unprinted { OnOk result (O.seen out.new ≡ O.seen out.old) }
    // For any standard input, which is unchanged.
    ensures stopped { (input : SourceSeen) → IfErr result (IsStopped IsRefused (inputs_read args.now)
        (world (F.seen files.old) input (O.seen out.old)) (world (F.seen files.new) input (O.seen out.new))) }
    ensures kept { Unchanged (F.seen files.old).content (F.seen files.new).content }
    ensures files_go_on { FilesGoOn (F.seen files.old) (F.seen files.new) }
    ensures faults { (O.seen out.old).faults ≤ (O.seen out.new).faults }
{
    let inputs = read_inputs(alloc, args, files, out)?;
    match rewrite(alloc, &inputs.file, &inputs.profile) {
        Ok(rewritten) => Ok(rewritten),
        Err(refusal) => Err(refuse(alloc, refusal, out)),
    }
}
