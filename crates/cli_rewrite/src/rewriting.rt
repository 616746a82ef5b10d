// The command `rewrite`: a rewrite is made, with all texts about it, and then the output, the map and the summary are
// written.
ghost use Rattle.std.specs.Prelude.{◌≡◌, ◌≢◌, ◌≤◌, IfOk};
ghost use Rattle.rb_io.specs.Views.{FilesGoOn, SourceSeen};
ghost use Rattle.cli_args.specs.Args.{names_read};
ghost use Rattle.cli_base.specs.World.{world};
ghost use Rattle.cli_rewrite.specs.InputAnswers.{made_by};
ghost use Rattle.cli_rewrite.specs.Phases.{AreTextsOf, OutputsWritten};
ghost use Rattle.cli_rewrite.specs.RewriteAnswers.{RewriteServes};

use crate::inputs::rewrite_inputs;
use crate::lines;
use bolt_core::Rewritten;
use cli_args::RewriteArgs;
use cli_base::Status;
use rb_bytes::fault::NoMemory;
use rb_io::{Files, Put, Sink, Wrote, print_all};
use std::alloc::Global;

/// The texts about a rewrite.
#[derive(Drop)]
pub struct Texts {
    /// The text of its map.
    pub map: Vec<u8>,
    /// The line with its counts, which is printed.
    pub summary: Vec<u8>,
}

fn texts_of(alloc: Global, rewritten: &Rewritten) -> Result<Texts, NoMemory>
    ensures { IfOk result (AreTextsOf (made_by rewritten.now)) }
{
    let mut map = Vec::new(alloc);
    rewritten.map.text(&mut map)?;
    let summary = lines::moved(alloc, rewritten)?;
    Ok(Texts { map, summary })
}

// Writes the output, then the map, and then prints the summary. The first failure ends the command.
fn write_outputs<F: Files, O: Sink>(
    args: &RewriteArgs<'_>,
    files: &mut F,
    out: &mut O,
    rewritten: &Rewritten,
    texts: &Texts,
) -> Status
    requires { args.now.out.now ≢ args.now.map.now }
    ensures answer { (input : SourceSeen) → OutputsWritten result (names_read args.now)
        rewritten.now.file.items texts.now.map.items texts.now.summary.items
        (world (F.seen files.old) input (O.seen out.old)) (world (F.seen files.new) input (O.seen out.new)) }
    ensures files_go_on { FilesGoOn (F.seen files.old) (F.seen files.new) }
    ensures faults { (O.seen out.old).faults ≤ (O.seen out.new).faults }
{
    if files.write_all(args.out, &rewritten.file) == Wrote::Failed {
        return Status::WriteFault;
    }
    if files.write_all(args.map, &texts.map) == Wrote::Failed {
        return Status::WriteFault;
    }
    match print_all(out, &texts.summary) {
        Put::Took(_) => Status::Ok,
        Put::Failed => Status::WriteFault,
    }
}

/// Does `rewrite`.
pub fn rewrite<F: Files, O: Sink>(
    alloc: Global,
    args: &RewriteArgs<'_>,
    files: &mut F,
    out: &mut O,
) -> Status
    requires { args.now.out.now ≢ args.now.map.now }
    // For any standard input, which is unchanged.
    ensures { (input : SourceSeen) → RewriteServes (names_read args.now) result
        (world (F.seen files.old) input (O.seen out.old)) (world (F.seen files.new) input (O.seen out.new)) }
{
    let rewritten = match rewrite_inputs(alloc, &args.inputs, files, out) {
        Ok(rewritten) => rewritten,
        Err(answer) => return answer,
    };
    let Ok(texts) = texts_of(alloc, &rewritten) else {
        return Status::NoMemory;
    };
    write_outputs(args, files, out, &rewritten, &texts)
}
