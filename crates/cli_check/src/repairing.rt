// The command `repair`. The profile and the lines are made first; then the profile is written, and then the lines are
// printed. So a file that is refused changes nothing.
ghost use Rattle.std.specs.Prelude.{◌≤◌};
ghost use Rattle.rb_io.specs.Views.{FilesGoOn, SourceSeen};
ghost use Rattle.cli_base.specs.World.{world};
ghost use Rattle.cli_check.specs.Phases.{RepairWritten};
ghost use Rattle.cli_check.specs.RepairAnswers.{RepairServes};
ghost use Rattle.cli_args.specs.Args.{repair_given};

use crate::making::{Outputs, repaired};
use cli_args::RepairArgs;
use cli_base::{Status, read_inputs, refuse};
use rb_io::{Files, Put, Sink, Wrote, print_all};
use std::alloc::Global;

// Writes the repaired profile to the file `name`, and then prints the lines.
fn write_repaired<F: Files, O: Sink>(
    name: &str,
    made: &Outputs,
    files: &mut F,
    out: &mut O,
) -> Status
    ensures written { (input : SourceSeen) → RepairWritten result name.now made.now.profile.items made.now.lines.items
        (world (F.seen files.old) input (O.seen out.old)) (world (F.seen files.new) input (O.seen out.new)) }
    ensures files_go_on { FilesGoOn (F.seen files.old) (F.seen files.new) }
    ensures never_falls { (O.seen out.old).faults ≤ (O.seen out.new).faults }
{
    if files.write_all(name, &made.profile) == Wrote::Failed {
        return Status::WriteFault;
    }
    match print_all(out, &made.lines) {
        Put::Took(_) => Status::Ok,
        Put::Failed => Status::WriteFault,
    }
}

/// Does `repair`.
pub fn repair<F: Files, O: Sink>(
    alloc: Global,
    args: &RepairArgs<'_>,
    files: &mut F,
    out: &mut O,
) -> Status
    // For any standard input, which is unchanged.
    ensures { (input : SourceSeen) → RepairServes (repair_given args.now) result
        (world (F.seen files.old) input (O.seen out.old)) (world (F.seen files.new) input (O.seen out.new)) }
{
    let inputs = match read_inputs(alloc, &args.inputs, files, out) {
        Ok(inputs) => inputs,
        Err(answer) => return answer,
    };
    match repaired(alloc, &inputs) {
        Ok(made) => write_repaired(args.out, &made, files, out),
        Err(refusal) => refuse(alloc, refusal, out),
    }
}
