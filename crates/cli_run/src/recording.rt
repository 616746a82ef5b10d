// The command `record`: the file is read completely, and runs on the byte machine. A profile of the run is written, and
// then its closing line.
ghost use Rattle.std.specs.Prelude.{◌≤◌};
ghost use Rattle.rb_io.specs.Views.{FilesGoOn, SourceSeen};
ghost use Rattle.rv_memory.specs.Limits.{IsWithinLimits};
ghost use Rattle.rv_machine.specs.StepResults.{answered};
ghost use Rattle.program.specs.Program.{program_seen};
ghost use Rattle.cli_base.specs.ProgramFiles.{IsFileProgram};
ghost use Rattle.cli_base.specs.Served.{IsInputKept};
ghost use Rattle.cli_args.specs.Args.{record_given, run_given};
ghost use Rattle.cli_run.specs.recording.Phases.{Finished, ProfileWritten};
ghost use Rattle.cli_run.specs.recording.RecordAnswers.{IsAnsweredRecording, RecordServes};
ghost use Rattle.cli_run.specs.run.RunOutcomes.{closing_line};
ghost use Rattle.cli_base.specs.World.{world};

use crate::closing::{closing_line, status_of};
use cli_args::RecordArgs;
use cli_base::{Status, file_program, read_file, refuse};
use edge_record::{Recorded, trace_edges};
use program::{FILE_LIMIT, Program};
use rb_io::{Files, Put, Sink, Source, Wrote, print_all};
use std::alloc::Global;

// Writes the profile of a run to the file `name`, and then prints the closing line. The line is made first, so that the
// file is unchanged if memory runs out.
fn write_profile<F: Files, O: Sink>(
    alloc: Global,
    name: &str,
    recorded: &Recorded,
    came: Status,
    files: &mut F,
    out: &mut O,
) -> Status
    ensures written { (input seen : SourceSeen) → ProfileWritten result came name.now recorded.now.text.items
        (closing_line came recorded.now.ran.steps)
        (world (F.seen files.old) input (O.seen out.old)) (world (F.seen files.new) seen (O.seen out.new)) }
    ensures files_go_on { FilesGoOn (F.seen files.old) (F.seen files.new) }
    ensures never_falls { (O.seen out.old).faults ≤ (O.seen out.new).faults }
{
    let Ok(line) = closing_line(alloc, came, recorded.ran.steps) else {
        return Status::NoMemory;
    };
    if files.write_all(name, &recorded.text) == Wrote::Failed {
        return Status::WriteFault;
    }
    match print_all(out, &line) {
        Put::Took(_) => came,
        Put::Failed => Status::WriteFault,
    }
}

// Writes the profile and the closing line after a run that wasn't interrupted.
fn finish<F: Files, O: Sink>(
    alloc: Global,
    name: &str,
    recorded: &Recorded,
    files: &mut F,
    out: &mut O,
) -> Status
    ensures finished { (input seen : SourceSeen) → Finished result name.now recorded.now.text.items
        recorded.now.ran.steps
        (world (F.seen files.old) input (O.seen out.old)) (world (F.seen files.new) seen (O.seen out.new))
        (answered recorded.now.ran.end) }
    ensures files_go_on { FilesGoOn (F.seen files.old) (F.seen files.new) }
    ensures never_falls { (O.seen out.old).faults ≤ (O.seen out.new).faults }
{
    let came = status_of(recorded.ran.end);
    if came.is_outcome() {
        write_profile(alloc, name, recorded, came, files, out)
    } else {
        came
    }
}

// Runs a program, and writes a profile of the run.
fn record_elf<F: Files, I: Source, O: Sink>(
    alloc: Global,
    args: &RecordArgs<'_>,
    program: &Program<'_>,
    files: &mut F,
    input: &mut I,
    out: &mut O,
) -> Status
    requires limits { IsWithinLimits (run_given args.now.run).args }
    requires program { IsFileProgram program.now.elf.file.now (program_seen program.now) }
    ensures recorded { IsAnsweredRecording (program_seen program.now) (record_given args.now)
        (world (F.seen files.old) (I.seen input.old) (O.seen out.old))
        (world (F.seen files.new) (I.seen input.new) (O.seen out.new)) result }
    ensures files_go_on { FilesGoOn (F.seen files.old) (F.seen files.new) }
    ensures reads { (I.seen input.old).faults ≤ (I.seen input.new).faults }
    ensures writes { (O.seen out.old).faults ≤ (O.seen out.new).faults }
{
    let funcs = program.funcs.as_slice();
    let recorded = trace_edges(
        alloc,
        &program.elf,
        funcs,
        &program.blocks,
        args.run.args,
        args.run.limit,
        input,
        out,
    );
    finish(alloc, args.out, &recorded, files, out)
}

/// Does `record`.
pub fn record<F: Files, I: Source, O: Sink>(
    alloc: Global,
    args: &RecordArgs<'_>,
    files: &mut F,
    input: &mut I,
    out: &mut O,
) -> Status
    requires { IsWithinLimits (run_given args.now.run).args }
    ensures serves { RecordServes (record_given args.now) result
        (world (F.seen files.old) (I.seen input.old) (O.seen out.old))
        (world (F.seen files.new) (I.seen input.new) (O.seen out.new)) }
    // A run may read standard input; after a refusal it is unchanged.
    ensures input_kept { IsInputKept ⊥ result input.old input.new }
{
    let file = match read_file(alloc, args.run.file, FILE_LIMIT, files, out) {
        Ok(file) => file,
        Err(answer) => return answer,
    };
    match file_program(alloc, &file) {
        Ok(program) => record_elf(alloc, args, &program, files, input, out),
        Err(refusal) => refuse(alloc, refusal, out),
    }
}
