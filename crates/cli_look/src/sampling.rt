// The command `sample`: a sample is made, and then its file, its profile and the line are written.
ghost use Rattle.std.specs.Prelude.{◌≢◌, ◌≤◌};
ghost use Rattle.rb_io.specs.Views.{FilesGoOn, SourceSeen};
ghost use Rattle.cli_base.specs.World.{world};
ghost use Rattle.cli_look.specs.SampleAnswers.{SampleServes, SampleWritten};
ghost use Rattle.cli_args.specs.Args.{IsSampleNumber, sample_given};

use crate::lines;
use cli_args::SampleArgs;
use cli_base::Status;
use rb_io::{Files, Put, Sink, Wrote, print_all};
use std::alloc::Global;

// Writes both files, and then prints the line.
fn write_sample<F: Files, O: Sink>(
    args: &SampleArgs<'_>,
    file: &[u8],
    profile: &[u8],
    line: &[u8],
    files: &mut F,
    out: &mut O,
) -> Status
    requires { args.now.file.now ≢ args.now.profile.now }
    ensures written { (input : SourceSeen) → SampleWritten (sample_given args.now) file.now profile.now
        (world (F.seen files.old) input (O.seen out.old)) (world (F.seen files.new) input (O.seen out.new)) line.now
        result }
    ensures files_go_on { FilesGoOn (F.seen files.old) (F.seen files.new) }
    ensures never_falls { (O.seen out.old).faults ≤ (O.seen out.new).faults }
{
    if files.write_all(args.file, file) == Wrote::Failed {
        return Status::WriteFault;
    }
    if files.write_all(args.profile, profile) == Wrote::Failed {
        return Status::WriteFault;
    }
    match print_all(out, line) {
        Put::Took(_) => Status::Ok,
        Put::Failed => Status::WriteFault,
    }
}

/// Does `sample`.
pub fn sample<F: Files, O: Sink>(
    alloc: Global,
    args: &SampleArgs<'_>,
    files: &mut F,
    out: &mut O,
) -> Status
    requires number { IsSampleNumber args.now.number }
    requires apart { args.now.file.now ≢ args.now.profile.now }
    // For any standard input, which is unchanged.
    ensures { (input : SourceSeen) → SampleServes (sample_given args.now) result
        (world (F.seen files.old) input (O.seen out.old)) (world (F.seen files.new) input (O.seen out.new)) }
{
    let Ok((file, profile)) = sample_gen::sample(alloc, args.number) else {
        return Status::NoMemory;
    };
    let Ok(line) = lines::sampled(alloc, args.number) else {
        return Status::NoMemory;
    };
    write_sample(args, &file, &profile, &line, files, out)
}
