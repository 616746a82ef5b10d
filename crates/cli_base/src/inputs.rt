// Reading an input with its profile, for the commands that take both.
ghost use Rattle.std.specs.Prelude.{◌≡◌, ◌⊎◌, ◌≤◌, length, IfErr, IfOk, IsTrue, OnOk};
ghost use Rattle.rb_io.specs.Names.{Unchanged};
ghost use Rattle.rb_io.specs.Views.{FilesGoOn, SourceSeen};
ghost use Rattle.program.specs.Limits.{file_limit};
ghost use Rattle.cli_base.specs.BothRead.{BothRead};
ghost use Rattle.cli_base.specs.Inputs.{AreRead, IsStopped, IsTooLong};
ghost use Rattle.cli_args.specs.Args.{inputs_read};
ghost use Rattle.cli_base.specs.WithinLimit.{FitsLimit, IsUnreadable};
ghost use Rattle.cli_base.specs.World.{world};

use crate::reading::read_within;
use crate::refusal::refuse;
use crate::status::Status;
use cli_args::InputArgs;
use program::FILE_LIMIT;
use rb_bytes::fault::{Fault, FaultKind, Refusal};
use rb_bytes::limit::{FILE_BYTES, PROFILE_BYTES};
use rb_io::{Files, Sink};
use std::alloc::Global;

/// An input and its profile, each of at most 64 MiB.
#[derive(Drop)]
pub struct Inputs {
    pub file: Vec<u8>,
    pub profile: Vec<u8>,
}

// Reads the input and then its profile, before either is checked. `None` for a file that is too long.
fn read_both<F: Files>(
    alloc: Global,
    args: &InputArgs<'_>,
    files: &mut F,
) -> Result<(Option<Vec<u8>>, Option<Vec<u8>>), Status>
    ensures read { IfOk result (λ both. IsTrue (F.seen files.old).told →
        BothRead (F.seen files.old).content (inputs_read args.now) both.0 both.1) }
    ensures file_fits { IfOk result (λ both. FitsLimit file_limit both.0) }
    ensures profile_fits { IfOk result (λ both. FitsLimit file_limit both.1) }
    ensures unread { IfErr result (λ answer.
        IsUnreadable args.now.file.now (F.seen files.old) (F.seen files.new) answer
        ⊎ IsUnreadable args.now.profile.now (F.seen files.old) (F.seen files.new) answer) }
    ensures kept { Unchanged (F.seen files.old).content (F.seen files.new).content }
    ensures files_go_on { FilesGoOn (F.seen files.old) (F.seen files.new) }
{
    let file = read_within(alloc, args.file, FILE_LIMIT, files)?;
    let profile = read_within(alloc, args.profile, FILE_LIMIT, files)?;
    Ok((file, profile))
}

/// Reads an input and its profile. The error is the command's result. If a file is too long, the line that refuses it
/// has been printed, or its printing failed.
pub fn read_inputs<F: Files, O: Sink>(
    alloc: Global,
    args: &InputArgs<'_>,
    files: &mut F,
    out: &mut O,
) -> Result<Inputs, Status>
    ensures read { IfOk result (λ inputs. IsTrue (F.seen files.old).told →
        AreRead (F.seen files.old).content (inputs_read args.now) inputs.file.items inputs.profile.items) }
    ensures file_fits { IfOk result (λ inputs. length inputs.file.items ≤ file_limit) }
    ensures profile_fits { IfOk result (λ inputs. length inputs.profile.items ≤ file_limit) }
    ensures unprinted { OnOk result (O.seen out.new ≡ O.seen out.old) }
    // For any standard input, which is unchanged.
    ensures stopped { (input : SourceSeen) → IfErr result (IsStopped IsTooLong (inputs_read args.now)
        (world (F.seen files.old) input (O.seen out.old)) (world (F.seen files.new) input (O.seen out.new))) }
    ensures kept { Unchanged (F.seen files.old).content (F.seen files.new).content }
    ensures files_go_on { FilesGoOn (F.seen files.old) (F.seen files.new) }
    ensures faults { (O.seen out.old).faults ≤ (O.seen out.new).faults }
{
    let (file, profile) = read_both(alloc, args, files)?;
    let Some(file) = file else {
        let fault = Fault::at(FaultKind::TooLarge, FILE_BYTES);
        return Err(refuse(alloc, Refusal::Fault(fault), out));
    };
    let Some(profile) = profile else {
        let fault = Fault::at(FaultKind::TooLarge, PROFILE_BYTES);
        return Err(refuse(alloc, Refusal::Fault(fault), out));
    };
    Ok(Inputs { file, profile })
}
