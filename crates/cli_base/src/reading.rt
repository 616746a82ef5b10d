// Reading whole files.
ghost use Rattle.std.specs.Prelude.{◌≡◌, ◌≤◌, length, IfOk, IfErr, IsTrue, OnOk, Some};
ghost use Rattle.rb_io.specs.Names.{Unchanged};
ghost use Rattle.rb_io.specs.Views.{FilesGoOn};
ghost use Rattle.cli_base.specs.Reading.{IsUnread};
ghost use Rattle.cli_base.specs.WithinLimit.{FitsLimit, IsGiven, IsUnreadable};

use crate::refusal::refuse;
use crate::status::Status;
use rb_bytes::fault::{Fault, FaultKind, Refusal};
use rb_bytes::limit::FILE_BYTES;
use rb_io::{Files, ReadAll, Sink};
use std::alloc::Global;

/// The content of a file, or `None` if it has more than `limit` bytes. The error is the command's result: the file
/// can't be read, or memory ran out.
pub fn read_within<F: Files>(
    alloc: Global,
    name: &str,
    limit: usize,
    files: &mut F,
) -> Result<Option<Vec<u8>>, Status>
    ensures given { IfOk result (λ given. IsTrue (F.seen files.old).told →
        IsGiven limit ((F.seen files.old).content name.now) given) }
    ensures fits { IfOk result (FitsLimit limit) }
    ensures unread { IfErr result (IsUnreadable name.now (F.seen files.old) (F.seen files.new)) }
    ensures kept { Unchanged (F.seen files.old).content (F.seen files.new).content }
    ensures files_go_on { FilesGoOn (F.seen files.old) (F.seen files.new) }
{
    let mut file = Vec::new(alloc);
    match files.read_all(name, limit, &mut file) {
        ReadAll::Done => Ok(Some(file)),
        ReadAll::TooLong => Ok(None),
        ReadAll::Failed => Err(Status::ReadFault),
        ReadAll::Memory => Err(Status::NoMemory),
    }
}

/// The content of a file of at most `limit` bytes. The error is the command's result. For a longer file the line that
/// refuses it has been printed, or its printing failed.
pub fn read_file<F: Files, O: Sink>(
    alloc: Global,
    name: &str,
    limit: usize,
    files: &mut F,
    out: &mut O,
) -> Result<Vec<u8>, Status>
    ensures read { IfOk result (λ file. IsTrue (F.seen files.old).told →
        (F.seen files.old).content name.now ≡ Some file.items) }
    ensures fits { IfOk result (λ file. length file.items ≤ limit) }
    ensures unprinted { OnOk result (O.seen out.new ≡ O.seen out.old) }
    ensures unread { IfErr result
        (IsUnread name.now limit (F.seen files.old) (F.seen files.new) (O.seen out.old) (O.seen out.new)) }
    ensures kept { Unchanged (F.seen files.old).content (F.seen files.new).content }
    ensures files_go_on { FilesGoOn (F.seen files.old) (F.seen files.new) }
    ensures never_falls { (O.seen out.old).faults ≤ (O.seen out.new).faults }
{
    match read_within(alloc, name, limit, files)? {
        Some(file) => Ok(file),
        None => {
            let fault = Fault::at(FaultKind::TooLarge, FILE_BYTES);
            Err(refuse(alloc, Refusal::Fault(fault), out))
        }
    }
}
