// Reading a file as an image, for commands that use only the bytes that it loads.
ghost use Rattle.std.specs.Prelude.{◌≤◌, length, IfErr, IfOk, OnOk};
ghost use Rattle.elf_image.specs.file.ParsedFile.{IsElfOf};
ghost use Rattle.program.specs.Limits.{file_limit};
ghost use Rattle.program.specs.Refusals.{IsRefusalFor};
ghost use Rattle.cli_base.specs.ImageFiles.{IsImageFile, IsNoImage};

use elf_image::{Elf, read};
use program::has_too_much_code;
use rb_bytes::fault::{Fault, FaultKind, Refusal};
use rb_bytes::limit::CODE_BYTES;
use std::alloc::Global;

/// The image of a file of at most 64 MiB, or the fault for which it isn't one: one of 1 to 8, otherwise `TooLarge` at 2
/// (`CODE_BYTES`).
pub fn file_image<'file>(alloc: Global, file: &'file [u8]) -> Result<Elf<'file>, Refusal>
    requires fits { length file.now ≤ file_limit }
    ensures fields { IfOk result (IsElfOf file.now) }
    ensures image { OnOk result (IsImageFile file.now) }
    ensures fault { IfErr result (IsRefusalFor (IsNoImage file.now)) }
{
    let elf = read(alloc, file)?;
    if has_too_much_code(&elf) {
        return Err(Refusal::Fault(Fault::at(FaultKind::TooLarge, CODE_BYTES)));
    }
    Ok(elf)
}
