// Limits on files and on their code.
ghost use Rattle.std.specs.Prelude.{ℕ, ◌≡◌, ◌↔◌, IfErr, IsTrue, OnOk};
ghost use Rattle.elf_image.specs.file.ParsedFile.{IsElfOf};
ghost use Rattle.program.specs.Limits.{HasTooMuchCode, IsCodeTooLarge, IsLimitFault};
ghost use Rattle.program.specs.Refusals.{IsRefusalFor};
ghost use Rattle.program.specs.internal.ReadSections.{section_code_bytes};

use elf_image::{Elf, Section};
use rb_bytes::fault::{Fault, FaultKind, Refusal};
use rb_bytes::limit::{CODE_BYTES, FUNCTIONS};
use rv_code::Func;

/// The size limit of a file, and of a profile, in bytes: 64 MiB.
pub const FILE_LIMIT: usize = 64 * 1024 * 1024;

// The limit on the sum of the sizes of code sections, in bytes: 16 MiB.
const CODE_LIMIT: u64 = 16 * 1024 * 1024;

// The limit on the number of functions.
const FUNCTION_LIMIT: usize = 200_000;

// The size of a section in bytes, if it has code.
fn code_bytes(section: &Section<'_>) -> u64
    ensures { result ≡ section_code_bytes section.now }
{
    if section.holds_code() {
        section.size
    } else {
        0
    }
}

/// Whether the code sections are larger together than the limit.
pub fn has_too_much_code(elf: &Elf<'_>) -> bool
    requires { IsElfOf elf.now.file.now elf.now }
    ensures { IsTrue result ↔ HasTooMuchCode elf.now.file.now }
{
    let mut room = CODE_LIMIT;
    for section in &elf.sections {
        let size = code_bytes(section);
        if size > room {
            return true;
        }
        room -= size;
    }
    false
}

/// Refuses a file whose code exceeds a limit: `TooLarge` at 2 (`CODE_BYTES`) for its size, otherwise at 3 (`FUNCTIONS`)
/// for the number of its functions.
pub fn check_code(elf: &Elf<'_>, funcs: &[Func]) -> Result<(), Refusal>
    requires { IsElfOf elf.now.file.now elf.now }
    ensures within { OnOk result ((place : ℕ) → IsCodeTooLarge elf.now.file.now funcs.now place → ⊥) }
    ensures refused { IfErr result (IsRefusalFor (IsLimitFault (IsCodeTooLarge elf.now.file.now funcs.now))) }
{
    if has_too_much_code(elf) {
        return Err(Refusal::Fault(Fault::at(FaultKind::TooLarge, CODE_BYTES)));
    }
    if funcs.len() > FUNCTION_LIMIT {
        return Err(Refusal::Fault(Fault::at(FaultKind::TooLarge, FUNCTIONS)));
    }
    Ok(())
}
