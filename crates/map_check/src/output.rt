// Instructions in the code of the output.
ghost use Rattle.std.specs.Prelude.{◌≡◌, ◌↔◌, ◌⊎◌, ◌≤◌, ◌^◌, ℕ, ℤ, IsTrue, IsFalse, None};
ghost use Rattle.rv_code.specs.declared.inst.Inst.{Inst};
ghost use Rattle.elf_image.specs.memory.Image.{segment_of};
ghost use Rattle.elf_image.specs.memory.LoadedBytes.{byte_at};
ghost use Rattle.elf_code.specs.Parts.{halfword_in, length_in};
ghost use Rattle.rv_code.specs.machine.Machine.{plus};
ghost use Rattle.rv_code.specs.isa.TwosComplement.{unsigned64};
ghost use Rattle.elf_image.specs.memory.Executables.{AreCodeBytes, IsCodeByte, executable_read, memory_of};
ghost use Rattle.move_law.specs.Rewrite.{Goes, HasAt, width_at};
ghost use Rattle.code_starts.specs.LoadedMemory.{IsLow};
ghost use Rattle.map_check.specs.internal.OutputCode.{FindsAt, Jumps, byte_or_zero, leads_to};

use crate::code_bytes::are_code_bytes;
use elf_image::Elf;
use rv_code::flow::moved_by;
use rv_code::{Inst, ZERO};
use rv_decode::decode;

// The byte at `address`; 0 if none is loaded, or if there is no address.
pub(crate) fn byte_or_zero(elf: &Elf, address: Option<u64>) -> u8
    ensures { result ≡ byte_or_zero elf.now address }
{
    match address {
        Some(address) => elf.image_byte(address).unwrap_or(0),
        None => 0,
    }
}

// The halfword at `address`. A byte that isn't loaded counts as zero.
fn halfword_at(elf: &Elf, address: u64) -> u16
    requires { IsLow elf.now }
    ensures { result ≡ halfword_in (memory_of (executable_read elf.now)) address }
{
    let low = byte_or_zero(elf, Some(address));
    let high = byte_or_zero(elf, address.checked_add(1));
    low as u16 + 256 * high as u16
}

/// The length in bytes of the instruction at `address`, by the two lowest bits of its first byte: 4 if both are set,
/// otherwise 2.
pub fn width_at(elf: &Elf, address: u64) -> u8
    requires { IsLow elf.now }
    ensures { result ≡ width_at (executable_read elf.now) address }
{
    let half = halfword_at(elf, address);
    if half % 4 == 3 { 4 } else { 2 }
}

/// The instruction at `address` and its width, if there is one and all its bytes are code.
pub fn inst_at(elf: &Elf, address: u64) -> Option<(Inst, u8)>
    requires { IsLow elf.now }
    ensures { FindsAt (executable_read elf.now) address result }
{
    let half = halfword_at(elf, address);
    let width = if half % 4 == 3 { 4 } else { 2 };
    if !are_code_bytes(elf, address, width) {
        return None;
    }
    let next = match address.checked_add(2) {
        Some(after) => halfword_at(elf, after),
        None => 0,
    };
    decode(half, Some(next))
}

// Whether `inst`, at `from`, is a JAL to `to` that saves no return address.
fn leads_to(inst: &Inst, from: u64, to: u64) -> bool
    ensures { result ≡ leads_to inst.now from to }
{
    match *inst {
        Inst::Jal { rd, imm } => rd == ZERO && moved_by(from, imm) == to,
        _ => false,
    }
}

// Whether there is a JAL at `from` to `to` that saves no return address.
fn jumps(elf: &Elf, from: u64, to: u64) -> bool
    requires { IsLow elf.now }
    ensures { IsTrue result ↔ Jumps (executable_read elf.now) from to }
{
    match inst_at(elf, from) {
        Some((inst, _)) => leads_to(&inst, from, to),
        None => false,
    }
}

/// Whether control goes from `from` to `to`: they are equal, or there is a jump.
pub fn goes(elf: &Elf, from: u64, to: u64) -> bool
    requires { IsLow elf.now }
    ensures { IsTrue result ↔ Goes (executable_read elf.now) from to }
{
    from == to || jumps(elf, from, to)
}
