// Valid instructions, and nops.
ghost use Rattle.std.specs.Prelude.{◌≡◌, ◌↔◌, ◌<◌, ℕ, IsTrue, IfSome, Some};
ghost use Rattle.rv_code.specs.declared.inst.Inst.{Inst};
ghost use Rattle.code_starts.specs.LoadedMemory.{AreBytesFrom};
ghost use Rattle.func_find.specs.ValidInsts.{IsValidBefore, IsNopBefore};

use code_starts::code::{halfword_at, inst_among};
use code_starts::loaded::bytes_from;
use elf_image::Elf;
use rv_code::Inst;

/// The instruction at an address, and its length in bytes, if it is valid there: it ends at or before `end`, the
/// address is even, and it only has two bytes if the file's flags say that the file has such instructions.
pub fn valid_before(elf: &Elf, end: u64, address: u64) -> Option<(Inst, u8)>
    requires { address < end }
    ensures there { IfSome result (λ r. IsValidBefore elf.now end address r.0 r.1) }
    ensures only { (inst : Inst) (bytes : ℕ) → IsValidBefore elf.now end address inst bytes →
        result ≡ Some (inst, bytes) }
{
    valid_among(elf, bytes_from(elf, address), end, address)
}

/// The result of `valid_before`, by loaded `bytes` from that address on.
pub fn valid_among(elf: &Elf, bytes: &[u8], end: u64, address: u64) -> Option<(Inst, u8)>
    requires inside { address < end }
    requires bytes { AreBytesFrom elf.now address bytes.now }
    ensures there { IfSome result (λ r. IsValidBefore elf.now end address r.0 r.1) }
    ensures only { (inst : Inst) (bytes : ℕ) → IsValidBefore elf.now end address inst bytes →
        result ≡ Some (inst, bytes) }
{
    let (inst, size) = inst_among(elf, bytes, end, address)?;
    if address % 2 != 0 {
        return None;
    }
    if size == 2 && elf.flags == 0 {
        return None;
    }
    Some((inst, size))
}

/// Whether there is a nop at an address that ends at or before `end`.
pub fn is_nop_before(elf: &Elf, end: u64, address: u64) -> bool
    ensures { IsTrue result ↔ IsNopBefore elf.now end address }
{
    let left = end.saturating_sub(address);
    if left < 2 {
        return false;
    }
    let half = halfword_at(elf, address);
    // C.NOP.
    if half == 0x0001 {
        return true;
    }
    // ADDI x0,x0,0 is the word 0x00000013.
    if left < 4 || half != 0x0013 {
        return false;
    }
    halfword_at(elf, address + 2) == 0
}
