// Instructions at their addresses.
ghost use Rattle.std.specs.Prelude.{◌≡◌, ◌↔◌, ◌<◌, ◌≤◌, ◌+◌, ◌*◌, ◌^◌, ℕ, IsTrue, IfSome, Some, Contains, AllPairs};
ghost use Rattle.rv_code.specs.declared.inst.Inst.{Inst};
ghost use Rattle.elf_code.specs.FileCode.{AreStarts};
ghost use Rattle.elf_code.specs.Parts.{halfword_at};
ghost use Rattle.elf_code.specs.Roles.{IsFullAt};
ghost use Rattle.code_starts.specs.LoadedMemory.{AreBytesFrom};
ghost use Rattle.code_starts.specs.Parts.{AreCodeParts, IsInstBefore};

use crate::loaded::bytes_from;
use crate::parts::Part;
use crate::start_index::Starts;
use elf_image::Elf;
use rv_code::Inst;
use rv_decode::decode;

/// Whether an address is in an ascending list, by a binary search.
pub fn is_start(addresses: &[u64], address: u64) -> bool
    requires { AllPairs (λ a b. a < b) addresses.now }
    ensures { IsTrue result ↔ Contains addresses.now address }
{
    addresses.binary_search(&address).is_ok()
}

/// The little-endian halfword at an address. Bytes that aren't loaded count as zero.
pub fn halfword_at(elf: &Elf, address: u64) -> u16
    requires { address + 1 < 2 ^ 64 }
    ensures { result ≡ halfword_at elf.now address }
{
    let bytes = bytes_from(elf, address);
    if bytes.len() < 2 {
        let low = elf.image_byte(address).unwrap_or(0);
        let high = elf.image_byte(address + 1).unwrap_or(0);
        return halfword(low, high);
    }
    halfword(bytes[0], bytes[1])
}

/// The halfword with these two bytes.
pub(crate) fn halfword(low: u8, high: u8) -> u16
    ensures { result ≡ low + 256 * high }
{
    low as u16 + 256 * high as u16
}

// The halfwords at an address and after it, from the bytes from that address on, if these have both.
fn halfwords_at(elf: &Elf, bytes: &[u8], address: u64) -> (u16, u16)
    requires low { address + 3 < 2 ^ 64 }
    requires bytes { AreBytesFrom elf.now address bytes.now }
    ensures first { result.0 ≡ halfword_at elf.now address }
    ensures second { result.1 ≡ halfword_at elf.now (address + 2) }
{
    if bytes.len() < 4 {
        return (halfword_at(elf, address), halfword_at(elf, address + 2));
    }
    (halfword(bytes[0], bytes[1]), halfword(bytes[2], bytes[3]))
}

/// The instruction at an address, and its length in bytes, if it ends at or before `end`.
pub fn inst_before(elf: &Elf, end: u64, address: u64) -> Option<(Inst, u8)>
    requires { address < end }
    ensures there { IfSome result (λ r. IsInstBefore elf.now end address r.0 r.1) }
    ensures only { (inst : Inst) (bytes : ℕ) → IsInstBefore elf.now end address inst bytes →
        result ≡ Some (inst, bytes) }
{
    inst_among(elf, bytes_from(elf, address), end, address)
}

/// The result of `inst_before`, by loaded `bytes` from that address on. If they are too few, memory is searched.
pub fn inst_among(elf: &Elf, bytes: &[u8], end: u64, address: u64) -> Option<(Inst, u8)>
    requires inside { address < end }
    requires bytes { AreBytesFrom elf.now address bytes.now }
    ensures there { IfSome result (λ r. IsInstBefore elf.now end address r.0 r.1) }
    ensures only { (inst : Inst) (bytes : ℕ) → IsInstBefore elf.now end address inst bytes →
        result ≡ Some (inst, bytes) }
{
    if end - address < 2 {
        return None;
    }
    if end - address < 4 {
        return decode(halfword_at(elf, address), None);
    }
    let (half, next) = halfwords_at(elf, bytes, address);
    decode(half, Some(next))
}

// The four-byte instruction at an address, if it ends at or before `end`.
fn full_before(elf: &Elf, end: u64, address: u64) -> Option<Inst>
    requires { address < end }
    ensures there { IfSome result (λ inst. IsInstBefore elf.now end address inst 4) }
    ensures only { (inst : Inst) → IsInstBefore elf.now end address inst 4 → result ≡ Some inst }
{
    let (inst, bytes) = inst_before(elf, end, address)?;
    if bytes == 4 { Some(inst) } else { None }
}

/// The four-byte instruction that starts at an address. `starts` and `parts` are those of the file.
pub fn full_at(elf: &Elf, starts: &Starts, parts: &[Part], address: u64) -> Option<Inst>
    requires starts { AreStarts elf.now starts.now }
    requires parts { AreCodeParts elf.now parts.now }
    ensures there { IfSome result (IsFullAt elf.now address) }
    ensures only { (inst : Inst) → IsFullAt elf.now address inst → result ≡ Some inst }
{
    if !starts.has(address) {
        return None;
    }
    let part = starts.part_at(parts, address)?;
    full_before(elf, part.end, address)
}
