// Relocations for parts of absolute addresses.
ghost use Rattle.std.specs.Prelude.{◌≡◌, ◌↔◌, ℕ, pos, IfSome, IsTrue, Some, Contains};
ghost use Rattle.rv_code.specs.isa.HiLo.{hi20, lo12};
ghost use Rattle.elf_code.specs.FileCode.{AreStarts};
ghost use Rattle.elf_code.specs.Relocations.{relocations, is_absolute};
ghost use Rattle.elf_code.specs.Roles.{AbsoluteTo};
ghost use Rattle.elf_code.specs.ReferenceFaults.{HasAbsolute, IsBadAbsolute};
ghost use Rattle.rv_reloc.specs.Instructions.{HasPart};
ghost use Rattle.code_starts.specs.Parts.{AreCodeParts};
ghost use Rattle.rv_reloc.specs.Records.{seen};

use crate::instructions::lui_of;
use crate::labels::label;
use crate::lows::lower_immediate;
use crate::records::Record;
use crate::targets::natural;
use crate::types::is_absolute;
use code_starts::code::full_at;
use code_starts::parts::Part;
use code_starts::start_index::Starts;
use elf_image::Elf;
use elf_image::relocation::R_RISCV_HI20;
use rv_code::Inst;

// The upper part of an address in a LUI, `%hi`. psABI, "Absolute Addresses".
fn hi20(address: u64) -> i64
    ensures { result ≡ hi20 (pos address) }
{
    ((address as i128 + 0x800) >> 12) as i64
}

// The lower part of an address, `%lo`, as a signed 12-bit number.
fn lo12(address: u64) -> i64
    ensures { result ≡ lo12 (pos address) }
{
    (address as i128 - 4096 * hi20(address) as i128) as i64
}

/// The code address of a relocation for a part of an absolute address. None if its label isn't a code address.
pub fn absolute_target(elf: &Elf, starts: &Starts, relocation: &Record) -> Option<u64>
    requires starts { AreStarts elf.now starts.now }
    requires counts { Contains (relocations elf.now) (seen relocation.now) }
    ensures there { IfSome result (AbsoluteTo elf.now (seen relocation.now)) }
    ensures only { (target : ℕ) → AbsoluteTo elf.now (seen relocation.now) target → result ≡ Some target }
{
    // This call only has an effect on the proof: the members of the list fit 64 bits.
    let _list = starts.list();
    let target = natural(label(elf, relocation))?;
    if starts.has(target) {
        Some(target)
    } else {
        None
    }
}

// Whether an instruction has the part of an address that belongs to a type of relocation.
fn has_part(kind: u32, inst: &Inst, target: u64) -> bool
    ensures { IsTrue result ↔ HasPart kind inst.now target }
{
    if kind == R_RISCV_HI20 {
        match lui_of(inst) {
            Some(upper) => upper.imm == hi20(target),
            None => false,
        }
    } else {
        match lower_immediate(kind, inst) {
            Some(imm) => imm == lo12(target),
            None => false,
        }
    }
}

/// Whether a relocation is on an instruction with the correct part of its address.
pub fn has_absolute(
    elf: &Elf,
    starts: &Starts,
    parts: &[Part],
    relocation: &Record,
    target: u64,
) -> bool
    requires starts { AreStarts elf.now starts.now }
    requires parts { AreCodeParts elf.now parts.now }
    requires kind { IsTrue (is_absolute relocation.now.kind) }
    ensures { IsTrue result ↔ HasAbsolute elf.now (seen relocation.now) target }
{
    match full_at(elf, starts, parts, relocation.place) {
        Some(inst) => has_part(relocation.kind, &inst, target),
        None => false,
    }
}

/// Whether a relocation for a part of a code address isn't on its instruction, or the instruction has another number.
pub fn is_bad_absolute(elf: &Elf, starts: &Starts, parts: &[Part], relocation: &Record) -> bool
    requires starts { AreStarts elf.now starts.now }
    requires parts { AreCodeParts elf.now parts.now }
    requires counts { Contains (relocations elf.now) (seen relocation.now) }
    ensures { IsTrue result ↔ IsBadAbsolute elf.now (seen relocation.now) }
{
    if !is_absolute(relocation.kind) {
        return false;
    }
    match absolute_target(elf, starts, relocation) {
        Some(target) => !has_absolute(elf, starts, parts, relocation, target),
        None => false,
    }
}
