// Calls: an AUIPC followed by a JALR.
ghost use Rattle.std.specs.Prelude.{◌≡◌, ◌↔◌, ℕ, ℤ, ◌+◌, ◌<◌, ◌^◌, IfSome, OnSome, IsSome, IsTrue, Some, Contains};
ghost use Rattle.rv_code.specs.declared.inst.Inst.TheVariants.{Jalr};
ghost use Rattle.elf_code.specs.FileCode.{AreStarts};
ghost use Rattle.elf_code.specs.Parts.{IsStartIn};
ghost use Rattle.elf_code.specs.Relocations.{relocations};
ghost use Rattle.elf_code.specs.Roles.{IsFullAt, pair_target};
ghost use Rattle.elf_code.specs.ReferenceFaults.{IsAddress, IsBadCall};
ghost use Rattle.rv_reloc.specs.declared.instructions.Jump.{Jump};
ghost use Rattle.rv_reloc.specs.declared.calls.CallInsts.{CallInsts};
ghost use Rattle.rv_reloc.specs.Calls.{IsCallAt, IsJumpAfter, IsThrough, IsWeak, FitsCall, GoesTo, Names};
ghost use Rattle.code_starts.specs.Parts.{AreCodeParts};
ghost use Rattle.rv_reloc.specs.Records.{seen};

use crate::instructions::{Jump, Upper, auipc_at, jalr_of};
use crate::records::Record;
use crate::targets::{address_of, pair_target};
use crate::types::is_call_pair;
use code_starts::code::full_at;
use code_starts::parts::Part;
use code_starts::start_index::Starts;
use elf_image::Elf;

/// The two instructions of a call.
#[derive(Clone, Copy)]
pub struct CallInsts {
    pub auipc: Upper,
    pub jalr: Jump,
}

impl CallInsts {
    /// Whether the JALR jumps through the register that the AUIPC writes.
    pub fn is_through(&self) -> bool
        ensures { IsTrue result ↔ IsThrough self.now }
    {
        self.jalr.base == self.auipc.rd && self.jalr.base != 0
    }

    // Whether the call is one of an undefined weak symbol, as the linker writes it.
    fn is_weak(&self) -> bool
        ensures { IsTrue result ↔ IsWeak self.now }
    {
        self.jalr.base == 0 && self.auipc.imm == 0 && (self.auipc.rd == 0 || self.jalr.imm == 0)
    }

    /// The target of the call at `place`, if the JALR jumps through the register of the AUIPC.
    pub fn target(&self, place: u64) -> Option<u64>
        ensures is { IfSome result (GoesTo place self.now) }
        ensures each { IsThrough self.now → IsAddress (pair_target place self.now.auipc.imm self.now.jalr.imm) →
            IsSome result }
    {
        if self.is_through() {
            address_of(pair_target(place, self.auipc.imm, self.jalr.imm))
        } else {
            None
        }
    }

    /// The target in the role of the AUIPC at `place`: the call's target, or `place` itself if the JALR jumps through
    /// x0.
    pub fn named(&self, place: u64) -> Option<u64>
        ensures is { IfSome result (Names place self.now) }
        ensures each { FitsCall place self.now → IsSome result }
    {
        if self.jalr.base == 0 {
            Some(place)
        } else {
            self.target(place)
        }
    }

    // Whether the call at `place` has an address as its target, or is a call of an undefined weak symbol.
    fn fits(&self, place: u64) -> bool
        ensures { IsTrue result ↔ FitsCall place self.now }
    {
        if self.is_weak() {
            return true;
        }
        self.is_through() && address_of(pair_target(place, self.auipc.imm, self.jalr.imm)).is_some()
    }
}

fn jalr_at(elf: &Elf, starts: &Starts, parts: &[Part], address: u64) -> Option<Jump>
    requires starts { AreStarts elf.now starts.now }
    requires parts { AreCodeParts elf.now parts.now }
    ensures there { IfSome result (λ j. (link : ℕ) × IsFullAt elf.now address (Jalr link j.base j.imm)) }
    ensures only { (link base : ℕ) (imm : ℤ) → IsFullAt elf.now address (Jalr link base imm) →
        result ≡ Some (record { base = base; imm = imm }) }
{
    let inst = full_at(elf, starts, parts, address)?;
    jalr_of(&inst)
}

// The JALR after the instruction at an address, if it is in the same part.
fn jump_after(elf: &Elf, starts: &Starts, parts: &[Part], address: u64) -> Option<Jump>
    requires starts { AreStarts elf.now starts.now }
    requires parts { AreCodeParts elf.now parts.now }
    ensures there { IfSome result
        (λ j. (start end : ℕ) → IsStartIn elf.now start end address → IsJumpAfter elf.now start end address j) }
    ensures only { (start end : ℕ) (j : Jump) → IsStartIn elf.now start end address →
        IsJumpAfter elf.now start end address j →
        result ≡ Some j }
    ensures room { OnSome result (address + 4 < 2 ^ 64) }
{
    let part = starts.part_at(parts, address)?;
    if part.end - address <= 4 {
        return None;
    }
    jalr_at(elf, starts, parts, address + 4)
}

/// The call at an address, if there is one.
pub fn call_at(elf: &Elf, starts: &Starts, parts: &[Part], address: u64) -> Option<CallInsts>
    requires starts { AreStarts elf.now starts.now }
    requires parts { AreCodeParts elf.now parts.now }
    ensures there { IfSome result (IsCallAt elf.now address) }
    ensures only { (c : CallInsts) → IsCallAt elf.now address c → result ≡ Some c }
    ensures room { OnSome result (address + 4 < 2 ^ 64) }
{
    let auipc = auipc_at(elf, starts, parts, address)?;
    let jalr = jump_after(elf, starts, parts, address)?;
    Some(CallInsts { auipc, jalr })
}

/// Whether a relocation for a call isn't on a call, or the call's target isn't an address.
pub fn is_bad_call(elf: &Elf, starts: &Starts, parts: &[Part], relocation: &Record) -> bool
    requires starts { AreStarts elf.now starts.now }
    requires parts { AreCodeParts elf.now parts.now }
    requires counts { Contains (relocations elf.now) (seen relocation.now) }
    ensures { IsTrue result ↔ IsBadCall elf.now (seen relocation.now) }
{
    if !is_call_pair(relocation.kind) {
        return false;
    }
    match call_at(elf, starts, parts, relocation.place) {
        Some(call) => !call.fits(relocation.place),
        None => true,
    }
}
