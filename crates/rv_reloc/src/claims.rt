// The claims of relocations to roles.
ghost use Rattle.std.specs.Prelude.{◌≡◌, ◌+◌, ◌<◌, ◌^◌, ℕ, IfSome, IsSomeAnd, IsTrue, Contains};
ghost use Rattle.rv_code.specs.declared.placed.Role.{Role};
ghost use Rattle.elf_image.specs.declared.elf.Elf.{Elf};
ghost use Rattle.elf_code.specs.FileCode.{AreStarts};
ghost use Rattle.elf_code.specs.Relocations.{Relocation, relocations, is_call_pair, is_pcrel_hi, is_pcrel_lo};
ghost use Rattle.elf_code.specs.Relocations.{is_absolute};
ghost use Rattle.elf_code.specs.Roles.{Claims};
ghost use Rattle.elf_code.specs.ReferenceFaults.{IsMisfit, IsLoMismatch};
ghost use Rattle.rv_reloc.specs.Calls.{IsTheCallAt};
ghost use Rattle.rv_reloc.specs.Claims.{IsClaimOf, absolute_role};
ghost use Rattle.rv_reloc.specs.Lows.{AreLows};
ghost use Rattle.code_starts.specs.Parts.{AreCodeParts};
ghost use Rattle.rv_reloc.specs.Records.{seen};

use crate::absolute::{absolute_target, has_absolute};
use crate::calls::{CallInsts, call_at};
use crate::lows::{Low, first_low, low_of};
use crate::pairs::low_address;
use crate::records::Record;
use crate::roles::Claim;
use code_starts::parts::Part;
use code_starts::start_index::Starts;
use elf_image::Elf;
use elf_image::relocation::R_RISCV_HI20;
use rv_code::Role;

// The claim of a call to its AUIPC.
fn call_claim(relocation: &Record, call: &CallInsts) -> Option<Claim>
    requires kind { IsTrue (is_call_pair relocation.now.kind) }
    ensures is { (elf : Elf) → Contains (relocations elf) (seen relocation.now) →
        IsTheCallAt elf relocation.now.place call.now →
        IfSome result (IsClaimOf elf (seen relocation.now) relocation.now.place) }
    ensures each { (elf : Elf) → Contains (relocations elf) (seen relocation.now) →
        IsTheCallAt elf relocation.now.place call.now → (IsMisfit elf (seen relocation.now) → ⊥) →
        (key : ℕ) (role : Role) → Claims elf (seen relocation.now) relocation.now.place key role →
        IsSomeAnd result (λ c. c.key ≡ key) }
{
    let target = call.named(relocation.place)?;
    Some(Claim {
        at: relocation.place,
        kind: relocation.kind,
        key: relocation.place,
        role: Role::CallHi { target },
    })
}

// The claim of a call to its JALR.
fn call_low_claim(relocation: &Record, call: &CallInsts) -> Option<Claim>
    requires kind { IsTrue (is_call_pair relocation.now.kind) }
    requires room { relocation.now.place + 4 < 2 ^ 64 }
    ensures is { (elf : Elf) → Contains (relocations elf) (seen relocation.now) →
        IsTheCallAt elf relocation.now.place call.now →
        IfSome result (IsClaimOf elf (seen relocation.now) (relocation.now.place + 4)) }
    ensures each { (elf : Elf) → IsTheCallAt elf relocation.now.place call.now →
        (IsMisfit elf (seen relocation.now) → ⊥) →
        (key : ℕ) (role : Role) → Claims elf (seen relocation.now) (relocation.now.place + 4) key role →
        IsSomeAnd result (λ c. c.key ≡ key) }
{
    let target = call.target(relocation.place)?;
    Some(Claim {
        at: relocation.place + 4,
        kind: relocation.kind,
        key: relocation.place,
        role: Role::CallLo {
            hi: relocation.place,
            target,
        },
    })
}

/// The claims of a call to its AUIPC and to its JALR.
pub fn call_claims(
    elf: &Elf,
    starts: &Starts,
    parts: &[Part],
    relocation: &Record,
) -> (Option<Claim>, Option<Claim>)
    requires starts { AreStarts elf.now starts.now }
    requires parts { AreCodeParts elf.now parts.now }
    requires counts { Contains (relocations elf.now) (seen relocation.now) }
    requires kind { IsTrue (is_call_pair relocation.now.kind) }
    requires fits { IsMisfit elf.now (seen relocation.now) → ⊥ }
    ensures is { IfSome result.0 (IsClaimOf elf.now (seen relocation.now) relocation.now.place) }
    ensures each { (key : ℕ) (role : Role) → Claims elf.now (seen relocation.now) relocation.now.place key role →
        IsSomeAnd result.0 (λ c. c.key ≡ key) }
    ensures low_is { IfSome result.1 (IsClaimOf elf.now (seen relocation.now) (relocation.now.place + 4)) }
    ensures low_each { (key : ℕ) (role : Role) → Claims elf.now (seen relocation.now)
        (relocation.now.place + 4) key role →
        IsSomeAnd result.1 (λ c. c.key ≡ key) }
{
    match call_at(elf, starts, parts, relocation.place) {
        Some(call) => {
            let upper = call_claim(relocation, &call);
            let lower = call_low_claim(relocation, &call);
            (upper, lower)
        }
        None => (None, None),
    }
}

/// The claim of an upper part that isn't part of a call to its AUIPC. All lower parts for the AUIPC agree, so the first
/// one gives the target.
pub fn upper_claim(
    elf: &Elf,
    starts: &Starts,
    parts: &[Part],
    lows: &[Low],
    relocation: &Record,
) -> Option<Claim>
    requires starts { AreStarts elf.now starts.now }
    requires parts { AreCodeParts elf.now parts.now }
    requires lows { AreLows elf.now lows.now }
    requires counts { Contains (relocations elf.now) (seen relocation.now) }
    requires kind { IsTrue (is_pcrel_hi relocation.now.kind) }
    requires fits { IsMisfit elf.now (seen relocation.now) → ⊥ }
    requires alike { (place : ℕ) → IsLoMismatch elf.now place → ⊥ }
    ensures is { IfSome result (IsClaimOf elf.now (seen relocation.now) relocation.now.place) }
    ensures each { (key : ℕ) (role : Role) → Claims elf.now (seen relocation.now) relocation.now.place key role →
        IsSomeAnd result (λ c. c.key ≡ key) }
{
    let low = first_low(lows, relocation.place)?;
    let target = low_address(elf, starts, parts, &low)?;
    Some(Claim {
        at: relocation.place,
        kind: relocation.kind,
        key: relocation.place,
        role: Role::Hi { target },
    })
}

/// The claim of a lower part to its instruction.
pub fn lower_claim(elf: &Elf, starts: &Starts, parts: &[Part], relocation: &Record) -> Option<Claim>
    requires starts { AreStarts elf.now starts.now }
    requires parts { AreCodeParts elf.now parts.now }
    requires counts { Contains (relocations elf.now) (seen relocation.now) }
    requires kind { IsTrue (is_pcrel_lo relocation.now.kind) }
    requires fits { (r : Relocation) → Contains (relocations elf.now) r → IsMisfit elf.now r → ⊥ }
    ensures is { IfSome result (IsClaimOf elf.now (seen relocation.now) relocation.now.place) }
    ensures each { (key : ℕ) (role : Role) → Claims elf.now (seen relocation.now) relocation.now.place key role →
        IsSomeAnd result (λ c. c.key ≡ key) }
{
    let low = low_of(elf, starts, parts, relocation)?;
    let target = low_address(elf, starts, parts, &low)?;
    Some(Claim {
        at: relocation.place,
        kind: relocation.kind,
        key: low.hi,
        role: Role::Lo { hi: low.hi, target },
    })
}

fn absolute_role(kind: u32, target: u64) -> Role
    ensures { result ≡ absolute_role kind target }
{
    if kind == R_RISCV_HI20 {
        Role::AbsHi { target }
    } else {
        Role::AbsLo { target }
    }
}

/// The claim of a part of an absolute code address to its instruction.
pub fn absolute_claim(
    elf: &Elf,
    starts: &Starts,
    parts: &[Part],
    relocation: &Record,
) -> Option<Claim>
    requires starts { AreStarts elf.now starts.now }
    requires parts { AreCodeParts elf.now parts.now }
    requires counts { Contains (relocations elf.now) (seen relocation.now) }
    requires kind { IsTrue (is_absolute relocation.now.kind) }
    requires fits { IsMisfit elf.now (seen relocation.now) → ⊥ }
    ensures is { IfSome result (IsClaimOf elf.now (seen relocation.now) relocation.now.place) }
    ensures each { (key : ℕ) (role : Role) → Claims elf.now (seen relocation.now) relocation.now.place key role →
        IsSomeAnd result (λ c. c.key ≡ key) }
{
    let target = absolute_target(elf, starts, relocation)?;
    if !has_absolute(elf, starts, parts, relocation, target) {
        return None;
    }
    Some(Claim {
        at: relocation.place,
        kind: relocation.kind,
        key: target,
        role: absolute_role(relocation.kind, target),
    })
}
