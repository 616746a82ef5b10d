// All claims to roles, and the roles of instructions.
ghost use Rattle.std.specs.Prelude.{◌≡◌, ◌+◌, ℕ, IfOk, OnOk, IfSome, IsSomeAnd, IsTrue, Contains, AllPairs, All};
ghost use Rattle.std.specs.List.Sorted.{IsPermutation};
ghost use Rattle.rv_code.specs.declared.placed.Role.{Role};
ghost use Rattle.elf_code.specs.FileCode.{AreStarts, AreRoles};
ghost use Rattle.elf_code.specs.Relocations.{Relocation, relocations, is_call_pair};
ghost use Rattle.elf_code.specs.Roles.{Claims};
ghost use Rattle.elf_code.specs.ReferenceFaults.{IsMisfit, IsLoMismatch};
ghost use Rattle.rv_reloc.specs.Claims.{IsClaimOf, IsClaimUpTo, AreClaimsOf, AreClaims};
ghost use Rattle.rv_reloc.specs.Lows.{AreLows};
ghost use Rattle.code_starts.specs.Parts.{AreCodeParts};
ghost use Rattle.rv_reloc.specs.Records.{seen, AreRecords};

use crate::claims::{absolute_claim, call_claims, lower_claim, upper_claim};
use crate::lows::Low;
use crate::records::Record;
use crate::roles::{Claim, first_roles};
use crate::types::{is_absolute, is_call_pair, is_pcrel_hi, is_pcrel_lo};
use code_starts::parts::Part;
use code_starts::start_index::Starts;
use elf_image::Elf;
use rb_bytes::fault::NoMemory;
use rb_bytes::lists::push_some;
use rv_code::Role;
use std::alloc::Global;

// The claim of a relocation that isn't for a call.
fn other_claim(
    elf: &Elf,
    starts: &Starts,
    parts: &[Part],
    lows: &[Low],
    relocation: &Record,
) -> Option<Claim>
    requires starts { AreStarts elf.now starts.now }
    requires parts { AreCodeParts elf.now parts.now }
    requires lows { AreLows elf.now lows.now }
    requires counts { Contains (relocations elf.now) (seen relocation.now) }
    requires kind { IsTrue (is_call_pair relocation.now.kind) → ⊥ }
    requires fits { (r : Relocation) → Contains (relocations elf.now) r → IsMisfit elf.now r → ⊥ }
    requires alike { (place : ℕ) → IsLoMismatch elf.now place → ⊥ }
    ensures is { IfSome result (IsClaimOf elf.now (seen relocation.now) relocation.now.place) }
    ensures each { (key : ℕ) (role : Role) → Claims elf.now (seen relocation.now) relocation.now.place key role →
        IsSomeAnd result (λ c. c.key ≡ key) }
{
    if is_pcrel_hi(relocation.kind) {
        return upper_claim(elf, starts, parts, lows, relocation);
    }
    if is_pcrel_lo(relocation.kind) {
        return lower_claim(elf, starts, parts, relocation);
    }
    if is_absolute(relocation.kind) {
        return absolute_claim(elf, starts, parts, relocation);
    }
    None
}

// The claims of a relocation to the instruction at its place, and to the next instruction.
fn claims_at(
    elf: &Elf,
    starts: &Starts,
    parts: &[Part],
    lows: &[Low],
    relocation: &Record,
) -> (Option<Claim>, Option<Claim>)
    requires starts { AreStarts elf.now starts.now }
    requires parts { AreCodeParts elf.now parts.now }
    requires lows { AreLows elf.now lows.now }
    requires counts { Contains (relocations elf.now) (seen relocation.now) }
    requires fits { (r : Relocation) → Contains (relocations elf.now) r → IsMisfit elf.now r → ⊥ }
    requires alike { (place : ℕ) → IsLoMismatch elf.now place → ⊥ }
    ensures is { IfSome result.0 (IsClaimOf elf.now (seen relocation.now) relocation.now.place) }
    ensures each { (key : ℕ) (role : Role) → Claims elf.now (seen relocation.now) relocation.now.place key role →
        IsSomeAnd result.0 (λ c. c.key ≡ key) }
    ensures after_is { IfSome result.1 (IsClaimOf elf.now (seen relocation.now) (relocation.now.place + 4)) }
    ensures after_each { (key : ℕ) (role : Role) → Claims elf.now (seen relocation.now)
        (relocation.now.place + 4) key role →
        IsSomeAnd result.1 (λ c. c.key ≡ key) }
{
    if is_call_pair(relocation.kind) {
        return call_claims(elf, starts, parts, relocation);
    }
    (other_claim(elf, starts, parts, lows, relocation), None)
}

// The claims of all relocations.
fn read_claims(
    alloc: Global,
    elf: &Elf,
    starts: &Starts,
    parts: &[Part],
    lows: &[Low],
    records: &[Record],
) -> Result<Vec<Claim>, NoMemory>
    requires starts { AreStarts elf.now starts.now }
    requires parts { AreCodeParts elf.now parts.now }
    requires lows { AreLows elf.now lows.now }
    requires records { AreRecords elf.now records.now }
    requires fits { (r : Relocation) → Contains (relocations elf.now) r → IsMisfit elf.now r → ⊥ }
    requires alike { (place : ℕ) → IsLoMismatch elf.now place → ⊥ }
    ensures { IfOk result (λ claims. AreClaimsOf elf.now records.now claims.items) }
{
    let mut claims = Vec::new(alloc);
    for relocation in records {
        let (claim, after) = claims_at(elf, starts, parts, lows, relocation);
        push_some(&mut claims, claim)?;
        push_some(&mut claims, after)?;
    }
    Ok(claims)
}

// Sorts claims by address, then by type and key.
fn sort_claims(claims: &mut Vec<Claim>) -> Result<(), NoMemory>
    ensures permutation { IsPermutation claims.old.items claims.new.items }
    ensures ordered { OnOk result (AllPairs IsClaimUpTo claims.new.items) }
{
    claims.sort_by_key(|c| (c.at, (c.kind, c.key)))?;
    Ok(())
}

/// The roles of instructions, in a file whose relocations fit and whose lower parts agree for each AUIPC.
pub fn roles(
    alloc: Global,
    elf: &Elf,
    starts: &Starts,
    parts: &[Part],
    lows: &[Low],
    records: &[Record],
) -> Result<Vec<(u64, Role)>, NoMemory>
    requires starts { AreStarts elf.now starts.now }
    requires parts { AreCodeParts elf.now parts.now }
    requires lows { AreLows elf.now lows.now }
    requires records { AreRecords elf.now records.now }
    requires fits { (r : Relocation) → Contains (relocations elf.now) r → IsMisfit elf.now r → ⊥ }
    requires alike { (place : ℕ) → IsLoMismatch elf.now place → ⊥ }
    ensures { IfOk result (λ roles. AreRoles elf.now roles.items) }
{
    let mut claims = read_claims(alloc, elf, starts, parts, lows, records)?;
    sort_claims(&mut claims)?;
    first_roles(alloc, &claims)
}
