// Lower parts together with their AUIPCs.
ghost use Rattle.std.specs.Prelude.{◌≡◌, ◌↔◌, ℕ, ℤ, pos, IfOk, IfSome, IsSome, IsTrue, Some, Contains};
ghost use Rattle.elf_code.specs.FileCode.{AreStarts};
ghost use Rattle.elf_code.specs.Relocations.{relocations};
ghost use Rattle.elf_code.specs.ReferenceFaults.{IsAddress};
ghost use Rattle.rv_reloc.specs.Finds.{AreFound};
ghost use Rattle.rv_reloc.specs.Lows.{AreLows};
ghost use Rattle.rv_reloc.specs.Pairs.{IsTargetOf, IsFar, AreFar, MakesNoAddress};
ghost use Rattle.code_starts.specs.Parts.{AreCodeParts};
ghost use Rattle.rv_reloc.specs.Records.{seen};

use crate::instructions::auipc_at;
use crate::lows::Low;
use crate::named::is_named;
use crate::records::Record;
use crate::targets::{address_of, pair_target};
use crate::types::is_pcrel_hi;
use code_starts::parts::Part;
use code_starts::start_index::Starts;
use elf_image::Elf;
use elf_image::function_bounds::make_ascending;
use rb_bytes::fault::NoMemory;
use rb_bytes::lists::push_some;
use std::alloc::Global;

/// The target of a lower part and its AUIPC, which may be any number.
pub fn low_target(elf: &Elf, starts: &Starts, parts: &[Part], low: &Low) -> Option<i128>
    requires starts { AreStarts elf.now starts.now }
    requires parts { AreCodeParts elf.now parts.now }
    ensures is { IfSome result (IsTargetOf elf.now low.now) }
    ensures only { (z : ℤ) → IsTargetOf elf.now low.now z → result ≡ Some z }
{
    let auipc = auipc_at(elf, starts, parts, low.hi)?;
    Some(pair_target(low.hi, auipc.imm, low.imm))
}

/// The target of a lower part and its AUIPC, if it is an address.
pub fn low_address(elf: &Elf, starts: &Starts, parts: &[Part], low: &Low) -> Option<u64>
    requires starts { AreStarts elf.now starts.now }
    requires parts { AreCodeParts elf.now parts.now }
    ensures is { IfSome result (λ t. IsTargetOf elf.now low.now (pos t)) }
    ensures each { (z : ℤ) → IsTargetOf elf.now low.now z → IsAddress z → IsSome result }
    ensures once { (z : ℤ) → IsTargetOf elf.now low.now z → IfSome result (λ t. z ≡ pos t) }
{
    let number = low_target(elf, starts, parts, low)?;
    address_of(number)
}

// The address of the AUIPC of a lower part, if their target isn't an address.
fn far_of(elf: &Elf, starts: &Starts, parts: &[Part], low: &Low) -> Option<u64>
    requires starts { AreStarts elf.now starts.now }
    requires parts { AreCodeParts elf.now parts.now }
    ensures is { IfSome result (IsFar elf.now low.now) }
    ensures only { (a : ℕ) → IsFar elf.now low.now a → result ≡ Some a }
{
    let number = low_target(elf, starts, parts, low)?;
    if address_of(number).is_some() {
        return None;
    }
    Some(low.hi)
}

// The addresses of AUIPCs whose target isn't an address, lower part by lower part.
fn read_far(
    alloc: Global,
    elf: &Elf,
    starts: &Starts,
    parts: &[Part],
    lows: &[Low],
) -> Result<Vec<u64>, NoMemory>
    requires starts { AreStarts elf.now starts.now }
    requires parts { AreCodeParts elf.now parts.now }
    ensures { IfOk result (λ far. AreFound (IsFar elf.now) lows.now far.items) }
{
    let mut far = Vec::new(alloc);
    for low in lows {
        push_some(&mut far, far_of(elf, starts, parts, low))?;
    }
    Ok(far)
}

/// All addresses of AUIPCs with a lower part whose target isn't an address, ascending.
pub fn far_uppers(
    alloc: Global,
    elf: &Elf,
    starts: &Starts,
    parts: &[Part],
    lows: &[Low],
) -> Result<Vec<u64>, NoMemory>
    requires starts { AreStarts elf.now starts.now }
    requires parts { AreCodeParts elf.now parts.now }
    requires lows { AreLows elf.now lows.now }
    ensures { IfOk result (λ far. AreFar elf.now far.items) }
{
    let mut far = read_far(alloc, elf, starts, parts, lows)?;
    make_ascending(&mut far);
    Ok(far)
}

/// Whether a relocation for an upper part is on an AUIPC whose target with some lower part isn't an address. `elf` is
/// only used by the contract.
pub fn is_far(elf: &Elf, far: &[u64], relocation: &Record) -> bool
    requires far { AreFar elf.now far.now }
    requires counts { Contains (relocations elf.now) (seen relocation.now) }
    ensures { IsTrue result ↔ MakesNoAddress elf.now (seen relocation.now) }
{
    if !is_pcrel_hi(relocation.kind) {
        return false;
    }
    is_named(far, relocation.place)
}
