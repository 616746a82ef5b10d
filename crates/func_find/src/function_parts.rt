// Finds the parts that are functions: all parts except padding of nops that nothing leads to.
ghost use Rattle.std.specs.Prelude.{◌≡◌, ◌↔◌, ◌<◌, ℕ, List, All, Any, IfOk, IsTrue, Contains};
ghost use Rattle.elf_code.specs.FileCode.{AreStarts};
ghost use Rattle.elf_code.specs.Functions.{IsFunctionPart, IsNopPart};
ghost use Rattle.elf_code.specs.Parts.{IsCodePart, IsCovered, StartsIn};
ghost use Rattle.elf_image.specs.internal.Extents.{IsInOneExtent};
ghost use Rattle.code_starts.specs.Parts.{AreCodeParts};
ghost use Rattle.rv_reloc.specs.Refs.{AreRefs};
ghost use Rattle.func_find.specs.FunctionParts.{AreFunctionParts, AreFunctionsBefore, FallsAt, FallsOut, IsEntered};
ghost use Rattle.func_find.specs.Referents.{AreReferred};
ghost use Rattle.func_find.specs.ValidInsts.{IsNopBefore};

use crate::referred::Referred;
use crate::valid::{is_nop_before, valid_before};
use code_starts::instruction_starts::starts_in;
use code_starts::parts::Part;
use code_starts::ranges::{Ranges, function_ranges};
use elf_image::Elf;
use rb_bytes::fault::NoMemory;
use rv_code::flow::falls;
use rv_reloc::Refs;
use std::alloc::Global;

/// The parts that are functions, by address. `starts`, `parts` and `refs` are those of the file. References are only
/// collected if some part consists of nops, since all other parts are functions.
pub fn kept_parts(
    alloc: Global,
    elf: &Elf,
    starts: &[u64],
    parts: &[Part],
    refs: &Refs,
) -> Result<Vec<Part>, NoMemory>
    requires starts { AreStarts elf.now starts.now }
    requires parts { AreCodeParts elf.now parts.now }
    ensures { IfOk result
        (λ kept. (tabled : List (ℕ × ℕ)) → AreRefs elf.now tabled refs.now →
        AreFunctionParts elf.now tabled kept.items) }
{
    if !have_nops(alloc, elf, starts, parts)? {
        return Ok(Vec::from_slice(alloc, parts)?);
    }
    let referred = Referred::new(alloc, elf, starts, parts, refs)?;
    function_parts(alloc, elf, starts, parts, &referred)
}

// Whether some part consists of nops and isn't covered by a function symbol.
fn have_nops(alloc: Global, elf: &Elf, starts: &[u64], parts: &[Part]) -> Result<bool, NoMemory>
    requires starts { AreStarts elf.now starts.now }
    requires parts { AreCodeParts elf.now parts.now }
    ensures { IfOk result (λ have. IsTrue have ↔ Any (λ p. IsNopPart elf.now p.start p.end) parts.now) }
{
    let covers = function_ranges(alloc, elf)?;
    for part in parts {
        if is_nop_part(elf, &covers, part, starts_in(starts, part)) {
            return Ok(true);
        }
    }
    Ok(false)
}

// The parts that are functions, by address. `starts` and `parts` are those of the file, and `referred` the addresses
// that are referred to.
fn function_parts(
    alloc: Global,
    elf: &Elf,
    starts: &[u64],
    parts: &[Part],
    referred: &Referred,
) -> Result<Vec<Part>, NoMemory>
    requires starts { AreStarts elf.now starts.now }
    requires parts { AreCodeParts elf.now parts.now }
    ensures { IfOk result
        (λ kept. (tabled : List (ℕ × ℕ)) → AreReferred elf.now tabled referred.now.addresses.items →
        AreFunctionParts elf.now tabled kept.items) }
{
    let covers = function_ranges(alloc, elf)?;
    let mut kept = Vec::new(alloc);
    for part in parts {
        if !is_function(elf, starts, &covers, referred, &kept, part) {
            continue;
        }
        kept.push(*part)?;
    }
    Ok(kept)
}

// Whether a part is a function. `before` are the functions below it.
fn is_function(
    elf: &Elf,
    starts: &[u64],
    covers: &Ranges,
    referred: &Referred,
    before: &[Part],
    part: &Part,
) -> bool
    requires starts { AreStarts elf.now starts.now }
    requires covers { (s e : ℕ) → s < e → IsInOneExtent covers.now.reaches.items s e ↔ IsCovered elf.now s e }
    requires before { All (λ p. IsCodePart elf.now p.start p.end) before.now }
    requires part { IsCodePart elf.now part.now.start part.now.end }
    ensures { (tabled : List (ℕ × ℕ)) → AreReferred elf.now tabled referred.now.addresses.items →
        AreFunctionsBefore elf.now tabled part.now.start before.now →
        IsTrue result ↔ IsFunctionPart elf.now tabled part.now.start part.now.end }
{
    let inside = starts_in(starts, part);
    if !is_nop_part(elf, covers, part, inside) {
        return true;
    }
    if has_any(referred, inside) {
        return true;
    }
    is_entered(elf, starts, before, part.start)
}

// Whether a part, whose instructions start at `inside`, consists of nops and isn't covered by a function symbol.
fn is_nop_part(elf: &Elf, covers: &Ranges, part: &Part, inside: &[u64]) -> bool
    requires covers { (s e : ℕ) → s < e → IsInOneExtent covers.now.reaches.items s e ↔ IsCovered elf.now s e }
    requires part { IsCodePart elf.now part.now.start part.now.end }
    requires inside { (a : ℕ) → Contains inside.now a ↔ StartsIn elf.now part.now.start part.now.end a }
    ensures { IsTrue result ↔ IsNopPart elf.now part.now.start part.now.end }
{
    if covers.hold(part.start, part.end as u128) {
        return false;
    }
    are_nops(elf, part.end, inside)
}

// Whether the instructions at these addresses are nops that end at or before `end`.
fn are_nops(elf: &Elf, end: u64, addresses: &[u64]) -> bool
    ensures { IsTrue result ↔ All (IsNopBefore elf.now end) addresses.now }
{
    addresses.iter().all(|a| is_nop_before(elf, end, *a))
}

// Whether one of these addresses is referred to.
fn has_any(referred: &Referred, addresses: &[u64]) -> bool
    ensures { IsTrue result ↔ Any (Contains referred.now.addresses.items) addresses.now }
{
    addresses.iter().any(|a| referred.has(*a))
}

// Whether the last function below an address falls through to the code there.
fn is_entered(elf: &Elf, starts: &[u64], before: &[Part], start: u64) -> bool
    requires starts { AreStarts elf.now starts.now }
    requires before { All (λ p. IsCodePart elf.now p.start p.end) before.now }
    ensures { (tabled : List (ℕ × ℕ)) → AreFunctionsBefore elf.now tabled start before.now →
        IsTrue result ↔ IsEntered elf.now tabled start }
{
    let count = before.len();
    if count == 0 {
        return false;
    }
    let last = before[count - 1];
    last.end == start && part_falls_out(elf, starts, &last)
}

// Whether the last instruction of a part ends with the part and falls through.
fn part_falls_out(elf: &Elf, starts: &[u64], part: &Part) -> bool
    requires starts { AreStarts elf.now starts.now }
    requires part { IsCodePart elf.now part.now.start part.now.end }
    ensures { IsTrue result ↔ FallsOut elf.now part.now.start part.now.end }
{
    let inside = starts_in(starts, part);
    let count = inside.len();
    if count == 0 {
        return false;
    }
    falls_at(elf, part.end, inside[count - 1])
}

// Whether the instruction at an address ends at `end` and falls through.
fn falls_at(elf: &Elf, end: u64, address: u64) -> bool
    ensures { IsTrue result ↔ FallsAt elf.now end address }
{
    if address >= end {
        return false;
    }
    match valid_before(elf, end, address) {
        Some(found) => end - address == found.1 as u64 && falls(&found.0, true),
        None => false,
    }
}
