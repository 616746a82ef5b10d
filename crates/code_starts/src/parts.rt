// The parts of executable sections with code.
ghost use Rattle.std.specs.Prelude.{◌≡◌, ◌↔◌, ◌<◌, ◌≤◌, ◌+◌, ℕ, IfOk, IfSome, IsTrue, Some, length, slice_index_or};
ghost use Rattle.elf_code.specs.Parts.{IsCovered, IsInCode};
ghost use Rattle.elf_image.specs.internal.Extents.{IsInOneExtent};
ghost use Rattle.code_starts.specs.Parts.{AreZeros, IsCodeStretch, AreCodeParts, ArePartsApart, HoldsAddress};

use crate::ranges::{Ranges, code_ranges, function_ranges};
use elf_image::{Elf, cuts};
use rb_bytes::fault::NoMemory;
use std::alloc::Global;

/// The part of an executable section between two neighbouring cuts, from `start` to before `end`.
#[derive(Clone, Copy)]
pub struct Part {
    pub start: u64,
    pub end: u64,
}

/// The parts with code, by address: all parts except parts of zeros that no function symbol covers.
pub fn code_parts(alloc: Global, elf: &Elf) -> Result<Vec<Part>, NoMemory>
    ensures { IfOk result (λ parts. AreCodeParts elf.now parts.items) }
{
    let code = code_ranges(alloc, elf)?;
    let functions = function_ranges(alloc, elf)?;
    let cuts = cuts(alloc, elf)?;
    let mut parts = Vec::new(alloc);
    for index in 0..cuts.len().saturating_sub(1) {
        let start = cuts[index];
        let end = cuts[index + 1];
        if !is_code_stretch(elf, &code, &functions, start, end) {
            continue;
        }
        parts.push(Part { start, end })?;
    }
    Ok(parts)
}

// Whether the range between two neighbouring cuts has code.
fn is_code_stretch(elf: &Elf, code: &Ranges, functions: &Ranges, start: u64, end: u64) -> bool
    requires stretch { start < end }
    requires code { (a : ℕ) → IsInOneExtent code.now.reaches.items a (a + 1) ↔ IsInCode elf.now a }
    requires functions { (s e : ℕ) → s < e → IsInOneExtent functions.now.reaches.items s e ↔ IsCovered elf.now s e }
    ensures { IsTrue result ↔ IsCodeStretch elf.now start end }
{
    // Sections start and end at cuts, so the first byte decides for all.
    if !code.hold(start, start as u128 + 1) {
        return false;
    }
    functions.hold(start, end as u128) || !are_zeros(elf, start, end)
}

// Whether all bytes from `start` to before `end` are zero.
fn are_zeros(elf: &Elf, start: u64, end: u64) -> bool
    ensures { IsTrue result ↔ AreZeros elf.now start end }
{
    for address in start..end {
        match elf.image_byte(address) {
            Some(0) => {}
            _ => return false,
        }
    }
    true
}

/// The part that contains an address.
pub fn part_at(parts: &[Part], address: u64) -> Option<Part>
    requires { ArePartsApart parts.now }
    ensures holds { IfSome result (HoldsAddress parts.now address) }
    ensures only { (p : Part) → HoldsAddress parts.now address p → result ≡ Some p }
{
    let above = count_up_to(parts, address);
    if above == 0 {
        return None;
    }
    let part = parts[above - 1];
    if address < part.end { Some(part) } else { None }
}

// The number of parts from a guess on that are looked at before all are searched.
const WALK: usize = 16;

/// The result of `part_at`. The search begins before the part with index `near`; a bad guess only costs time.
pub fn part_near(parts: &[Part], near: usize, address: u64) -> Option<Part>
    requires { ArePartsApart parts.now }
    ensures holds { IfSome result (HoldsAddress parts.now address) }
    ensures only { (p : Part) → HoldsAddress parts.now address p → result ≡ Some p }
{
    let end = parts.len().min(near.saturating_add(WALK));
    for index in near.saturating_sub(1)..end {
        let part = parts[index];
        if holds(&part, address) {
            return Some(part);
        }
    }
    part_at(parts, address)
}

// Whether a part contains an address.
fn holds(part: &Part, address: u64) -> bool
    ensures { IsTrue result ↔ ((part.now.start ≤ address) × (address < part.now.end)) }
{
    part.start <= address && address < part.end
}

/// The number of parts that start at or below an address.
pub fn count_up_to(parts: &[Part], address: u64) -> usize
    requires { ArePartsApart parts.now }
    ensures bound { result ≤ length parts.now }
    ensures below { (k : ℕ) (d : Part) → k < result → (slice_index_or parts.now k d).start ≤ address }
    ensures above { (k : ℕ) (d : Part) → result ≤ k → k < length parts.now →
        address < (slice_index_or parts.now k d).start }
{
    parts.partition_point(|p| p.start <= address)
}
