// Parts that are moved as one piece: those with an instruction that starts in a range with an exception table.
ghost use Rattle.std.specs.Prelude.{◌≡◌, ◌↔◌, ◌⊎◌, ◌+◌, ◌<◌, ◌≤◌, ℕ, ℤ, pos, int_le, ◌≤ℤ◌, ◌<ℤ◌, List, IfOk, IsTrue};
ghost use Rattle.std.specs.Prelude.{Any, map, length, slice_index_or};
ghost use Rattle.elf_image.specs.declared.elf.Elf.{Elf};
ghost use Rattle.elf_code.specs.Cells.{IsInOneWhole};
ghost use Rattle.elf_code.specs.FileCode.{AreStarts};
ghost use Rattle.elf_code.specs.Parts.{IsInTabled, IsCodePart, IsWholePart};
ghost use Rattle.elf_image.specs.internal.Extents.{IsInOneExtent};
ghost use Rattle.code_starts.specs.Parts.{AreCodeParts, ArePartsApart};
ghost use Rattle.code_starts.specs.Ranges.{tabled_extent};
ghost use Rattle.code_starts.specs.WholeParts.{AreWholeParts, HoldsBoth};

use crate::instruction_starts::starts_in;
use crate::parts::Part;
use crate::ranges::Ranges;
use elf_image::Elf;
use elf_image::extent::Extent;
use rb_bytes::fault::NoMemory;
use std::alloc::Global;

/// The whole parts, by address: an instruction of each starts in one of the ranges `tabled`, given by their starts and
/// ends. `starts` and `parts` are those of the file.
pub fn whole_parts(
    alloc: Global,
    elf: &Elf,
    starts: &[u64],
    parts: &[Part],
    tabled: &[(u64, u64)],
) -> Result<Vec<Part>, NoMemory>
    requires starts { AreStarts elf.now starts.now }
    requires parts { AreCodeParts elf.now parts.now }
    ensures { IfOk result (λ wholes. AreWholeParts elf.now tabled.now wholes.items) }
{
    let mut wholes = Vec::new(alloc);
    if tabled.is_empty() {
        return Ok(wholes);
    }
    let ranges = tabled_ranges(alloc, tabled)?;
    for part in parts {
        if !is_whole(elf, starts, part, &ranges) {
            continue;
        }
        wholes.push(*part)?;
    }
    Ok(wholes)
}

// A range given by its start and its end.
fn tabled_extent(range: &(u64, u64)) -> Extent
    ensures { result ≡ tabled_extent range.now }
{
    Extent {
        start: range.0,
        end: range.1 as u128,
        place: 0,
    }
}

fn tabled_extents(alloc: Global, tabled: &[(u64, u64)]) -> Result<Vec<Extent>, NoMemory>
    ensures { IfOk result (λ extents. extents.items ≡ map tabled_extent tabled.now) }
{
    let extents = tabled.iter().map(|r| tabled_extent(r)).collect(alloc)?;
    Ok(extents)
}

fn tabled_ranges(alloc: Global, tabled: &[(u64, u64)]) -> Result<Ranges, NoMemory>
    ensures { IfOk result (λ r. (a : ℕ) → IsInOneExtent r.reaches.items a (a + 1) ↔ Any (IsInTabled a) tabled.now) }
{
    Ranges::new(alloc, tabled_extents(alloc, tabled)?)
}

// Whether an instruction of a part starts in one of these ranges.
fn is_whole(elf: &Elf, starts: &[u64], part: &Part, ranges: &Ranges) -> bool
    requires starts { AreStarts elf.now starts.now }
    requires part { IsCodePart elf.now part.now.start part.now.end }
    ensures { (tabled : List (ℕ × ℕ)) →
        ((a : ℕ) → IsInOneExtent ranges.now.reaches.items a (a + 1) ↔ Any (IsInTabled a) tabled) →
        IsTrue result ↔ IsWholePart elf.now tabled part.now.start part.now.end }
{
    any_held(ranges, starts_in(starts, part))
}

// Whether one of these addresses is in one of these ranges.
fn any_held(ranges: &Ranges, addresses: &[u64]) -> bool
    ensures { IsTrue result ↔ Any (λ a. IsInOneExtent ranges.now.reaches.items a (a + 1)) addresses.now }
{
    addresses.iter().any(|a| contains(ranges, *a))
}

fn contains(ranges: &Ranges, address: u64) -> bool
    ensures { IsTrue result ↔ IsInOneExtent ranges.now.reaches.items address (address + 1) }
{
    ranges.hold(address, address as u128 + 1)
}

/// Whether both labels are in the same whole part, or at its end.
pub fn in_one_whole(wholes: &[Part], to: i128, from: i128) -> bool
    requires { ArePartsApart wholes.now }
    ensures { (elf : Elf) (tabled : List (ℕ × ℕ)) → AreWholeParts elf tabled wholes.now →
        IsTrue result ↔ IsInOneWhole elf tabled to from }
{
    let above = count_up_to(wholes, lower(to, from));
    if above == 0 {
        return false;
    }
    holds_both(&wholes[above - 1], to, from)
}

// The lower of two labels.
fn lower(to: i128, from: i128) -> i128
    ensures to { result ≤ℤ to }
    ensures from { result ≤ℤ from }
    ensures is { (result ≡ to) ⊎ (result ≡ from) }
{
    if to <= from { to } else { from }
}

// The number of parts that start at or below a label.
fn count_up_to(parts: &[Part], label: i128) -> usize
    requires { ArePartsApart parts.now }
    ensures bound { result ≤ length parts.now }
    ensures below { (k : ℕ) (d : Part) → k < result → pos (slice_index_or parts.now k d).start ≤ℤ label }
    ensures above { (k : ℕ) (d : Part) → result ≤ k → k < length parts.now →
        label <ℤ pos (slice_index_or parts.now k d).start }
{
    parts.partition_point(|p| begins_by(p, label))
}

fn begins_by(part: &Part, label: i128) -> bool
    ensures { result ≡ int_le (pos part.now.start) label }
{
    part.start as i128 <= label
}

// Whether both labels are in a part or at its end.
fn holds_both(part: &Part, to: i128, from: i128) -> bool
    ensures { IsTrue result ↔ HoldsBoth to from part.now }
{
    let start = part.start as i128;
    let end = part.end as i128;
    start <= to && to <= end && start <= from && from <= end
}
