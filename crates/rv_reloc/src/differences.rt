// Differences of labels, and their faults.
ghost use Rattle.std.specs.Prelude.{◌≡◌, ◌↔◌, ◌⊎◌, Some, option_map, ℕ, ℤ, IsTrue, IfSome, IsSomeAnd, All, List};
ghost use Rattle.std.specs.Prelude.{Contains, map};
ghost use Rattle.elf_image.specs.declared.elf.Elf.{Elf};
ghost use Rattle.elf_code.specs.Cells.{IsDifference, HasCodeLabel, IsInOneWhole};
ghost use Rattle.elf_code.specs.FileCode.{AreStarts};
ghost use Rattle.elf_image.specs.faults.LowestPlace.{IsLowest};
ghost use Rattle.elf_code.specs.ReferenceFaults.{IsBadDifference, IsNarrow, IsNarrowDiff, IsPaired};
ghost use Rattle.elf_code.specs.Relocations as spec;
ghost use Rattle.elf_code.specs.Relocations.{Relocation, relocations, plus_width, minus_width};
ghost use Rattle.rv_reloc.specs.Differences.{IsDifferenceOf, IsTheDifference, HoldsOther, IsUnpaired};
ghost use Rattle.rv_reloc.specs.Labels.{width_of};
ghost use Rattle.code_starts.specs.Parts.{ArePartsApart};
ghost use Rattle.code_starts.specs.WholeParts.{AreWholeParts};
ghost use Rattle.code_starts.specs.LoadedMemory.{IsLow};
ghost use Rattle.rv_reloc.specs.Records.{AreRecords, seen};
ghost use Rattle.rv_reloc.specs.Tails.{IsKnown};

use crate::fields::holds_difference;
use crate::index::{only_minus, only_plus};
use crate::labels::{
    FieldWidth, can_be_cell, has_code_label, is_code_label, label, minus_width, plus_width,
};
use crate::records::Record;
use crate::tails::Known;
use crate::types::is_pc_difference;
use code_starts::parts::Part;
use code_starts::start_index::Starts;
use code_starts::whole::in_one_whole;
use elf_image::Elf;
use elf_image::lowest::{lower, place_if};

/// The difference of two labels.
#[derive(Clone, Copy)]
pub struct Difference {
    pub width: FieldWidth,
    pub to: i128,
    pub from: i128,
}

// The difference of the label that is added or set and the label that is subtracted, if there is exactly one of each.
// In this file `near` is a guess for the index of the relocation in `records`.
fn labels_difference(
    elf: &Elf,
    records: &[Record],
    near: usize,
    relocation: &Record,
    width: FieldWidth,
) -> Option<Difference>
    requires records { AreRecords elf.now records.now }
    requires listed { Contains (relocations elf.now) (seen relocation.now) }
    requires width { plus_width relocation.now.kind ≡ Some (width_of width) }
    ensures is { IfSome result (IsDifferenceOf elf.now (seen relocation.now)) }
    ensures only { (w : spec.Width) (to from : ℤ) → IsDifference elf.now (seen relocation.now) w to from →
        IsSomeAnd result (IsTheDifference w to from) }
{
    only_plus(records, near, relocation.place, width)?;
    let minus = only_minus(records, near, relocation.place, width)?;
    Some(Difference {
        width,
        to: label(elf, relocation),
        from: label(elf, &minus),
    })
}

/// The difference in the field of a relocation, if it is for one.
pub fn difference_of(
    elf: &Elf,
    records: &[Record],
    near: usize,
    relocation: &Record,
) -> Option<Difference>
    requires records { AreRecords elf.now records.now }
    requires listed { Contains (relocations elf.now) (seen relocation.now) }
    ensures is { IfSome result (IsDifferenceOf elf.now (seen relocation.now)) }
    ensures only { (w : spec.Width) (to from : ℤ) → IsDifference elf.now (seen relocation.now) w to from →
        IsSomeAnd result (IsTheDifference w to from) }
{
    if is_pc_difference(relocation.kind) {
        return Some(Difference {
            width: FieldWidth::Bits32,
            to: label(elf, relocation),
            from: relocation.place as i128,
        });
    }
    let width = plus_width(relocation.kind)?;
    labels_difference(elf, records, near, relocation, width)
}

// The width of a field to which a relocation adds a label, or from which it subtracts one.
fn label_width(kind: u32) -> Option<FieldWidth>
    ensures { (w : spec.Width) →
        (option_map width_of result ≡ Some w) ↔ ((plus_width kind ≡ Some w) ⊎ (minus_width kind ≡ Some w)) }
{
    plus_width(kind).or(minus_width(kind))
}

// Whether exactly one relocation at `place` adds or sets a label of this width, and exactly one subtracts one. `elf` is
// only used by the contract.
fn is_paired(elf: &Elf, records: &[Record], near: usize, place: u64, width: FieldWidth) -> bool
    requires { AreRecords elf.now records.now }
    ensures { IsTrue result ↔ IsPaired elf.now place (width_of width) }
{
    only_plus(records, near, place, width).is_some()
        && only_minus(records, near, place, width).is_some()
}

// Whether a relocation adds, sets or subtracts a code address, and isn't part of a difference of two labels.
fn is_unpaired(
    elf: &Elf,
    starts: &Starts,
    records: &[Record],
    near: usize,
    relocation: &Record,
) -> bool
    requires records { AreRecords elf.now records.now }
    requires starts { AreStarts elf.now starts.now }
    ensures { IsTrue result ↔ IsUnpaired elf.now (seen relocation.now) }
{
    match label_width(relocation.kind) {
        Some(width) => {
            if is_paired(elf, records, near, relocation.place, width) {
                return false;
            }
            is_code_label(elf, starts, label(elf, relocation))
        }
        None => false,
    }
}

// Whether a relocation is for a difference, and its field contains another number.
fn is_other_number(
    elf: &Elf,
    known: &[Known],
    records: &[Record],
    near: usize,
    relocation: &Record,
) -> bool
    requires low { IsLow elf.now }
    requires known { All (IsKnown elf.now) known.now }
    requires records { AreRecords elf.now records.now }
    requires listed { Contains (relocations elf.now) (seen relocation.now) }
    ensures { IsTrue result ↔ HoldsOther elf.now (seen relocation.now) }
{
    match difference_of(elf, records, near, relocation) {
        Some(difference) => {
            let Difference { width, to, from } = difference;
            !holds_difference(elf, known, relocation, width, to, from)
        }
        None => false,
    }
}

/// Whether a relocation for a difference doesn't fit.
pub fn is_bad_difference(
    elf: &Elf,
    starts: &Starts,
    known: &[Known],
    records: &[Record],
    near: usize,
    relocation: &Record,
) -> bool
    requires low { IsLow elf.now }
    requires starts { AreStarts elf.now starts.now }
    requires known { All (IsKnown elf.now) known.now }
    requires records { AreRecords elf.now records.now }
    requires listed { Contains (relocations elf.now) (seen relocation.now) }
    ensures { IsTrue result ↔ IsBadDifference elf.now (seen relocation.now) }
{
    is_other_number(elf, known, records, near, relocation)
        || is_unpaired(elf, starts, records, near, relocation)
}

// Whether a relocation gives a difference that can change when code moves, in a field that can't be a cell.
fn is_narrow(
    elf: &Elf,
    starts: &Starts,
    wholes: &[Part],
    records: &[Record],
    near: usize,
    relocation: &Record,
) -> bool
    requires starts { AreStarts elf.now starts.now }
    requires wholes { ArePartsApart wholes.now }
    requires records { AreRecords elf.now records.now }
    requires listed { Contains (relocations elf.now) (seen relocation.now) }
    ensures { (tabled : List (ℕ × ℕ)) → AreWholeParts elf.now tabled wholes.now →
        IsTrue result ↔ IsNarrow elf.now tabled (seen relocation.now) }
{
    if can_be_cell(relocation) {
        return false;
    }
    match difference_of(elf, records, near, relocation) {
        Some(difference) => crosses(elf, starts, wholes, &difference),
        None => false,
    }
}

/// Whether a difference can change when code moves: one of its labels is a code address, and they aren't both in the
/// same whole part.
pub fn crosses(elf: &Elf, starts: &Starts, wholes: &[Part], difference: &Difference) -> bool
    requires starts { AreStarts elf.now starts.now }
    requires wholes { ArePartsApart wholes.now }
    ensures { (tabled : List (ℕ × ℕ)) → AreWholeParts elf.now tabled wholes.now →
        IsTrue result
        ↔ (HasCodeLabel elf.now difference.now.to difference.now.from
        × (IsInOneWhole elf.now tabled difference.now.to difference.now.from → ⊥)) }
{
    if !has_code_label(elf, starts, difference.to, difference.from) {
        return false;
    }
    !in_one_whole(wholes, difference.to, difference.from)
}

/// The lowest place of a difference that can change when code moves, in a field that can't be a cell: the fault
/// `NarrowDiff`.
pub fn lowest_narrow(elf: &Elf, starts: &Starts, wholes: &[Part], records: &[Record]) -> Option<u64>
    requires starts { AreStarts elf.now starts.now }
    requires wholes { ArePartsApart wholes.now }
    requires records { AreRecords elf.now records.now }
    ensures { (tabled : List (ℕ × ℕ)) → AreWholeParts elf.now tabled wholes.now →
        IsLowest (IsNarrowDiff elf.now tabled) result }
{
    let mut lowest = None;
    for (index, relocation) in records.iter().enumerate() {
        let narrow = is_narrow(elf, starts, wholes, records, index, relocation);
        lowest = lower(lowest, place_if(narrow, relocation.place));
    }
    lowest
}
