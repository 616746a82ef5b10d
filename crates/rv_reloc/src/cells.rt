// Code cells: the fields that count among those that can be cells.
ghost use Rattle.std.specs.Prelude.{◌≡◌, ◌↔◌, ℕ, pos, List, IfOk, OnOk, IfNone, IsTrue, All, Contains, map};
ghost use Rattle.elf_image.specs.declared.elf.Elf as file;
ghost use Rattle.elf_code.specs.FileCode.{AreCells, AreStarts};
ghost use Rattle.elf_image.specs.faults.LowestPlace.{IsLowest};
ghost use Rattle.elf_code.specs.ReferenceFaults.{HasBadLabel, IsAddress};
ghost use Rattle.rv_reloc.specs.Cells.{HasBadContent, HasAddresses, cell_of};
ghost use Rattle.code_starts.specs.LoadedMemory.{IsLow};
ghost use Rattle.rv_reloc.specs.Lows.{AreLows};
ghost use Rattle.code_starts.specs.Parts.{ArePartsApart, AreCodeParts};
ghost use Rattle.rv_reloc.specs.Places.{IsPlaceOf};
ghost use Rattle.rv_reloc.specs.Records.{AreRecords};
ghost use Rattle.rv_reloc.specs.Slots.{AreSlotLabels};
ghost use Rattle.code_starts.specs.WholeParts.{AreWholeParts};
ghost use Rattle.rv_reloc.specs.CountedFields.{as_field, AreCounted};

use crate::candidates::fields_of;
use crate::got_fields::got_fields;
use crate::lows::Low;
use crate::records::Record;
use crate::slots::SlotLabel;
use crate::sweep::{Candidate, Content, sort_fields, sweep};
use code_starts::parts::Part;
use code_starts::start_index::Starts;
use elf_image::Elf;
use elf_image::lowest::{lower, place_if};
use elf_image::segment::ADDRESS_END;
use rb_bytes::fault::NoMemory;
use rv_code::cell::{CellKind, CodeCell};
use std::alloc::Global;

// Whether a label is an address. `ADDRESS_END` counts as one, since a label can be at the end of all bytes.
fn is_address(label: i128) -> bool
    ensures { IsTrue result ↔ IsAddress label }
{
    0 <= label && label <= ADDRESS_END as i128
}

// Whether a field contains a difference with a label that isn't an address.
fn is_bad(field: &Candidate) -> bool
    ensures { IsTrue result ↔ HasBadContent field.now }
{
    match field.content {
        Content::Address { .. } => false,
        Content::Difference { to, from } => {
            if !is_address(to) {
                return true;
            }
            !is_address(from)
        }
    }
}

fn lowest_bad_field(counted: &[Candidate]) -> Option<u64>
    ensures { IsLowest (IsPlaceOf (λ f. f.place) HasBadContent counted.now) result }
{
    let mut lowest = None;
    for field in counted {
        lowest = lower(lowest, place_if(is_bad(field), field.place));
    }
    lowest
}

/// The lowest place of a difference among the fields that count with a label that isn't an address. If there is none,
/// all labels are addresses.
pub fn lowest_bad_label(counted: &[Candidate]) -> Option<u64>
    ensures lowest { (elf : file.Elf) (tabled : List (ℕ × ℕ)) → AreCounted elf tabled (map as_field counted.now) →
        IsLowest (HasBadLabel elf tabled) result }
    ensures none { IfNone result (All HasAddresses counted.now) }
{
    lowest_bad_field(counted)
}

fn address(label: i128) -> u64
    requires { IsAddress label }
    ensures { label ≡ pos result }
{
    label as u64
}

fn cell_of(field: &Candidate) -> CodeCell
    requires { HasAddresses field.now }
    ensures { result ≡ cell_of field.now }
{
    let kind = match field.content {
        Content::Address { to } => CellKind::Abs { to },
        Content::Difference { to, from } => CellKind::Diff {
            to: address(to),
            from: address(from),
        },
    };
    CodeCell {
        addr: field.place,
        width: field.width,
        kind,
    }
}

/// The fields that count, as code cells.
pub fn cells(alloc: Global, counted: &[Candidate]) -> Result<Vec<CodeCell>, NoMemory>
    requires { All HasAddresses counted.now }
    ensures { (elf : file.Elf) (tabled : List (ℕ × ℕ)) → AreCounted elf tabled (map as_field counted.now) →
        IfOk result (λ cells. AreCells elf tabled cells.items) }
{
    let mut cells = Vec::new(alloc);
    for field in counted {
        cells.push(cell_of(field))?;
    }
    Ok(cells)
}

/// The fields that count among all that can be cells, by address. `starts`, `parts`, `wholes`, `records`, `labels` and
/// `lows` are those of the file.
pub fn counted_fields(
    alloc: Global,
    elf: &Elf,
    starts: &Starts,
    parts: &[Part],
    wholes: &[Part],
    records: &[Record],
    labels: &[SlotLabel],
    lows: &[Low],
) -> Result<Vec<Candidate>, NoMemory>
    requires low { IsLow elf.now }
    requires starts { AreStarts elf.now starts.now }
    requires parts { AreCodeParts elf.now parts.now }
    requires wholes { ArePartsApart wholes.now }
    requires records { AreRecords elf.now records.now }
    requires labels { AreSlotLabels elf.now labels.now }
    requires lows { AreLows elf.now lows.now }
    ensures { (tabled : List (ℕ × ℕ)) → AreWholeParts elf.now tabled wholes.now →
        IfOk result (λ counted. AreCounted elf.now tabled (map as_field counted.items)) }
{
    let mut fields = fields_of(alloc, elf, starts, wholes, records)?;
    let slots = got_fields(alloc, elf, starts, parts, labels, lows)?;
    fields.extend_from_slice(&slots)?;
    sort_fields(&mut fields)?;
    Ok(sweep(alloc, &fields)?)
}
