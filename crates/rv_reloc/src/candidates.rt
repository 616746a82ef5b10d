// The fields that can be cells.
ghost use Rattle.std.specs.Prelude.{◌≡◌, ◌↔◌, ℕ, ℤ, ◌+◌, ◌<◌, ◌≤◌, ◌++◌, ◌^◌, IsTrue, IsSomeAnd, IfSome, IfOk, OnOk};
ghost use Rattle.std.specs.Prelude.{OnSome, All, List, Contains, Some, map, option_map};
ghost use Rattle.elf_code.specs.Cells.{Field, address_width};
ghost use Rattle.elf_code.specs.FileCode.{AreStarts};
ghost use Rattle.elf_image.specs.memory.LoadedBytes.{IsInHeaders};
ghost use Rattle.rv_reloc.specs.Candidates.{AreFree, IsFreeByte, IsCodeField, IsCellField, IsFieldOf, cell_bytes};
ghost use Rattle.rv_reloc.specs.Finds.{AreFound};
ghost use Rattle.code_starts.specs.Parts.{ArePartsApart};
ghost use Rattle.rv_reloc.specs.Records.{AreRecords, seen};
ghost use Rattle.code_starts.specs.WholeParts.{AreWholeParts};
ghost use Rattle.elf_code.specs.Relocations.{relocations};
ghost use Rattle.code_starts.specs.LoadedMemory.{IsLow};
ghost use Rattle.rv_reloc.specs.CountedFields.{as_field};

use crate::differences::{Difference, crosses, difference_of};
use crate::labels::{FieldWidth, can_be_cell};
use crate::records::Record;
use crate::sweep::{Candidate, Content};
use crate::types::is_address;
use code_starts::loaded::loaded_number;
use code_starts::parts::Part;
use code_starts::start_index::Starts;
use elf_image::Elf;
use elf_image::header::EHDR_SIZE;
use elf_image::relocation::R_RISCV_32;
use elf_image::segment::{ADDRESS_END, PHDR_SIZE};
use rb_bytes::fault::NoMemory;
use rb_bytes::lists::push_some;
use std::alloc::Global;

// Whether the byte at an offset is in the file header or in the table of program headers.
fn is_in_headers(elf: &Elf, offset: u128) -> bool
    requires { offset < 2 ^ 65 }
    ensures { IsTrue result ↔ IsInHeaders elf.now offset }
{
    let table = elf.phoff as u128;
    offset < EHDR_SIZE as u128
        || (table <= offset && offset < table + PHDR_SIZE as u128 * elf.segments.len() as u128)
}

// Whether the byte at an address comes from the file, but not from its headers, which a rewrite changes.
fn is_free_byte(elf: &Elf, address: u64) -> bool
    ensures { IsTrue result ↔ IsFreeByte elf.now address }
{
    match elf.file_offset(address) {
        Some(offset) => !is_in_headers(elf, offset),
        None => false,
    }
}

// Whether all bytes of a field come from the file, and none from its headers.
fn are_free(elf: &Elf, place: u64, width: u8) -> bool
    requires low { IsLow elf.now }
    requires width { 0 < width }
    ensures { IsTrue result ↔ AreFree elf.now place width }
{
    if place >= ADDRESS_END {
        return false;
    }
    for index in 0..width {
        if !is_free_byte(elf, place + index as u64) {
            return false;
        }
    }
    true
}

/// The field of `width` bytes at `place`, if it contains a code address and can be a cell.
pub fn code_field(elf: &Elf, starts: &Starts, place: u64, width: u8) -> Option<Candidate>
    requires low { IsLow elf.now }
    requires starts { AreStarts elf.now starts.now }
    requires width { 0 < width }
    requires bound { width ≤ 8 }
    ensures is { IfSome (option_map as_field result) (IsCodeField elf.now place width) }
    ensures only { (f : Field) → IsCodeField elf.now place width f → option_map as_field result ≡ Some f }
{
    let to = loaded_number(elf, place, width)?;
    if starts.has(to) && are_free(elf, place, width) {
        Some(Candidate {
            place,
            width,
            content: Content::Address { to },
        })
    } else {
        None
    }
}

// The width in bytes of the address that a relocation of this type sets.
fn address_width(kind: u32) -> u8
    ensures { result ≡ address_width kind }
{
    if kind == R_RISCV_32 { 4 } else { 8 }
}

// The width in bytes of a difference, if it can be a cell.
fn cell_bytes(width: FieldWidth) -> Option<u8>
    ensures { result ≡ cell_bytes width }
{
    match width {
        FieldWidth::Bits6 => None,
        FieldWidth::Bits8 => None,
        FieldWidth::Bits16 => None,
        FieldWidth::Bits32 => Some(4),
        FieldWidth::Bits64 => Some(8),
        FieldWidth::Uleb128 => None,
    }
}

// The field of a difference, if it can be a cell.
fn cell_field(
    elf: &Elf,
    starts: &Starts,
    wholes: &[Part],
    place: u64,
    difference: &Difference,
) -> Option<Candidate>
    requires low { IsLow elf.now }
    requires starts { AreStarts elf.now starts.now }
    requires wholes { ArePartsApart wholes.now }
    ensures is { (tabled : List (ℕ × ℕ)) → AreWholeParts elf.now tabled wholes.now →
        IfSome (option_map as_field result) (IsCellField elf.now tabled place difference.now) }
    ensures only { (tabled : List (ℕ × ℕ)) (f : Field) → AreWholeParts elf.now tabled wholes.now →
        IsCellField elf.now tabled place difference.now f → option_map as_field result ≡ Some f }
{
    if !crosses(elf, starts, wholes, difference) {
        return None;
    }
    let width = cell_bytes(difference.width)?;
    if !are_free(elf, place, width) {
        return None;
    }
    Some(Candidate {
        place,
        width,
        content: Content::Difference {
            to: difference.to,
            from: difference.from,
        },
    })
}

// A relocation's field, if it can be a cell. `near` is a guess for the index of the relocation in `records`.
fn field_of(
    elf: &Elf,
    starts: &Starts,
    wholes: &[Part],
    records: &[Record],
    near: usize,
    relocation: &Record,
) -> Option<Candidate>
    requires low { IsLow elf.now }
    requires starts { AreStarts elf.now starts.now }
    requires wholes { ArePartsApart wholes.now }
    requires records { AreRecords elf.now records.now }
    requires listed { Contains (relocations elf.now) (seen relocation.now) }
    ensures is { (tabled : List (ℕ × ℕ)) → AreWholeParts elf.now tabled wholes.now →
        IfSome (option_map as_field result) (IsFieldOf elf.now tabled (seen relocation.now)) }
    ensures only { (tabled : List (ℕ × ℕ)) (f : Field) → AreWholeParts elf.now tabled wholes.now →
        IsFieldOf elf.now tabled (seen relocation.now) f → option_map as_field result ≡ Some f }
{
    if is_address(relocation.kind) {
        return code_field(
            elf,
            starts,
            relocation.place,
            address_width(relocation.kind),
        );
    }
    if !can_be_cell(relocation) {
        return None;
    }
    let difference = difference_of(elf, records, near, relocation)?;
    cell_field(elf, starts, wholes, relocation.place, &difference)
}

/// The fields of relocations that can be cells.
pub fn fields_of(
    alloc: Global,
    elf: &Elf,
    starts: &Starts,
    wholes: &[Part],
    records: &[Record],
) -> Result<Vec<Candidate>, NoMemory>
    requires low { IsLow elf.now }
    requires starts { AreStarts elf.now starts.now }
    requires wholes { ArePartsApart wholes.now }
    requires records { AreRecords elf.now records.now }
    ensures { (tabled : List (ℕ × ℕ)) → AreWholeParts elf.now tabled wholes.now →
        IfOk result (λ fields. AreFound (λ r f. IsFieldOf elf.now tabled (seen r) f) records.now
        (map as_field fields.items)) }
{
    let mut fields = Vec::new(alloc);
    for (index, relocation) in records.iter().enumerate() {
        push_some(
            &mut fields,
            field_of(elf, starts, wholes, records, index, relocation),
        )?;
    }
    Ok(fields)
}
