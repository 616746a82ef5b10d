// The fields of relocations: whether they are in their sections, and whether they contain differences.
ghost use Rattle.std.specs.Prelude.{◌≡◌, ◌↔◌, ◌≤◌, ◌<◌, ◌+◌, ◌%◌, ◌^◌, ℤ, pos, ◌-ℤ◌, IsTrue, IfOk, All, List, ℕ, Some};
ghost use Rattle.std.specs.Prelude.{length, option_map};
ghost use Rattle.std.specs.Int.{int_rem_euclid};
ghost use Rattle.elf_code.specs.Fields.{leb_field, width_size, fixed_size, field_size, HasField, bytes_of_bits};
ghost use Rattle.elf_code.specs.Fields.{HoldsDifference};
ghost use Rattle.elf_code.specs.LoadedNumbers.{loaded_number};
ghost use Rattle.elf_code.specs.Relocations.{Uleb128};
ghost use Rattle.rv_reloc.specs.Labels.{width_of, IsLabelSize};
ghost use Rattle.code_starts.specs.LoadedMemory.{IsLow};
ghost use Rattle.rv_reloc.specs.Records.{seen};
ghost use Rattle.rv_reloc.specs.Tails.{IsKnown, HoldsModulo, AreLebBytes, magnitude};

use crate::labels::{FieldWidth, minus_width, plus_width};
use crate::records::Record;
use crate::tails::{DIFFERENCE_BYTES, Known, holds_bits, tail_at, tails_at};
use crate::types::{is_call_pair, is_ignored};
use code_starts::loaded::loaded_number;
use elf_image::relocation::{
    R_RISCV_64, R_RISCV_IRELATIVE, R_RISCV_SET_ULEB128, R_RISCV_SUB_ULEB128,
};
use elf_image::{Elf, Section};
use rb_bytes::fault::NoMemory;
use std::alloc::Global;

// The size of the field of a relocation that isn't for a label of a difference: two instructions of a call, a 64-bit
// address, or four bytes.
fn fixed_size(kind: u32) -> u64
    ensures { result ≡ fixed_size kind }
{
    if is_call_pair(kind) || kind == R_RISCV_64 || kind == R_RISCV_IRELATIVE {
        8
    } else {
        4
    }
}

// The size of the LEB128 number in a relocation's field, if it ends in the relocation's section.
fn leb_size(elf: &Elf, known: &[Known], relocation: &Record) -> Option<u64>
    requires low { IsLow elf.now }
    requires known { All (IsKnown elf.now) known.now }
    ensures { result ≡ option_map length (leb_field elf.now (seen relocation.now)) }
{
    let tail = tail_at(elf, known, relocation.place)?;
    let end = relocation.section.addr as u128 + relocation.section.size as u128;
    if tail.end as u128 <= end {
        Some(tail.end - relocation.place)
    } else {
        None
    }
}

fn width_size(elf: &Elf, known: &[Known], relocation: &Record, width: FieldWidth) -> Option<u64>
    requires low { IsLow elf.now }
    requires known { All (IsKnown elf.now) known.now }
    ensures { result ≡ width_size elf.now (seen relocation.now) (width_of width) }
{
    match width {
        FieldWidth::Bits6 => Some(1),
        FieldWidth::Bits8 => Some(1),
        FieldWidth::Bits16 => Some(2),
        FieldWidth::Bits32 => Some(4),
        FieldWidth::Bits64 => Some(8),
        FieldWidth::Uleb128 => leb_size(elf, known, relocation),
    }
}

fn field_size(elf: &Elf, known: &[Known], relocation: &Record) -> Option<u64>
    requires low { IsLow elf.now }
    requires known { All (IsKnown elf.now) known.now }
    ensures { result ≡ field_size elf.now (seen relocation.now) }
{
    match plus_width(relocation.kind) {
        Some(width) => width_size(elf, known, relocation, width),
        None => match minus_width(relocation.kind) {
            Some(width) => width_size(elf, known, relocation, width),
            None => Some(fixed_size(relocation.kind)),
        },
    }
}

// Whether the `size` bytes from an address on are in a section.
fn lies_in(section: &Section, place: u64, size: u64) -> bool
    ensures { IsTrue result ↔ ((section.now.addr ≤ place) × (place + size ≤ section.now.addr + section.now.size)) }
{
    section.addr <= place
        && place as u128 + size as u128 <= section.addr as u128 + section.size as u128
}

/// Whether a relocation's field is in its section, or the relocation has no field.
pub fn has_field(elf: &Elf, known: &[Known], relocation: &Record) -> bool
    requires low { IsLow elf.now }
    requires known { All (IsKnown elf.now) known.now }
    ensures { IsTrue result ↔ HasField elf.now (seen relocation.now) }
{
    if is_ignored(relocation.kind) {
        return true;
    }
    match field_size(elf, known, relocation) {
        Some(size) => lies_in(relocation.section, relocation.place, size),
        None => false,
    }
}

// The result has 128 bits, since 2^64 doesn't fit 64.
fn modulus(bits: u8) -> u128
    requires { bits ≤ 64 }
    ensures { result ≡ 2 ^ bits }
{
    1 << bits
}

// Whether two numbers have the same `bits` lowest bits.
fn is_congruent(difference: i128, number: u64, bits: u8) -> bool
    requires { bits ≤ 64 }
    ensures { IsTrue result ↔ (int_rem_euclid difference (pos (2 ^ bits)) ≡ pos (number % 2 ^ bits)) }
{
    let modulus = modulus(bits);
    difference.rem_euclid(modulus as i128) == (number as u128 % modulus) as i128
}

// Whether the field of `bits` bits at `place` contains the difference. A six-bit field takes a byte.
fn holds_number(elf: &Elf, place: u64, bits: u8, difference: i128) -> bool
    requires low { IsLow elf.now }
    requires bits { bits ≤ 64 }
    ensures { IsTrue result ↔ HoldsModulo elf.now place bits difference }
{
    match loaded_number(elf, place, (bits + 7) / 8) {
        Some(number) => is_congruent(difference, number, bits),
        None => false,
    }
}

fn difference_of(to: i128, from: i128) -> i128
    requires to { IsLabelSize to }
    requires from { IsLabelSize from }
    ensures value { result ≡ to -ℤ from }
    ensures size { magnitude result < 128 ^ 10 }
{
    to - from
}

fn holds_leb(elf: &Elf, known: &[Known], relocation: &Record, to: i128, from: i128) -> bool
    requires low { IsLow elf.now }
    requires known { All (IsKnown elf.now) known.now }
    requires to { IsLabelSize to }
    requires from { IsLabelSize from }
    ensures { IsTrue result ↔ HoldsDifference elf.now (seen relocation.now) Uleb128 to from }
{
    match leb_size(elf, known, relocation) {
        Some(_) => holds_bits(elf, known, relocation.place, difference_of(to, from)),
        None => false,
    }
}

/// Whether a relocation's field contains the difference of two labels.
pub fn holds_difference(
    elf: &Elf,
    known: &[Known],
    relocation: &Record,
    width: FieldWidth,
    to: i128,
    from: i128,
) -> bool
    requires low { IsLow elf.now }
    requires known { All (IsKnown elf.now) known.now }
    requires to { IsLabelSize to }
    requires from { IsLabelSize from }
    ensures { IsTrue result ↔ HoldsDifference elf.now (seen relocation.now) (width_of width) to from }
{
    let difference = difference_of(to, from);
    match width {
        FieldWidth::Bits6 => holds_number(elf, relocation.place, 6, difference),
        FieldWidth::Bits8 => holds_number(elf, relocation.place, 8, difference),
        FieldWidth::Bits16 => holds_number(elf, relocation.place, 16, difference),
        FieldWidth::Bits32 => holds_number(elf, relocation.place, 32, difference),
        FieldWidth::Bits64 => holds_number(elf, relocation.place, 64, difference),
        FieldWidth::Uleb128 => holds_leb(elf, known, relocation, to, from),
    }
}

/// The tails of the LEB128 numbers that relocations apply to, sorted by address: from their first bytes on, for their
/// sizes, and from the first byte on that only has sign bits of a difference.
pub fn known_tails(alloc: Global, elf: &Elf, records: &[Record]) -> Result<Vec<Known>, NoMemory>
    requires { IsLow elf.now }
    ensures { IfOk result (λ known. All (IsKnown elf.now) known.items) }
{
    let mut places = Vec::new(alloc);
    for relocation in records {
        if relocation.kind == R_RISCV_SET_ULEB128 || relocation.kind == R_RISCV_SUB_ULEB128 {
            places.push(relocation.place)?;
            places.push(relocation.place.saturating_add(DIFFERENCE_BYTES as u64))?;
        }
    }
    places.sort()?;
    tails_at(alloc, elf, &places)
}
