// The labels that relocations add to a field, set it to or subtract from it, and the widths of such fields.
ghost use Rattle.std.specs.Prelude.{◌≡◌, ◌+ℤ◌, ℤ, pos, option_map, IsTrue, ◌↔◌};
ghost use Rattle.elf_code.specs.FileCode.{AreStarts};
ghost use Rattle.elf_code.specs.Relocations.{symbol_value, label, plus_width, minus_width, is_add};
ghost use Rattle.elf_code.specs.Cells.{can_be_cell, IsCodeLabel, HasCodeLabel};
ghost use Rattle.rv_reloc.specs.Labels.{width_of, IsLabelSize};
ghost use Rattle.rv_reloc.specs.Records.{seen};

use crate::records::Record;
use crate::types::is_pc_difference;
use code_starts::start_index::Starts;
use elf_image::Elf;
use elf_image::relocation::*;

/// The width of the field of a relocation that adds, sets or subtracts a label.
#[derive(Clone, Copy)]
pub enum FieldWidth {
    Bits6,
    Bits8,
    Bits16,
    Bits32,
    Bits64,
    /// The width of the LEB128 number in the field.
    Uleb128,
}

/// The width of the field to which a relocation of this type adds a label, or which it sets to one.
pub fn plus_width(kind: u32) -> Option<FieldWidth>
    ensures { option_map width_of result ≡ plus_width kind }
{
    if kind == R_RISCV_SET6 {
        Some(FieldWidth::Bits6)
    } else if kind == R_RISCV_ADD8 || kind == R_RISCV_SET8 {
        Some(FieldWidth::Bits8)
    } else if kind == R_RISCV_ADD16 || kind == R_RISCV_SET16 {
        Some(FieldWidth::Bits16)
    } else if kind == R_RISCV_ADD32 || kind == R_RISCV_SET32 {
        Some(FieldWidth::Bits32)
    } else if kind == R_RISCV_ADD64 {
        Some(FieldWidth::Bits64)
    } else if kind == R_RISCV_SET_ULEB128 {
        Some(FieldWidth::Uleb128)
    } else {
        None
    }
}

/// The width of the field from which a relocation of this type subtracts a label.
pub fn minus_width(kind: u32) -> Option<FieldWidth>
    ensures { option_map width_of result ≡ minus_width kind }
{
    if kind == R_RISCV_SUB6 {
        Some(FieldWidth::Bits6)
    } else if kind == R_RISCV_SUB8 {
        Some(FieldWidth::Bits8)
    } else if kind == R_RISCV_SUB16 {
        Some(FieldWidth::Bits16)
    } else if kind == R_RISCV_SUB32 {
        Some(FieldWidth::Bits32)
    } else if kind == R_RISCV_SUB64 {
        Some(FieldWidth::Bits64)
    } else if kind == R_RISCV_SUB_ULEB128 {
        Some(FieldWidth::Uleb128)
    } else {
        None
    }
}

/// Whether the field of this relocation can be a cell if it contains a difference.
pub fn can_be_cell(relocation: &Record) -> bool
    ensures { result ≡ can_be_cell (seen relocation.now) }
{
    relocation.kind == R_RISCV_ADD32
        || relocation.kind == R_RISCV_ADD64
        || is_pc_difference(relocation.kind)
}

/// The value of a relocation's symbol, or 0 if it has no symbol (index 0).
pub fn symbol_value(elf: &Elf, relocation: &Record) -> u64
    ensures { result ≡ symbol_value elf.now (seen relocation.now) }
{
    if relocation.symbol == 0 {
        return 0;
    }
    match elf.symbols.get(relocation.symbol as usize) {
        Some(symbol) => symbol.value,
        None => 0,
    }
}

fn sum(value: u64, addend: i64) -> i128
    ensures sum { result ≡ pos value +ℤ addend }
    ensures size { IsLabelSize result }
{
    value as i128 + addend as i128
}

/// The label of a relocation, which is the value of its symbol plus its addend. It can be negative.
pub fn label(elf: &Elf, relocation: &Record) -> i128
    ensures label { result ≡ label elf.now (seen relocation.now) }
    ensures size { IsLabelSize result }
{
    sum(symbol_value(elf, relocation), relocation.addend)
}

/// Whether a label is a code address. `elf` is only used by the contract.
pub fn is_code_label(elf: &Elf, starts: &Starts, label: i128) -> bool
    requires { AreStarts elf.now starts.now }
    ensures { IsTrue result ↔ IsCodeLabel elf.now label }
{
    // This call only has an effect on the proof: the members of the list fit 64 bits.
    let _list = starts.list();
    match u64::try_from(label) {
        Ok(address) => starts.has(address),
        Err(_) => false,
    }
}

/// Whether one of two labels is a code address.
pub fn has_code_label(elf: &Elf, starts: &Starts, to: i128, from: i128) -> bool
    requires { AreStarts elf.now starts.now }
    ensures { IsTrue result ↔ HasCodeLabel elf.now to from }
{
    is_code_label(elf, starts, to) || is_code_label(elf, starts, from)
}
