// Clause `Cell`: whether code cells and the loaded field of the entry point hold their new values.
ghost use Rattle.std.specs.Prelude.{◌≡◌, ◌↔◌, ◌%◌, ◌^◌, All, IfNone, IsTrue, Some};
ghost use Rattle.std.specs.List.Sorted.{IsNonDecreasingBy};
ghost use Rattle.rv_code.specs.isa.TwosComplement.{unsigned64};
ghost use Rattle.rv_code.specs.machine.MemoryNumbers.{number_in};
ghost use Rattle.elf_image.specs.declared.elf.Elf.{Elf};
ghost use Rattle.elf_image.specs.faults.LowestPlace.{IsLowest};
ghost use Rattle.elf_image.specs.memory.Executables.{executable_read, memory_of};
ghost use Rattle.elf_image.specs.memory.HiddenFields.{e_entry_field};
ghost use Rattle.elf_image.specs.memory.LoadedBytes.{address_of};
ghost use Rattle.code_starts.specs.LoadedMemory.{IsLow};
ghost use Rattle.sym_machine.specs.SymStart.{symbol_of};
ghost use Rattle.move_law.specs.FaithfulRewrite.{KeepsCell, KeepsCells};
ghost use Rattle.move_law.specs.RelocatedValues.{distance, number_of_symbol};
ghost use Rattle.move_law.specs.Rewrite.{Rewrite};
ghost use Rattle.map_check.specs.FirstFalse.{KeepsCellsAt};
ghost use Rattle.map_check.specs.Lacking.{LacksAt};
ghost use Rattle.map_check.specs.internal.Cells.{HasWidth};
ghost use Rattle.map_check.specs.internal.InstRows.{IsChecked};

use crate::found::new_of;
use addr_map::Span;
use code_starts::loaded::loaded_number;
use elf_image::Elf;
use elf_image::lowest::{lower, place_if};
use rv_code::{CellKind, CodeCell};

// The distance of `to` from `from`, modulo 2^64.
fn difference(to: u64, from: u64) -> u64
    ensures { result ≡ unsigned64 (distance to from) }
{
    to.wrapping_sub(from)
}

// The new number of a cell: an address, or the distance between two addresses.
fn number_of(table: &[Span], kind: &CellKind) -> u64
    requires { IsNonDecreasingBy (λ s. s.input) table.now }
    ensures { (r : Rewrite) (output : Elf) → IsChecked r output table.now →
        result ≡ number_of_symbol r (symbol_of kind.now) }
{
    match *kind {
        CellKind::Abs { to } => new_of(table, to),
        CellKind::Diff { to, from } => difference(new_of(table, to), new_of(table, from)),
    }
}

// The low bytes of `number` that fit in `cell`, which has 4 or 8 bytes.
fn cut(number: u64, cell: &CodeCell) -> u64
    requires { HasWidth cell.now }
    ensures { result ≡ number % 256 ^ cell.now.width }
{
    if cell.width == 4 {
        number % (1 << 32)
    } else {
        number
    }
}

// Whether a cell holds its new value.
fn keeps_cell(output: &Elf, table: &[Span], cell: &CodeCell) -> bool
    requires low { IsLow output.now }
    requires sorted { IsNonDecreasingBy (λ s. s.input) table.now }
    requires width { HasWidth cell.now }
    ensures { (r : Rewrite) → IsChecked r output.now table.now → IsTrue result ↔ KeepsCell r cell.now }
{
    let wanted = cut(number_of(table, &cell.kind), cell);
    match loaded_number(output, cell.addr, cell.width) {
        Some(found) => found == wanted,
        None => false,
    }
}

// The lowest address of a cell that doesn't hold its new value.
fn lowest_unkept(output: &Elf, table: &[Span], cells: &[CodeCell]) -> Option<u64>
    requires low { IsLow output.now }
    requires sorted { IsNonDecreasingBy (λ s. s.input) table.now }
    requires widths { All HasWidth cells.now }
    ensures all { (r : Rewrite) → IsChecked r output.now table.now → IfNone result (All (KeepsCell r) cells.now) }
    ensures lowest { (r : Rewrite) → IsChecked r output.now table.now →
        IsLowest (LacksAt (KeepsCell r) (λ c. c.addr) cells.now) result }
{
    let mut lowest = None;
    for cell in cells {
        let kept = keeps_cell(output, table, cell);
        lowest = lower(lowest, place_if(!kept, cell.addr));
    }
    lowest
}

// Whether the eight bytes at `address` are the output's entry point.
fn holds_entry(output: &Elf, address: u64) -> bool
    requires { IsLow output.now }
    ensures { IsTrue result ↔ (number_in (memory_of (executable_read output.now)) address 8 ≡ Some output.now.entry) }
{
    match loaded_number(output, address, 8) {
        Some(number) => number == output.entry,
        None => false,
    }
}

/// The lowest address of a cell, or of the loaded field of the entry point, that doesn't hold its new value. `entry` is
/// the address of this field, if it is loaded.
pub fn lowest_bad_cell(
    output: &Elf,
    table: &[Span],
    cells: &[CodeCell],
    entry: Option<u64>,
) -> Option<u64>
    requires low { IsLow output.now }
    requires sorted { IsNonDecreasingBy (λ s. s.input) table.now }
    requires widths { All HasWidth cells.now }
    ensures all { (r : Rewrite) → IsChecked r output.now table.now → r.code.cells ≡ cells.now →
        entry ≡ address_of r.input e_entry_field → IfNone result (KeepsCells r) }
    ensures lowest { (r : Rewrite) → IsChecked r output.now table.now → r.code.cells ≡ cells.now →
        entry ≡ address_of r.input e_entry_field → IsLowest (λ a. KeepsCellsAt r a → ⊥) result }
{
    let lowest = lowest_unkept(output, table, cells);
    match entry {
        Some(address) => {
            let kept = holds_entry(output, address);
            lower(lowest, place_if(!kept, address))
        }
        None => lowest,
    }
}
