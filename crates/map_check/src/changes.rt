// The bytes that may change in a rewrite.
ghost use Rattle.std.specs.Prelude.{◌≡◌, ◌≤◌, ◌<◌, ◌+◌, ◌||◌, ℕ, AllPairs, length, slice_index_or};
ghost use Rattle.std.specs.List.{list_any};
ghost use Rattle.std.specs.List.Sorted.{IsNonDecreasingBy};
ghost use Rattle.rv_code.specs.declared.cell.CodeCell.{CodeCell};
ghost use Rattle.elf_image.specs.memory.LoadedBytes.{is_in_range};
ghost use Rattle.sym_machine.specs.SymStart.{code_cell_range};
ghost use Rattle.move_law.specs.FaithfulRewrite.{may_change};
ghost use Rattle.move_law.specs.Rewrite.{Rewrite};
ghost use Rattle.map_check.specs.internal.Cells.{AreApart};
ghost use Rattle.map_check.specs.internal.KeptBytes.{AreChangesOf, in_entry};

use crate::headers::{Headers, is_hidden_field};
use elf_image::Elf;
use rv_code::CodeCell;

/// The bytes that may change: bytes of code cells, of the loaded field of the entry point, and of hidden fields.
#[derive(Clone, Copy)]
pub struct Changes<'a> {
    /// Code cells in order of their addresses, which share no byte.
    pub cells: &'a [CodeCell],
    /// Which fields of the headers are hidden.
    pub headers: Headers,
}

// Whether the byte at `a` is in `cell`.
fn has_byte(cell: &CodeCell, a: u64) -> bool
    ensures { result ≡ is_in_range a (code_cell_range cell.now) }
{
    cell.addr <= a && a - cell.addr < cell.width as u64
}

// Whether the byte at `a` is in the field of the entry point: eight bytes, loaded at `entry`.
fn in_entry(entry: Option<u64>, a: u64) -> bool
    ensures { result ≡ in_entry entry a }
{
    match entry {
        Some(start) => start <= a && a - start < 8,
        None => false,
    }
}

// The number of cells that start at or below `a`.
fn count_up_to(cells: &[CodeCell], a: u64) -> usize
    requires { IsNonDecreasingBy (λ c. c.addr) cells.now }
    ensures bound { result ≤ length cells.now }
    ensures below { (k : ℕ) (d : CodeCell) → k < result → (slice_index_or cells.now k d).addr ≤ a }
    ensures above { (k : ℕ) (d : CodeCell) → result ≤ k → k < length cells.now →
        a < (slice_index_or cells.now k d).addr }
{
    cells.partition_point(|c| c.addr <= a)
}

// Whether the byte at `a` is in a cell.
fn in_cells(cells: &[CodeCell], a: u64) -> bool
    requires { AreApart cells.now }
    ensures { result ≡ list_any (λ cell. is_in_range a (code_cell_range cell)) cells.now }
{
    let above = count_up_to(cells, a);
    if above == 0 {
        return false;
    }
    has_byte(&cells[above - 1], a)
}

// Whether one of the three is true. This is a function so that the proof of its caller has one case instead of eight.
fn any_of(a: bool, b: bool, c: bool) -> bool
    ensures { result ≡ (a || b || c) }
{
    a || b || c
}

/// Whether the byte at `a` may change.
pub fn may_change(input: &Elf, changes: Changes, a: u64) -> bool
    requires { AreApart changes.cells.now }
    ensures { (r : Rewrite) → r.input ≡ input.now → AreChangesOf r changes.entry → result ≡ may_change r a }
{
    let cell = in_cells(changes.cells, a);
    let entry = in_entry(changes.headers.entry, a);
    let hidden = is_hidden_field(input, &changes.headers, a);
    any_of(cell, entry, hidden)
}
