// Code cells as numbers that are put over a file's bytes. A cell is its address, its width in bytes and what it holds.
ghost use Rattle.std.specs.Prelude.{◌≡◌, ◌+◌, ◌<◌, ◌^◌, ◌++◌, All, IfOk, OnOk};
ghost use Rattle.elf_make.specs.CellNumbers.{AreCellNumbers, IsCellNumber};
ghost use Rattle.elf_make.specs.CellNumbers as spec;

use elf_image::Elf;
use elf_parts::NumberAt;
use elf_plan::area::Shift;
use elf_plan::round::sum;
use elf_plan::unwritable::Unwritable;
use rb_bytes::fault::NoMemory;
use std::alloc::Global;

// Whether one segment loads all bytes of `cell` from the file.
fn is_whole(elf: &Elf, cell: &(u64, u8, u64)) -> bool
    ensures { result ≡ spec.is_whole elf.now.segments.items cell.now }
{
    match elf.segment_at(cell.0) {
        Some(p) => (cell.0 - p.vaddr) as u128 + cell.1 as u128 <= p.filesz.min(p.memsz) as u128,
        None => false,
    }
}

// Adds the bytes of `cell`, the lowest first, each as a cell of one byte.
fn add_bytes(pieces: &mut Vec<(u64, u8, u64)>, cell: &(u64, u8, u64)) -> Result<(), NoMemory>
    requires { cell.now.0 + cell.now.1 < 2 ^ 64 }
    ensures { OnOk result (pieces.new.items ≡ pieces.old.items ++ spec.byte_cells cell.now.0 cell.now.1 cell.now.2) }
{
    let mut rest = cell.2;
    for index in 0..cell.1 {
        pieces.push((cell.0 + index as u64, 1, rest % 256))?;
        rest /= 256;
    }
    Ok(())
}

// Adds `cell`, or its bytes if no segment loads it whole.
fn add_pieces(
    pieces: &mut Vec<(u64, u8, u64)>,
    elf: &Elf,
    cell: &(u64, u8, u64),
) -> Result<(), NoMemory>
    requires { cell.now.0 + cell.now.1 < 2 ^ 64 }
    ensures { OnOk result (pieces.new.items ≡ pieces.old.items ++ spec.pieces_of elf.now.segments.items cell.now) }
{
    if is_whole(elf, cell) {
        pieces.push(*cell)?;
        Ok(())
    } else {
        add_bytes(pieces, cell)
    }
}

// All cells, in pieces that each are in one segment.
fn pieces(
    alloc: Global,
    elf: &Elf,
    cells: &[(u64, u8, u64)],
) -> Result<Vec<(u64, u8, u64)>, NoMemory>
    requires { All (λ cell. cell.0 + cell.1 < 2 ^ 64) cells.now }
    ensures { IfOk result (λ pieces. pieces.items ≡ spec.pieces elf.now.segments.items cells.now) }
{
    let mut pieces = Vec::new(alloc);
    for cell in cells {
        add_pieces(&mut pieces, elf, cell)?;
    }
    Ok(pieces)
}

// `cell` as a number at its offset in the written file. `Layout` if no segment loads it whole from the file.
fn cell_number(elf: &Elf, shift: &Shift, cell: &(u64, u8, u64)) -> Result<NumberAt, Unwritable>
    ensures { IfOk result (IsCellNumber elf.now shift.now cell.now) }
{
    let p = elf.segment_at(cell.0).ok_or(Unwritable::Layout)?;
    let place = cell.0 - p.vaddr;
    if place as u128 + cell.1 as u128 > p.filesz.min(p.memsz) as u128 {
        return Err(Unwritable::Layout);
    }
    Ok(NumberAt {
        offset: shift.moved(sum(p.offset, place)?)?,
        width: cell.1,
        value: cell.2,
    })
}

// The numbers of `cells`, in their order.
fn numbers_of(
    alloc: Global,
    elf: &Elf,
    shift: &Shift,
    cells: &[(u64, u8, u64)],
) -> Result<Vec<NumberAt>, Unwritable>
    ensures { IfOk result (λ numbers. AreCellNumbers elf.now shift.now cells.now numbers.items) }
{
    let mut numbers = Vec::new(alloc);
    for cell in cells {
        let number = cell_number(elf, shift, cell)?;
        numbers.push(number)?;
    }
    Ok(numbers)
}

/// All code cells, in their order: each as one number where a segment loads it whole, and otherwise as its bytes.
pub fn cell_numbers(
    alloc: Global,
    elf: &Elf,
    shift: &Shift,
    cells: &[(u64, u8, u64)],
) -> Result<Vec<NumberAt>, Unwritable>
    requires { All (λ cell. cell.0 + cell.1 < 2 ^ 64) cells.now }
    ensures { IfOk result
        (λ numbers. AreCellNumbers elf.now shift.now (spec.pieces elf.now.segments.items cells.now) numbers.items) }
{
    let pieces = pieces(alloc, elf, cells)?;
    numbers_of(alloc, elf, shift, &pieces)
}
