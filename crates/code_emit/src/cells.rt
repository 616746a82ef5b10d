// The new content of code cells.
ghost use Rattle.std.specs.Prelude.{◌≡◌, All, IfOk, map};
ghost use Rattle.addr_map.specs.Spans.{new};
ghost use Rattle.code_emit.specs.NewInsts.{cell_number};
ghost use Rattle.code_emit.specs.Inputs.{AreLow, IsLowCell, IsLowKind};
ghost use Rattle.code_emit.specs.Output.{new_cell};

use crate::anew::{distance, new_of};
use addr_map::AddrMap;
use rb_bytes::fault::NoMemory;
use rv_code::{CellKind, CodeCell};
use std::alloc::Global;

// The new number of a cell: a new address, or the distance between two, in two's complement.
fn number(moved: &AddrMap, kind: &CellKind) -> u64
    requires lows { AreLow moved.now }
    requires labels { IsLowKind kind.now }
    ensures { result ≡ cell_number (new moved.now) kind.now }
{
    match *kind {
        CellKind::Abs { to } => new_of(moved, to),
        CellKind::Diff { to, from } => {
            distance(new_of(moved, to), new_of(moved, from)).cast_unsigned()
        }
    }
}

// The address of a cell, its width in bytes and its new content, reduced to the width.
fn content(moved: &AddrMap, cell: &CodeCell) -> (u64, u8, u64)
    requires lows { AreLow moved.now }
    requires cell { IsLowCell cell.now }
    ensures { result ≡ new_cell (new moved.now) cell.now }
{
    let whole = number(moved, &cell.kind);
    let content = if cell.width == 4 {
        whole % (1 << 32)
    } else {
        whole
    };
    (cell.addr, cell.width, content)
}

/// The address, the width in bytes and the new content of each cell, in the same order.
pub fn contents(
    alloc: Global,
    moved: &AddrMap,
    cells: &[CodeCell],
) -> Result<Vec<(u64, u8, u64)>, NoMemory>
    requires lows { AreLow moved.now }
    requires cells { All IsLowCell cells.now }
    ensures { IfOk result (λ contents. contents.items ≡ map (new_cell (new moved.now)) cells.now) }
{
    let mut contents = Vec::new(alloc);
    for cell in cells {
        contents.push(content(moved, cell))?;
    }
    Ok(contents)
}
