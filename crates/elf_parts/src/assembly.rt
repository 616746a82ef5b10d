// A written file, put together of its parts.
ghost use Rattle.std.specs.Prelude.{◌≡◌, ◌≤◌, ◌+◌, ◌∷◌, IfOk, All, length, map};
ghost use Rattle.elf_parts.specs.Assembly.{IsAssembled};
ghost use Rattle.elf_parts.specs.Numbers.{CanPut, patch_of};
ghost use Rattle.elf_parts.specs.Parts.{PartsFit, size_of};
ghost use Rattle.elf_parts.specs.Patches.{put_all};

use crate::number_at::{NumberAt, put_numbers};
use crate::parts::{Parts, join_parts};
use crate::patch::put_bytes;
use rb_bytes::fault::NoMemory;
use std::alloc::Global;

// Puts the code cells at their offsets, then the table of program headers, then fields of the file's header.
fn put_patches(
    file: &mut [u8],
    cells: &[NumberAt],
    table_at: usize,
    table: &[u8],
    fields: &[NumberAt],
)
    requires cells { All (CanPut (length file.old)) cells.now }
    requires table { table_at + length table.now ≤ length file.old }
    requires fields { All (CanPut (length file.old)) fields.now }
    ensures { file.new ≡ put_all (put_all file.old (map patch_of cells.now))
        (record { offset = table_at; bytes = table.now } ∷ map patch_of fields.now) }
{
    put_numbers(file, cells);
    put_bytes(file, table_at, table);
    put_numbers(file, fields);
}

/// A file of the parts of `input` and the new `area`, with `tail` after them. Over its bytes are put the code `cells`,
/// then the `table` of program headers at `table_at`, then `fields` of the file's header, so that later ones win.
pub fn assemble(
    alloc: Global,
    parts: &Parts,
    input: &[u8],
    area: &[u8],
    tail: &[u8],
    cells: &[NumberAt],
    table_at: usize,
    table: &[u8],
    fields: &[NumberAt],
) -> Result<Vec<u8>, NoMemory>
    requires can { PartsFit parts.now (length input.now) (length area.now) }
    requires cells { All (CanPut (size_of parts.now + length tail.now)) cells.now }
    requires table { table_at + length table.now ≤ size_of parts.now + length tail.now }
    requires fields { All (CanPut (size_of parts.now + length tail.now)) fields.now }
    ensures { IfOk result
        (λ w. IsAssembled parts.now input.now area.now tail.now cells.now table_at table.now fields.now w.items) }
{
    let mut out = join_parts(alloc, parts, input, area)?;
    out.extend_from_slice(tail)?;
    put_patches(&mut out, cells, table_at, table, fields);
    Ok(out)
}
