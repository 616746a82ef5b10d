// Decides whether the table of program headers stays with the loaded bytes around it. gABI, "Program Header".
ghost use Rattle.std.specs.Prelude.{◌≡◌};
ghost use Rattle.std.specs.List.{list_any};
ghost use Rattle.elf_image.specs.memory.LoadedBytes.{loads_range};
ghost use Rattle.elf_plan.specs.FileLayout as layout;

use crate::area::Shift;
use elf_image::segment::PHDR_SIZE;
use elf_image::{Elf, Segment};

// Whether a single segment loads the whole table of program headers.
fn is_loaded_table(elf: &Elf) -> bool
    ensures { result ≡ list_any (loads_range (layout.table_of elf.now)) elf.now.segments.items }
{
    let segments: &[Segment] = &elf.segments;
    let size = (PHDR_SIZE * segments.len()) as u64;
    segments.iter().any(|p| p.loads_range(elf.phoff, size))
}

/// Whether the table of program headers starts before the end of the executable segment, or is completely loaded by a
/// segment. Any other table is rewritten after the loaded bytes.
pub fn is_kept_table(elf: &Elf, shift: &Shift) -> bool
    ensures { result ≡ layout.is_kept_table elf.now shift.now }
{
    elf.phoff < shift.from || is_loaded_table(elf)
}
