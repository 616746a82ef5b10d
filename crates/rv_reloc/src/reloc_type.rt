// Relocations with types that aren't supported.
ghost use Rattle.elf_image.specs.declared.elf.Elf.{Elf};
ghost use Rattle.elf_image.specs.faults.LowestPlace.{IsLowest};
ghost use Rattle.elf_code.specs.ReferenceFaults.{IsRelocType};
ghost use Rattle.rv_reloc.specs.Records.{AreRecords};

use crate::records::Record;
use crate::types::is_supported;
use elf_image::lowest::{lower, place_if};

/// The lowest place of a relocation with a type that isn't supported.
pub fn lowest_reloc_type(records: &[Record]) -> Option<u64>
    ensures { (elf : Elf) → AreRecords elf records.now → IsLowest (IsRelocType elf) result }
{
    let mut lowest = None;
    for record in records {
        lowest = lower(lowest, place_if(!is_supported(record.kind), record.place));
    }
    lowest
}
