// Files that select routines when they start, and files that were rewritten before.
ghost use Rattle.std.specs.Prelude.{◌≡◌, ◌≢◌, ◌↔◌, ◌%◌, ℕ, IsTrue, IsSomeAnd, nat_eq, codes, slice_get};
ghost use Rattle.std.specs.List.{starts_with};
ghost use Rattle.elf_image.specs.declared.elf.Elf.{Elf};
ghost use Rattle.elf_image.specs.declared.relocation.TheConstants.{R_RISCV_IRELATIVE};
ghost use Rattle.elf_image.specs.declared.symbol.TheConstants.{STT_GNU_IFUNC};
ghost use Rattle.elf_image.specs.faults.LowestPlace.{IsLowest};
ghost use Rattle.elf_code.specs.ReferenceFaults.{IsStubs, IsIfuncOrPlt, IsAlreadyMoved};
ghost use Rattle.rv_reloc.specs.Places.{IsPlaceOf};
ghost use Rattle.rv_reloc.specs.Records.{AreRecords};

use crate::entry_runs::is_named;
use crate::records::Record;
use elf_image::lowest::{lower, place_if};
use elf_image::relocation::R_RISCV_IRELATIVE;
use elf_image::section::OLD_PREFIX;
use elf_image::symbol::STT_GNU_IFUNC;
use elf_image::{Elf, Section, Symbol};

fn lowest_ifunc(symbols: &[Symbol]) -> Option<u64>
    ensures { IsLowest (IsPlaceOf (λ s. s.value) (λ s. s.info % 16 ≡ STT_GNU_IFUNC) symbols.now) result }
{
    let mut lowest = None;
    for symbol in symbols {
        lowest = lower(
            lowest,
            place_if(symbol.kind() == STT_GNU_IFUNC, symbol.value),
        );
    }
    lowest
}

fn has_stubs(section: &Section) -> bool
    ensures { IsTrue result ↔ (IsStubs section.now × (section.now.size ≢ 0)) }
{
    (is_named(section, b".plt") || is_named(section, b".iplt")) && section.size != 0
}

fn lowest_stubs(sections: &[Section]) -> Option<u64>
    ensures { IsLowest (IsPlaceOf (λ s. s.addr) (λ s. IsStubs s × (s.size ≢ 0)) sections.now) result }
{
    let mut lowest = None;
    for section in sections {
        lowest = lower(lowest, place_if(has_stubs(section), section.addr));
    }
    lowest
}

fn lowest_irelative(records: &[Record]) -> Option<u64>
    ensures { IsLowest (IsPlaceOf (λ r. r.place) (λ r. r.kind ≡ R_RISCV_IRELATIVE) records.now) result }
{
    let mut lowest = None;
    for relocation in records {
        lowest = lower(
            lowest,
            place_if(relocation.kind == R_RISCV_IRELATIVE, relocation.place),
        );
    }
    lowest
}

/// The lowest place that shows that routines are selected when the program starts: a symbol of type `STT_GNU_IFUNC`, a
/// section of stubs that isn't empty, or a relocation `R_RISCV_IRELATIVE`.
pub fn lowest_ifunc_or_plt(elf: &Elf, records: &[Record]) -> Option<u64>
    requires { AreRecords elf.now records.now }
    ensures { IsLowest (IsIfuncOrPlt elf.now) result }
{
    let symbol = lowest_ifunc(&elf.symbols);
    let section = lowest_stubs(&elf.sections);
    let relocation = lowest_irelative(records);
    let lowest = lower(symbol, section);
    lower(lowest, relocation)
}

/// The index of the first section that shows that the file was rewritten before.
pub fn lowest_already_moved(sections: &[Section]) -> Option<u64>
    ensures { (elf : Elf) → elf.sections.items ≡ sections.now → IsLowest (IsAlreadyMoved elf) result }
{
    for (index, section) in sections.iter().enumerate() {
        if section.name.starts_with(OLD_PREFIX) {
            return Some(index as u64);
        }
    }
    None
}
