// Addresses at which the functions of a file may start or end.
ghost use Rattle.std.specs.Prelude.{ℕ, ◌≡◌, ◌↔◌, ◌++◌, IfOk, OnOk, Contains};
ghost use Rattle.std.specs.List.Sorted.{IsStrictlyIncreasing};
ghost use Rattle.elf_image.specs.file.Cuts.{IsCutAddress};
ghost use Rattle.elf_image.specs.file.CutLists.{bounds, symbol_bounds, section_bounds};

use crate::elf::Elf;
use crate::section::Section;
use crate::symbol::Symbol;
use rb_bytes::fault::NoMemory;
use std::alloc::Global;

/// The cuts of a file, ascending: the bounds of its function symbols and of its sections with code. Ends of 2^64 or
/// more are left out.
pub fn cuts(alloc: Global, elf: &Elf) -> Result<Vec<u64>, NoMemory>
    ensures ascending { IfOk result (λ cuts. IsStrictlyIncreasing cuts.items) }
    ensures exact { IfOk result
        (λ cuts. (a : ℕ) → Contains cuts.items a ↔ IsCutAddress elf.now.symbols.items elf.now.sections.items a) }
{
    let mut cuts = Vec::new(alloc);
    push_symbol_bounds(&mut cuts, &elf.symbols)?;
    push_section_bounds(&mut cuts, &elf.sections)?;
    make_ascending(&mut cuts);
    Ok(cuts)
}

fn push_symbol_bounds(cuts: &mut Vec<u64>, symbols: &[Symbol]) -> Result<(), NoMemory>
    ensures { OnOk result (cuts.new.items ≡ cuts.old.items ++ symbol_bounds symbols.now) }
{
    for symbol in symbols {
        if symbol.names_function() {
            push_bounds(cuts, symbol.value, symbol.size)?;
        }
    }
    Ok(())
}

fn push_section_bounds(cuts: &mut Vec<u64>, sections: &[Section]) -> Result<(), NoMemory>
    ensures { OnOk result (cuts.new.items ≡ cuts.old.items ++ section_bounds sections.now) }
{
    for section in sections {
        if section.holds_code() {
            push_bounds(cuts, section.addr, section.size)?;
        }
    }
    Ok(())
}

fn push_bounds(cuts: &mut Vec<u64>, start: u64, size: u64) -> Result<(), NoMemory>
    ensures { OnOk result (cuts.new.items ≡ cuts.old.items ++ bounds start size) }
{
    cuts.push(start)?;
    if let Some(end) = start.checked_add(size) {
        cuts.push(end)?;
    }
    Ok(())
}

/// Sorts numbers and removes duplicates.
pub fn make_ascending(numbers: &mut Vec<u64>)
    ensures ascending { IsStrictlyIncreasing numbers.new.items }
    ensures same { (x : ℕ) → Contains numbers.new.items x ↔ Contains numbers.old.items x }
{
    numbers.sort_unstable();
    numbers.dedup();
}
