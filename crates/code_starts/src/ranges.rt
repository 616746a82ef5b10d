// Ranges of addresses, with a fast test of whether one of them contains a given range.
ghost use Rattle.std.specs.Prelude.{◌≡◌, ◌↔◌, ◌<◌, ◌≤◌, ◌+◌, ℕ, IfOk, IsTrue, map, filter};
ghost use Rattle.std.specs.List.Sorted.{IsNonDecreasingBy};
ghost use Rattle.elf_image.specs.file.Cuts.{names_function};
ghost use Rattle.elf_image.specs.file.Sections.{holds_code};
ghost use Rattle.elf_code.specs.Parts.{IsCovered, IsInCode};
ghost use Rattle.elf_image.specs.internal.Extents.{IsInOneExtent};
ghost use Rattle.code_starts.specs.Ranges.{section_extent, symbol_extent};

use elf_image::extent::{Extent, is_covered, reaches_of, sort_by_start};
use elf_image::{Elf, Section, Symbol};
use rb_bytes::fault::NoMemory;
use std::alloc::Global;

/// Ranges of addresses. A single binary search decides whether one of them contains a given range.
#[derive(Drop)]
pub struct Ranges {
    // Sorted by start, each extended to the greatest end of the ranges up to it.
    reaches: Vec<Extent>,
    ghost rising: { IsNonDecreasingBy (λ s. s.start) reaches.items },
    ghost growing: { IsNonDecreasingBy (λ s. s.end) reaches.items },
}

impl Ranges {
    /// Prepares these ranges for searches.
    pub fn new(alloc: Global, mut extents: Vec<Extent>) -> Result<Ranges, NoMemory>
        ensures { IfOk result (λ r. (a e : ℕ) → a < e →
            IsInOneExtent r.reaches.items a e ↔ IsInOneExtent extents.items a e) }
    {
        sort_by_start(&mut extents)?;
        let reaches = reaches_of(alloc, &extents)?;
        Ok(Ranges { reaches })
    }

    /// Whether a single range contains all addresses from `start` to before `end`.
    pub fn hold(&self, start: u64, end: u128) -> bool
        ensures { IsTrue result ↔ IsInOneExtent self.now.reaches.items start end }
    {
        is_covered(&self.reaches, start, end)
    }
}

// The addresses of a section.
fn section_extent(section: &Section) -> Extent
    ensures { result ≡ section_extent section.now }
{
    Extent {
        start: section.addr,
        end: section.addr as u128 + section.size as u128,
        place: 0,
    }
}

fn section_extents(alloc: Global, sections: &[Section]) -> Result<Vec<Extent>, NoMemory>
    ensures { IfOk result (λ extents. extents.items ≡ map section_extent
        (filter (λ s. holds_code s.flags) sections.now)) }
{
    let extents = sections
        .iter()
        .filter(|s| s.holds_code())
        .map(|s| section_extent(s))
        .collect(alloc)?;
    Ok(extents)
}

/// The addresses of the executable sections.
pub fn code_ranges(alloc: Global, elf: &Elf) -> Result<Ranges, NoMemory>
    ensures { IfOk result (λ r. (a : ℕ) → IsInOneExtent r.reaches.items a (a + 1) ↔ IsInCode elf.now a) }
{
    Ranges::new(alloc, section_extents(alloc, &elf.sections)?)
}

// The addresses of a symbol.
fn symbol_extent(symbol: &Symbol) -> Extent
    ensures { result ≡ symbol_extent symbol.now }
{
    Extent {
        start: symbol.value,
        end: symbol.value as u128 + symbol.size as u128,
        place: 0,
    }
}

fn symbol_extents(alloc: Global, symbols: &[Symbol]) -> Result<Vec<Extent>, NoMemory>
    ensures { IfOk result (λ extents. extents.items ≡ map symbol_extent (filter names_function symbols.now)) }
{
    let extents = symbols
        .iter()
        .filter(|s| s.names_function())
        .map(|s| symbol_extent(s))
        .collect(alloc)?;
    Ok(extents)
}

/// The addresses of function symbols.
pub fn function_ranges(alloc: Global, elf: &Elf) -> Result<Ranges, NoMemory>
    ensures { IfOk result
        (λ r. (start end : ℕ) → start < end → IsInOneExtent r.reaches.items start end ↔ IsCovered elf.now start end) }
{
    Ranges::new(alloc, symbol_extents(alloc, &elf.symbols)?)
}
