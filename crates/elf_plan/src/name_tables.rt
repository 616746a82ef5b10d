// The sections with symbols and names, which are rewritten.
ghost use Rattle.std.specs.Prelude.{◌≡◌};
ghost use Rattle.std.specs.Option.{option_copied};
ghost use Rattle.elf_image.specs.file.Header.{e_shstrndx};
ghost use Rattle.elf_plan.specs.NameTables as spec;

use crate::unwritable::Unwritable;
use elf_image::header::Header;
use elf_image::section::SHT_SYMTAB;
use elf_image::{Elf, Section};

/// The indices of the sections that are rewritten.
#[derive(Clone, Copy)]
pub struct OwnSections {
    /// The section names.
    pub section_names: usize,
    /// The symbol table, if there is one.
    pub symbols: Option<usize>,
    /// The symbol names, if there are symbols.
    pub symbol_names: Option<usize>,
}

/// The index of the section with the section names.
pub fn place_of_section_names(elf: &Elf) -> usize
    ensures { result ≡ e_shstrndx elf.now.file.now }
{
    let header = Header { file: elf.file };
    header.fields().shstrndx as usize
}

/// The index of the symbol table.
pub fn place_of_symbols(elf: &Elf) -> Option<usize>
    ensures { result ≡ spec.place_of_symbols elf.now }
{
    elf.sections.iter().position(|s| s.kind == SHT_SYMTAB)
}

/// The section with the symbols.
pub fn symbols_section<'a>(elf: &'a Elf<'a>) -> Option<&'a Section<'a>>
    ensures { option_copied result ≡ spec.symbols_section elf.now }
{
    elf.sections.iter().find(|s| s.kind == SHT_SYMTAB)
}

// `index`, if it is the index of a section.
fn among(sections: &[Section], index: usize) -> Option<usize>
    ensures { result ≡ spec.among sections.now index }
{
    if index < sections.len() {
        Some(index)
    } else {
        None
    }
}

/// The index of the section with the symbol names, from the symbol table's `sh_link`. None if there are no symbols.
pub fn place_of_names(elf: &Elf) -> Option<usize>
    ensures { result ≡ spec.place_of_names elf.now }
{
    if elf.symbols.is_empty() {
        return None;
    }
    let table = symbols_section(elf)?;
    among(&elf.sections, table.link as usize)
}

impl OwnSections {
    ghost use Rattle.std.specs.Prelude.{IfOk};
    ghost use Rattle.elf_plan.specs.KnownSections.{IsOwnOf};

    /// The sections of a file that are rewritten. `Layout` if one has two of these uses.
    pub fn new(elf: &Elf) -> Result<OwnSections, Unwritable>
        ensures { IfOk result (IsOwnOf elf.now) }
    {
        let section_names = place_of_section_names(elf);
        let symbols = place_of_symbols(elf);
        let symbol_names = place_of_names(elf);
        if symbols == Some(section_names) || (symbols.is_some() && symbols == symbol_names) {
            return Err(Unwritable::Layout);
        }
        Ok(OwnSections {
            section_names,
            symbols,
            symbol_names,
        })
    }
}
