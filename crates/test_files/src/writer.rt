// A file while it is built: its bytes, and the headers and names of its sections.
use crate::bytes::pad;
use crate::error::BuildError;
use crate::file::ElfFile;
use crate::headers::{NULL_SECTION, push_section_header};
use crate::parts::{Relocation, SHF_INFO_LINK, SHN_ABS, STB_LOCAL, Section, Symbol};
use crate::tables::{NULL_SYMBOL, RelaEntry, SymbolEntry, push_relocation, push_symbol};
use elf_image::SectionHeader;
use elf_image::header::EHDR_SIZE;
use elf_image::relocation::{RELA_SIZE, SHT_RELA};
use elf_image::section::{SHT_STRTAB, SHT_SYMTAB};
use elf_image::symbol::SYM_SIZE;
use std::alloc::Global;

fn to_u32(count: usize) -> Result<u32, BuildError> {
    u32::try_from(count).ok().ok_or(BuildError::TooLarge)
}

fn to_u16(count: usize) -> Result<u16, BuildError> {
    u16::try_from(count).ok().ok_or(BuildError::TooLarge)
}

/// The bytes so far, from the file header on, and the headers and names of the sections so far.
#[derive(Drop)]
pub(crate) struct Writer {
    pub(crate) bytes: Vec<u8>,
    headers: Vec<SectionHeader>,
    names: Vec<u8>,
}

impl Writer {
    /// Starts with space for the file header, the null section, and the empty name.
    pub(crate) fn new(alloc: Global) -> Result<Writer, BuildError> {
        let mut bytes = Vec::new(alloc);
        bytes.resize(EHDR_SIZE, 0)?;
        let mut headers = Vec::new(alloc);
        headers.push(NULL_SECTION)?;
        let mut names = Vec::new(alloc);
        names.push(0)?;
        Ok(Writer {
            bytes,
            headers,
            names,
        })
    }

    // Appends the name `front` followed by `name`, and returns its index.
    fn add_name(&mut self, front: &[u8], name: &[u8]) -> Result<u32, BuildError> {
        let begin = to_u32(self.names.len())?;
        self.names.extend_from_slice(front)?;
        self.names.extend_from_slice(name)?;
        self.names.push(0)?;
        Ok(begin)
    }

    /// Adds a section's header, and its bytes unless it has a fixed offset. `front` is put before its name.
    pub(crate) fn add_section(
        &mut self,
        front: &[u8],
        section: &Section<'_>,
    ) -> Result<(), BuildError> {
        let name = self.add_name(front, section.name)?;
        let offset = match section.offset {
            Some(offset) => offset,
            None => {
                pad(&mut self.bytes, section.align)?;
                let offset = self.bytes.len() as u64;
                self.bytes.extend_from_slice(section.bytes)?;
                offset
            }
        };
        self.headers.push(SectionHeader {
            name,
            kind: section.kind,
            flags: section.flags,
            addr: section.addr,
            offset,
            size: section.size,
            link: section.link,
            info: section.info,
            align: section.align,
            entsize: section.entsize,
        })?;
        Ok(())
    }

    /// Adds a section of relocations for each section that has some.
    pub(crate) fn add_relocations(
        &mut self,
        alloc: Global,
        file: &ElfFile<'_>,
    ) -> Result<(), BuildError> {
        let link = symbol_table_index(file)?;
        for (index, section) in file.sections.iter().enumerate() {
            if has_relocations(&file.relocations, section.name) {
                let table = relocation_table(alloc, file, section.name)?;
                let rela = Section {
                    kind: SHT_RELA,
                    flags: SHF_INFO_LINK,
                    link,
                    info: to_u32(index)?.saturating_add(1),
                    align: 8,
                    entsize: RELA_SIZE as u64,
                    ..Section::unloaded(section.name, &table)
                };
                self.add_section(b".rela", &rela)?;
            }
        }
        Ok(())
    }

    /// Adds the symbols and their names, if there are symbols.
    pub(crate) fn add_symbols(
        &mut self,
        alloc: Global,
        file: &ElfFile<'_>,
    ) -> Result<(), BuildError> {
        if file.symbols.is_empty() {
            return Ok(());
        }
        let mut names = Vec::new(alloc);
        let table = symbol_table(alloc, file, &mut names)?;
        let symbols = Section {
            kind: SHT_SYMTAB,
            link: symbol_table_index(file)?.saturating_add(1),
            info: first_global(&file.symbols)?,
            align: 8,
            entsize: SYM_SIZE as u64,
            ..Section::unloaded(b".symtab", &table)
        };
        self.add_section(b"", &symbols)?;
        let texts = Section {
            kind: SHT_STRTAB,
            ..Section::unloaded(b".strtab", &names)
        };
        self.add_section(b"", &texts)
    }

    /// Adds the section with the section names.
    pub(crate) fn add_names(&mut self) -> Result<(), BuildError> {
        let name = self.add_name(b"", b".shstrtab")?;
        let offset = self.bytes.len() as u64;
        self.bytes.extend_from_slice(&self.names)?;
        self.headers.push(SectionHeader {
            name,
            kind: SHT_STRTAB,
            offset,
            size: self.names.len() as u64,
            align: 1,
            ..NULL_SECTION
        })?;
        Ok(())
    }

    /// Appends the section headers, and returns their offset.
    pub(crate) fn add_section_headers(&mut self) -> Result<u64, BuildError> {
        pad(&mut self.bytes, 8)?;
        let shoff = self.bytes.len() as u64;
        for header in &self.headers {
            push_section_header(&mut self.bytes, header)?;
        }
        Ok(shoff)
    }

    /// The number of section headers.
    pub(crate) fn section_count(&self) -> Result<u16, BuildError> {
        to_u16(self.headers.len())
    }
}

fn has_relocations(relocations: &[Relocation<'_>], section: &[u8]) -> bool {
    for relocation in relocations {
        if relocation.section == section {
            return true;
        }
    }
    false
}

// The index of the symbol table, which follows the relocation sections, or 0 if there is none.
fn symbol_table_index(file: &ElfFile<'_>) -> Result<u32, BuildError> {
    if file.symbols.is_empty() {
        return Ok(0);
    }
    let mut index = to_u32(file.sections.len())?.saturating_add(1);
    for section in &file.sections {
        if has_relocations(&file.relocations, section.name) {
            index = index.saturating_add(1);
        }
    }
    Ok(index)
}

// The index of the symbol with this name.
fn symbol_index(symbols: &[Symbol<'_>], name: &[u8]) -> Result<u32, BuildError> {
    if name.is_empty() {
        return Ok(0);
    }
    for (index, symbol) in symbols.iter().enumerate() {
        if symbol.name == name {
            return Ok(to_u32(index)?.saturating_add(1));
        }
    }
    Err(BuildError::NoSymbol)
}

// The relocation table of a section.
fn relocation_table(
    alloc: Global,
    file: &ElfFile<'_>,
    section: &[u8],
) -> Result<Vec<u8>, BuildError> {
    let mut table = Vec::new(alloc);
    for relocation in &file.relocations {
        if relocation.section == section {
            push_relocation(
                &mut table,
                &RelaEntry {
                    offset: relocation.offset,
                    kind: relocation.kind,
                    symbol: symbol_index(&file.symbols, relocation.symbol)?,
                    addend: relocation.addend,
                },
            )?;
        }
    }
    Ok(table)
}

// The index of the first loaded section that contains an address.
fn section_of(sections: &[Section<'_>], addr: u64) -> Result<u16, BuildError> {
    for (index, section) in sections.iter().enumerate() {
        if section.has_address(addr) {
            return Ok(to_u16(index)?.saturating_add(1));
        }
    }
    Ok(SHN_ABS)
}

// The entries of the symbols. Their names are appended to `names`.
fn symbol_table(
    alloc: Global,
    file: &ElfFile<'_>,
    names: &mut Vec<u8>,
) -> Result<Vec<u8>, BuildError> {
    let mut table = Vec::new(alloc);
    push_symbol(&mut table, &NULL_SYMBOL)?;
    names.push(0)?;
    for symbol in &file.symbols {
        push_symbol(
            &mut table,
            &SymbolEntry {
                name: to_u32(names.len())?,
                info: (symbol.binding % 16) * 16 + symbol.kind % 16,
                other: symbol.other,
                section: match symbol.section {
                    Some(index) => index,
                    None => section_of(&file.sections, symbol.value)?,
                },
                value: symbol.value,
                size: symbol.size,
            },
        )?;
        names.extend_from_slice(symbol.name)?;
        names.push(0)?;
    }
    Ok(table)
}

// `sh_info` of the symbol table: the index of the first symbol that isn't local. gABI, "Symbol Table".
fn first_global(symbols: &[Symbol<'_>]) -> Result<u32, BuildError> {
    for (index, symbol) in symbols.iter().enumerate() {
        if symbol.binding != STB_LOCAL {
            return Ok(to_u32(index)?.saturating_add(1));
        }
    }
    Ok(to_u32(symbols.len())?.saturating_add(1))
}
