// The sections of a sample: their contents one after another, and then their headers. gABI, "Section Header".
use crate::numbers::{low, put_text};
use crate::places::round_up;
use elf_image::SectionHeader;
use elf_image::relocation::{RELA_SIZE, SHT_RELA};
use elf_image::section::{SHT_PROGBITS, SHT_STRTAB, SHT_SYMTAB};
use elf_image::symbol::SYM_SIZE;
use elf_parts::spell::put_sections;
use elf_plan::section_bytes::SHT_NULL;
use rb_bytes::fault::NoMemory;
use std::alloc::Global;

/// The index of the section with the code.
pub const TEXT: u16 = 1;

// The flag of relocations: the header's `info` is the index of the section to which they apply.
const SHF_INFO_LINK: u64 = 0x40;

/// The header of a section that isn't loaded. Its name, offset and size are set together with its contents.
pub fn unloaded(kind: u32) -> SectionHeader {
    SectionHeader {
        name: 0,
        kind,
        flags: 0,
        addr: 0,
        offset: 0,
        size: 0,
        link: 0,
        info: 0,
        align: 1,
        entsize: 0,
    }
}

/// The header of a section that is loaded.
pub fn loaded(flags: u64, addr: u64, align: u64) -> SectionHeader {
    SectionHeader {
        flags,
        addr,
        align,
        ..unloaded(SHT_PROGBITS)
    }
}

/// The header of relocations of the section with index `section`. `symbols` is the index of the symbol table.
pub fn relocations(symbols: u32, section: u32) -> SectionHeader {
    SectionHeader {
        flags: SHF_INFO_LINK,
        link: symbols,
        info: section,
        align: 8,
        entsize: RELA_SIZE as u64,
        ..unloaded(SHT_RELA)
    }
}

/// The header of a symbol table whose names are in the section with index `names`. All symbols except the null symbol
/// are global.
pub fn symbol_table(names: u32) -> SectionHeader {
    SectionHeader {
        link: names,
        info: 1,
        align: 8,
        entsize: SYM_SIZE as u64,
        ..unloaded(SHT_SYMTAB)
    }
}

/// The sections of a file whose headers at the start take `front` bytes.
#[derive(Drop)]
pub struct Sections {
    front: u64,
    /// The bytes of the file after the headers at the start.
    pub bytes: Vec<u8>,
    names: Vec<u8>,
    headers: Vec<SectionHeader>,
}

impl Sections {
    /// Only the null section.
    pub fn new(alloc: Global, front: u64) -> Result<Sections, NoMemory> {
        let mut names = Vec::new(alloc);
        names.push(0)?;
        let mut headers = Vec::new(alloc);
        headers.push(SectionHeader {
            align: 0,
            ..unloaded(SHT_NULL)
        })?;
        Ok(Sections {
            front,
            bytes: Vec::new(alloc),
            names,
            headers,
        })
    }

    /// The size of the file so far.
    pub fn size(&self) -> u64 {
        self.front.saturating_add(self.bytes.len() as u64)
    }

    /// Appends zeros until the file has `size` bytes, if it has fewer.
    pub fn fill(&mut self, size: u64) -> Result<(), NoMemory> {
        let zeros = size.saturating_sub(self.size());
        for _ in 0..zeros {
            self.bytes.push(0)?;
        }
        Ok(())
    }

    // Appends `header`, with its name, and its offset and size in the file. The contents, of `size` bytes, begin at the
    // current end of the file.
    fn add_header(
        &mut self,
        name: &[u8],
        header: SectionHeader,
        size: usize,
    ) -> Result<(), NoMemory> {
        let placed = SectionHeader {
            name: low(self.names.len() as u64),
            offset: self.size(),
            size: size as u64,
            ..header
        };
        self.headers.push(placed)?;
        put_text(&mut self.names, name)
    }

    /// Adds a section with the contents `bytes`, at a multiple of the header's alignment. The header's name, offset and
    /// size are set.
    pub fn add(
        &mut self,
        name: &[u8],
        header: SectionHeader,
        bytes: &[u8],
    ) -> Result<(), NoMemory> {
        self.fill(round_up(self.size(), header.align))?;
        self.add_header(name, header, bytes.len())?;
        self.bytes.extend_from_slice(bytes)?;
        Ok(())
    }

    /// Adds the section of section names, which includes its own `name`, and then the headers. Returns the offset of
    /// the headers.
    pub fn close(&mut self, name: &[u8]) -> Result<u64, NoMemory> {
        let size = self
            .names
            .len()
            .saturating_add(name.len())
            .saturating_add(1);
        self.add_header(name, unloaded(SHT_STRTAB), size)?;
        self.bytes.extend_from_slice(&self.names)?;
        self.fill(round_up(self.size(), 8))?;
        let headers_at = self.size();
        put_sections(&mut self.bytes, &self.headers)?;
        Ok(headers_at)
    }
}
