// Builds a file from its parts.
use crate::bytes::{pad, place};
use crate::error::BuildError;
use crate::headers::{FileHeader, push_file_header, push_segment};
use crate::parts::{Piece, Relocation, Section, Symbol};
use crate::writer::Writer;
use elf_image::Segment;
use elf_image::header::{EHDR_SIZE, ET_EXEC};
use elf_image::section::SHT_NOBITS;
use elf_image::segment::{PHDR_SIZE, PT_LOAD};
use std::alloc::Global;

/// The position of the table of program headers.
#[derive(Clone, Copy)]
pub enum HeaderTable {
    /// At this offset.
    At(u64),
    /// After all bytes with a fixed offset, at a multiple of 8.
    BehindSegments,
    /// At the end of the file.
    Last,
}

/// The address of the code segment, which includes the file header; and the address after the file header and one
/// program header.
pub const BASE: u64 = 0x10000;

pub const CODE: u64 = 0x10078;

/// The page size, to which segments are aligned.
pub const PAGE: u64 = 0x1000;

/// A file to build. A test may change each part before the file is built.
///
/// The file has, in this order: its header; bytes with a fixed offset; sections without one; a section of relocations
/// for each section that has some; the symbols and their names, if there are symbols; the names of sections; and the
/// section headers, at a multiple of 8.
#[derive(Drop)]
pub struct ElfFile<'a> {
    /// `e_type`.
    pub kind: u16,
    pub entry: u64,
    /// `e_flags`.
    pub flags: u32,
    pub header_table: HeaderTable,
    pub segments: Vec<Segment>,
    /// Bytes that are in no section.
    pub pieces: Vec<Piece<'a>>,
    /// The sections, without the null section and those for relocations, symbols and names.
    pub sections: Vec<Section<'a>>,
    /// The symbols, without the null symbol.
    pub symbols: Vec<Symbol<'a>>,
    pub relocations: Vec<Relocation<'a>>,
}

impl<'a> ElfFile<'a> {
    /// An executable without segments and sections, with program headers after the file header.
    pub fn new(alloc: Global, entry: u64) -> ElfFile<'a> {
        ElfFile {
            kind: ET_EXEC,
            entry,
            flags: 0,
            header_table: HeaderTable::At(EHDR_SIZE as u64),
            segments: Vec::new(alloc),
            pieces: Vec::new(alloc),
            sections: Vec::new(alloc),
            symbols: Vec::new(alloc),
            relocations: Vec::new(alloc),
        }
    }

    /// Adds a loaded segment that starts at `offset` in the file and at the address `vaddr`, and ends with the last of
    /// `sections`, which it loads.
    pub fn add_segment(
        &mut self,
        flags: u32,
        offset: u64,
        vaddr: u64,
        sections: &[Section<'a>],
    ) -> Result<(), BuildError> {
        self.segments.push(Segment {
            kind: PT_LOAD,
            flags,
            offset,
            vaddr,
            paddr: vaddr,
            filesz: 0,
            memsz: 0,
            align: PAGE,
        })?;
        for section in sections {
            self.load(section)?;
        }
        Ok(())
    }

    /// Adds a section that the last segment loads, and extends the segment to its end.
    pub fn load(&mut self, section: &Section<'a>) -> Result<(), BuildError> {
        let last = self.segments.len().saturating_sub(1);
        self.load_by(last, section)
    }

    /// Adds a section that the segment with an index loads, and extends the segment to its end.
    pub fn load_by(&mut self, index: usize, section: &Section<'a>) -> Result<(), BuildError> {
        let segment = self.segments.get_mut(index).ok_or(BuildError::TooLarge)?;
        let before = section
            .addr
            .checked_sub(segment.vaddr)
            .ok_or(BuildError::TooLarge)?;
        let end = before
            .checked_add(section.size)
            .ok_or(BuildError::TooLarge)?;
        let place = before
            .checked_add(segment.offset)
            .ok_or(BuildError::TooLarge)?;
        if section.kind != SHT_NOBITS {
            segment.filesz = end.max(segment.filesz);
        }
        segment.memsz = end.max(segment.memsz);
        self.sections.push(Section {
            offset: Some(place),
            ..*section
        })?;
        Ok(())
    }

    /// Builds the file.
    pub fn build(&self, alloc: Global) -> Result<Vec<u8>, BuildError> {
        let mut writer = Writer::new(alloc)?;
        self.place_parts(&mut writer.bytes)?;
        let phoff = self.place_table(alloc, &mut writer.bytes)?;
        for section in &self.sections {
            writer.add_section(b"", section)?;
        }
        writer.add_relocations(alloc, self)?;
        writer.add_symbols(alloc, self)?;
        writer.add_names()?;
        let shoff = writer.add_section_headers()?;
        let phoff = match phoff {
            Some(offset) => offset,
            None => {
                let offset = writer.bytes.len() as u64;
                self.put_table(alloc, &mut writer.bytes, offset)?;
                offset
            }
        };
        let shnum = writer.section_count()?;
        let mut header = Vec::new(alloc);
        push_file_header(
            &mut header,
            &FileHeader {
                kind: self.kind,
                entry: self.entry,
                phoff,
                shoff,
                flags: self.flags,
                phnum: u16::try_from(self.segments.len())
                    .ok()
                    .ok_or(BuildError::TooLarge)?,
                shnum,
                shstrndx: shnum.saturating_sub(1),
            },
        )?;
        place(&mut writer.bytes, 0, &header)?;
        Ok(writer.bytes)
    }

    // Writes the parts with a fixed offset.
    fn place_parts(&self, file: &mut Vec<u8>) -> Result<(), BuildError> {
        for piece in &self.pieces {
            place(file, piece.offset, piece.bytes)?;
        }
        for section in &self.sections {
            if let Some(offset) = section.offset {
                place(file, offset, section.bytes)?;
            }
        }
        Ok(())
    }

    // Writes the program headers, unless they are at the end of the file. Returns their offset.
    fn place_table(&self, alloc: Global, file: &mut Vec<u8>) -> Result<Option<u64>, BuildError> {
        let offset = match self.header_table {
            HeaderTable::At(offset) => offset,
            HeaderTable::BehindSegments => {
                pad(file, 8)?;
                file.len() as u64
            }
            HeaderTable::Last => return Ok(None),
        };
        self.put_table(alloc, file, offset)?;
        Ok(Some(offset))
    }

    // Writes the program headers at an offset.
    fn put_table(&self, alloc: Global, file: &mut Vec<u8>, offset: u64) -> Result<(), BuildError> {
        let mut table = Vec::new(alloc);
        for segment in &self.segments {
            push_segment(&mut table, segment)?;
        }
        place(file, offset, &table)
    }
}
