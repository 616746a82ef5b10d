// Entries of a file's tables by index: program headers, section headers and symbols. gABI, "Program Header", "Section
// Header" and "Symbol Table".
ghost use Rattle.std.specs.Prelude.{◌≡◌, ◌≤◌, ◌<◌, ◌↔◌, IfSome, IsTrue, length};
ghost use Rattle.elf_image.specs.file.Header.{e_phnum, e_shnum, segment_place};
ghost use Rattle.elf_image.specs.file.Sections.{section_place};
ghost use Rattle.elf_image.specs.faults.Truncation.{HasHeader, HasContents};
ghost use Rattle.elf_image.specs.file.Symbols.{symbol_table, symbol_count};

use crate::header::Header;
use crate::range::is_whole;
use crate::section::{SHDR_SIZE, SHT_NOBITS, SHT_SYMTAB, SectionHeader};
use crate::segment::{PHDR_SIZE, Segment};
use crate::symbol::SYM_SIZE;

/// The table of program headers, in a file that contains all of it.
#[derive(Clone, Copy)]
pub struct SegmentTable<'a> {
    pub file: &'a [u8],
    ghost header: { HasHeader file.now },
    ghost whole: { 0 < e_phnum file.now → segment_place file.now (e_phnum file.now) ≤ length file.now },
}

impl<'a> SegmentTable<'a> {
    ghost use Rattle.elf_image.specs.file.Header.{segment};

    /// The number of program headers.
    pub fn count(self) -> usize
        ensures { result ≡ e_phnum self.entry.file.now }
    {
        let file = self.file;
        Header { file }.fields().phnum as usize
    }

    /// The file offset of the program header with an index.
    pub fn place(self, index: usize) -> u64
        requires { index < e_phnum self.file.now }
        ensures { result ≡ segment_place self.entry.file.now index }
    {
        let file = self.file;
        Header { file }.fields().phoff + PHDR_SIZE as u64 * index as u64
    }

    /// The program header with an index.
    pub fn segment_of(self, index: usize) -> Segment
        requires { index < e_phnum self.file.now }
        ensures { result ≡ segment self.entry.file.now index }
    {
        Segment::at(self.file, self.place(index) as usize)
    }
}

/// The table of section headers, in a file that contains all of it.
#[derive(Clone, Copy)]
pub struct SectionTable<'a> {
    pub file: &'a [u8],
    ghost header: { HasHeader file.now },
    ghost whole: { 0 < e_shnum file.now → section_place file.now (e_shnum file.now) ≤ length file.now },
}

impl<'a> SectionTable<'a> {
    ghost use Rattle.elf_image.specs.file.Sections.{section_header};

    /// The number of section headers.
    pub fn count(self) -> usize
        ensures { result ≡ e_shnum self.entry.file.now }
    {
        let file = self.file;
        Header { file }.fields().shnum as usize
    }

    /// The file offset of the section header with an index.
    pub fn place(self, index: usize) -> u64
        requires { index < e_shnum self.file.now }
        ensures { result ≡ section_place self.entry.file.now index }
    {
        let file = self.file;
        Header { file }.fields().shoff + SHDR_SIZE as u64 * index as u64
    }

    /// The section header with an index.
    pub fn section_of(self, index: usize) -> SectionHeader
        requires { index < e_shnum self.file.now }
        ensures { result ≡ section_header self.entry.file.now index }
    {
        SectionHeader::at(self.file, self.place(index) as usize)
    }
}

/// Whether a file contains all bytes of a section.
pub fn has_contents(file: &[u8], section: &SectionHeader) -> bool
    ensures { IsTrue result ↔ HasContents file.now section.now }
{
    section.kind == SHT_NOBITS || is_whole(file, section.offset, section.size)
}

/// The first section that is a symbol table.
pub fn symbol_table(headers: SectionTable) -> Option<SectionHeader>
    ensures first { result ≡ symbol_table headers.entry.file.now }
    ensures kind { IfSome result (λ table. table.kind ≡ SHT_SYMTAB) }
{
    for index in 0..headers.count() {
        let section = headers.section_of(index);
        if section.kind == SHT_SYMTAB {
            return Some(section);
        }
    }
    None
}

/// The number of symbols in a table: the complete entries of its section.
pub fn symbol_count(table: &SectionHeader) -> usize
    ensures { result ≡ symbol_count table.now }
{
    table.size as usize / SYM_SIZE
}
