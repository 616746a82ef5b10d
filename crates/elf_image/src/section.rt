// Sections and their headers.
ghost use Rattle.std.specs.Prelude.{◌≡◌, ◌≤◌, ◌+◌, length};

use crate::named::{names_debug, names_frames};
use crate::number::{is_set, u32_at, u64_at};

/// The type of a section with no bytes in the file. gABI, "Section Types".
pub const SHT_NOBITS: u32 = 8;

/// The type of a section whose contents the program defines. gABI, "Section Types".
pub const SHT_PROGBITS: u32 = 1;

/// The type of the symbol table. gABI, "Section Types".
pub const SHT_SYMTAB: u32 = 2;

/// The type of a string table. gABI, "Section Types".
pub const SHT_STRTAB: u32 = 3;

/// The flag of a section that is loaded. gABI, "Section Attribute Flags".
pub const SHF_ALLOC: u64 = 2;

/// The flag of a section that contains instructions. gABI, "Section Attribute Flags".
pub const SHF_EXECINSTR: u64 = 4;

/// The flag of a section whose contents are compressed. gABI, "Section Attribute Flags".
pub const SHF_COMPRESSED: u64 = 0x800;

/// The name prefix that a rewrite gives to sections that it replaces.
pub const OLD_PREFIX: &[u8] = b".old.";

/// The size of a section header in bytes.
pub const SHDR_SIZE: usize = 64;

/// A section header, with its fields in the order of the file. Offsets and sizes are in bytes.
/// gABI, "Section Header".
#[derive(Clone, Copy)]
pub struct SectionHeader {
    /// `sh_name`: the index of the name in the string table.
    pub name: u32,
    /// `sh_type`.
    pub kind: u32,
    /// `sh_flags`.
    pub flags: u64,
    /// `sh_addr`.
    pub addr: u64,
    /// `sh_offset`: the file offset of its bytes.
    pub offset: u64,
    /// `sh_size`.
    pub size: u64,
    /// `sh_link`.
    pub link: u32,
    /// `sh_info`.
    pub info: u32,
    /// `sh_addralign`.
    pub align: u64,
    /// `sh_entsize`.
    pub entsize: u64,
}

impl SectionHeader {
    ghost use Rattle.elf_image.specs.file.Sections.{section_header_at, holds_code};

    /// The section header at an offset of a file.
    pub fn at(file: &[u8], offset: usize) -> SectionHeader
        requires { offset + SHDR_SIZE ≤ length file.now }
        ensures { result ≡ section_header_at file.now offset }
    {
        SectionHeader {
            name: u32_at(file, offset),
            kind: u32_at(file, offset + 4),
            flags: u64_at(file, offset + 8),
            addr: u64_at(file, offset + 16),
            offset: u64_at(file, offset + 24),
            size: u64_at(file, offset + 32),
            link: u32_at(file, offset + 40),
            info: u32_at(file, offset + 44),
            align: u64_at(file, offset + 48),
            entsize: u64_at(file, offset + 56),
        }
    }

    /// Whether the section contains instructions.
    pub fn holds_code(&self) -> bool
        ensures { result ≡ holds_code self.now.flags }
    {
        is_set(self.flags, SHF_EXECINSTR)
    }
}

/// A section. Offsets and sizes are in bytes. gABI, "Section Header".
#[derive(Clone, Copy)]
pub struct Section<'a> {
    /// Its name, without the zero byte.
    pub name: &'a [u8],
    /// `sh_type`.
    pub kind: u32,
    /// `sh_flags`.
    pub flags: u64,
    /// `sh_addr`.
    pub addr: u64,
    /// `sh_offset`.
    pub offset: u64,
    /// `sh_size`.
    pub size: u64,
    /// `sh_link`.
    pub link: u32,
    /// `sh_info`.
    pub info: u32,
    /// `sh_addralign`.
    pub align: u64,
    /// `sh_entsize`.
    pub entsize: u64,
}

impl<'a> Section<'a> {
    ghost use Rattle.elf_image.specs.file.Sections.{holds_code};
    ghost use Rattle.elf_image.specs.faults.FileFaults.{is_compressed};
    ghost use Rattle.elf_image.specs.file.SectionNames.{is_called, is_loaded, is_meant_by};

    /// Whether the section is loaded.
    pub fn is_loaded(&self) -> bool
        ensures { result ≡ is_loaded self.now }
    {
        is_set(self.flags, SHF_ALLOC)
    }

    /// Whether the section contains instructions.
    pub fn holds_code(&self) -> bool
        ensures { result ≡ holds_code self.now.flags }
    {
        is_set(self.flags, SHF_EXECINSTR)
    }

    /// Whether the contents are compressed, by the flags or the name.
    pub fn is_compressed(&self) -> bool
        ensures { result ≡ is_compressed self.now.flags self.now.name.now }
    {
        is_set(self.flags, SHF_COMPRESSED) || self.name.starts_with(b".zdebug")
    }

    /// Whether a name refers to this section: it is the section's name, and refers to sections of this kind.
    pub fn is_called(&self, name: &[u8]) -> bool
        ensures { result ≡ is_called name.now self.now }
    {
        self.name == name && self.is_meant_by(name)
    }

    /// Whether a name refers to sections of this kind: names of unwind tables refer to loaded sections, names of debug
    /// tables to sections that aren't loaded, and both only to sections without code.
    pub fn is_meant_by(&self, name: &[u8]) -> bool
        ensures { result ≡ is_meant_by name.now self.now }
    {
        if names_frames(name) {
            self.is_loaded() && !self.holds_code()
        } else if names_debug(name) {
            !self.is_loaded() && !self.holds_code()
        } else {
            true
        }
    }
}
