// The file header. gABI, "ELF Header".
ghost use Rattle.std.specs.Prelude.{◌≡◌, ◌↔◌, IsTrue};
ghost use Rattle.elf_image.specs.faults.FileFaults.{IsElf};
ghost use Rattle.elf_image.specs.faults.Truncation.{HasHeader, HasSegments, HasSections};
ghost use Rattle.elf_image.specs.internal.HeaderFields.{header_fields};

use crate::number::{u16_at, u32_at, u64_at};
use crate::range::is_whole;
use crate::section::SHDR_SIZE;
use crate::segment::PHDR_SIZE;

/// The size of the header in bytes.
pub const EHDR_SIZE: usize = 64;

// The offsets of its fields. gABI, "ELF Header".

/// The type of the file.
pub const E_TYPE: usize = 0x10;

/// The architecture.
pub const E_MACHINE: usize = 0x12;

/// The address at which the program starts.
pub const E_ENTRY: usize = 0x18;

/// The offset of the program headers.
pub const E_PHOFF: usize = 0x20;

/// The offset of the section headers.
pub const E_SHOFF: usize = 0x28;

/// The flags of the architecture.
pub const E_FLAGS: usize = 0x30;

/// The size of a program header.
pub const E_PHENTSIZE: usize = 0x36;

/// The number of program headers.
pub const E_PHNUM: usize = 0x38;

/// The size of a section header.
pub const E_SHENTSIZE: usize = 0x3a;

/// The number of section headers.
pub const E_SHNUM: usize = 0x3c;

/// The index of the section with the section names.
pub const E_SHSTRNDX: usize = 0x3e;

/// The fields of the file header that are used, in the order of the file. gABI, "ELF Header".
#[derive(Clone, Copy)]
pub struct HeaderFields {
    /// `e_type`: the type of the file.
    pub kind: u16,
    /// `e_entry`: the address of the entry point.
    pub entry: u64,
    /// `e_phoff`: the file offset of the table of program headers.
    pub phoff: u64,
    /// `e_shoff`: the file offset of the table of section headers.
    pub shoff: u64,
    /// `e_flags`: the flags of the machine.
    pub flags: u32,
    /// `e_phentsize`: the size of a program header.
    pub phentsize: u16,
    /// `e_phnum`: the number of program headers.
    pub phnum: u16,
    /// `e_shentsize`: the size of a section header.
    pub shentsize: u16,
    /// `e_shnum`: the number of section headers.
    pub shnum: u16,
    /// `e_shstrndx`: the index of the section with the section names.
    pub shstrndx: u16,
}

/// A file that contains the whole file header.
#[derive(Clone, Copy)]
pub struct Header<'a> {
    pub file: &'a [u8],
    pub ghost whole: { HasHeader file.now },
}

impl<'a> Header<'a> {
    /// The fields of the header.
    pub fn fields(self) -> HeaderFields
        ensures { result ≡ header_fields self.entry.file.now }
    {
        let file = self.file;
        HeaderFields {
            kind: u16_at(file, E_TYPE),
            entry: u64_at(file, E_ENTRY),
            phoff: u64_at(file, E_PHOFF),
            shoff: u64_at(file, E_SHOFF),
            flags: u32_at(file, E_FLAGS),
            phentsize: u16_at(file, E_PHENTSIZE),
            phnum: u16_at(file, E_PHNUM),
            shentsize: u16_at(file, E_SHENTSIZE),
            shnum: u16_at(file, E_SHNUM),
            shstrndx: u16_at(file, E_SHSTRNDX),
        }
    }

    /// Whether the file contains the whole table of program headers.
    pub fn has_segments(self) -> bool
        ensures { IsTrue result ↔ HasSegments self.entry.file.now }
    {
        let fields = self.fields();
        is_whole(
            self.file,
            fields.phoff,
            PHDR_SIZE as u64 * fields.phnum as u64,
        )
    }

    /// Whether the file contains the whole table of section headers.
    pub fn has_sections(self) -> bool
        ensures { IsTrue result ↔ HasSections self.entry.file.now }
    {
        let fields = self.fields();
        is_whole(
            self.file,
            fields.shoff,
            SHDR_SIZE as u64 * fields.shnum as u64,
        )
    }
}

/// The first bytes of a file: the magic number, 64 bits, little-endian, version 1. gABI, "ELF Identification".
pub const IDENTIFICATION: &[u8] = b"\x7fELF\x02\x01\x01";

/// The type of an executable that is loaded at the addresses in its headers. gABI, "ELF Header".
pub const ET_EXEC: u16 = 2;

/// RISC-V. psABI, "File Header".
pub const EM_RISCV: u16 = 0xf3;

/// The flag of a file with compressed instructions. psABI, "File Header".
pub const EF_RISCV_RVC: u32 = 1;

/// Whether a file has the identification and, if it is long enough for the field, the machine.
pub fn is_elf(file: &[u8]) -> bool
    ensures { IsTrue result ↔ IsElf file.now }
{
    file.starts_with(IDENTIFICATION)
        && (file.len() < E_MACHINE + 2 || u16_at(file, E_MACHINE) == EM_RISCV)
}
