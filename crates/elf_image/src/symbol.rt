// Symbols with the fields of symbol table entries. gABI, "Symbol Table".
ghost use Rattle.std.specs.Prelude.{◌≡◌, ◌≤◌, ◌+◌, ◌%◌, length};
ghost use Rattle.elf_image.specs.file.ParsedFile.{IsSymbolAt};
ghost use Rattle.elf_image.specs.file.Symbols.{symbol_names};
ghost use Rattle.elf_image.specs.file.StringTables.{name_bytes};

use crate::number::{u16_at, u32_at, u64_at};
use crate::section::SectionHeader;
use crate::text::Names;

/// The size of an entry of the symbol table in bytes.
pub const SYM_SIZE: usize = 24;

/// The section index of undefined symbols. gABI, "Special Section Indexes".
pub const SHN_UNDEF: u16 = 0;

/// The type of a symbol that names a function. gABI, "Symbol Types".
pub const STT_FUNC: u8 = 2;

/// The type of a symbol whose routine the program selects when it starts: GNU's `STT_GNU_IFUNC`.
pub const STT_GNU_IFUNC: u8 = 10;

/// A symbol of the symbol table. gABI, "Symbol Table".
#[derive(Clone, Copy)]
pub struct Symbol<'a> {
    /// Its name, without the zero byte.
    pub name: &'a [u8],
    /// `st_value`.
    pub value: u64,
    /// `st_size`, in bytes.
    pub size: u64,
    /// `st_info`: the binding in its high four bits, the type in its low ones.
    pub info: u8,
    /// `st_other`.
    pub other: u8,
    /// `st_shndx`: the index of its section.
    pub section: u16,
}

impl<'a> Symbol<'a> {
    ghost use Rattle.elf_image.specs.file.Cuts.{names_function};

    /// The symbol's type.
    pub fn kind(&self) -> u8
        ensures { result ≡ self.now.info % 16 }
    {
        self.info % 16
    }

    /// Whether the symbol names a function.
    pub fn names_function(&self) -> bool
        ensures { result ≡ names_function self.now }
    {
        self.kind() == STT_FUNC
    }
}

/// The symbol whose table entry is at a file offset.
pub fn symbol_at<'a>(
    file: &'a [u8],
    table: &SectionHeader,
    names: &Names<'a>,
    offset: usize,
) -> Symbol<'a>
    requires whole { offset + SYM_SIZE ≤ length file.now }
    requires names { name_bytes names.now ≡ symbol_names file.now table.now }
    ensures { IsSymbolAt file.now table.now offset result }
{
    Symbol {
        name: names.text(u32_at(file, offset)),
        value: u64_at(file, offset + 8),
        size: u64_at(file, offset + 16),
        info: file[offset + 4],
        other: file[offset + 5],
        section: u16_at(file, offset + 6),
    }
}
