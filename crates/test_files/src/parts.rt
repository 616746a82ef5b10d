// The parts of a file.
use elf_image::section::{SHF_ALLOC, SHF_EXECINSTR, SHT_PROGBITS};
use elf_image::symbol::STT_FUNC;

/// The flag of a writable section. gABI, "Section Attribute Flags".
pub const SHF_WRITE: u64 = 1;

/// The flag of a section whose `sh_info` is the index of a section. gABI, "Section Attribute Flags".
pub const SHF_INFO_LINK: u64 = 0x40;

/// The type of a symbol with no type. gABI, "Symbol Types".
pub const STT_NOTYPE: u8 = 0;

/// The bindings of symbols. gABI, "Symbol Binding".
pub const STB_LOCAL: u8 = 0;

pub const STB_GLOBAL: u8 = 1;

/// The section index of a symbol whose value isn't an address in a section. gABI, "Special Section Indexes".
pub const SHN_ABS: u16 = 0xfff1;

/// Bytes at an offset of the file.
#[derive(Clone, Copy)]
pub struct Piece<'a> {
    pub offset: u64,
    pub bytes: &'a [u8],
}

/// A section: the fields of its header, its name, and its bytes.
#[derive(Clone, Copy)]
pub struct Section<'a> {
    pub name: &'a [u8],
    /// `sh_type`.
    pub kind: u32,
    pub flags: u64,
    pub addr: u64,
    /// The file offset. Sections without one come after all bytes that have a fixed offset.
    pub offset: Option<u64>,
    /// The bytes in the file.
    pub bytes: &'a [u8],
    /// `sh_size`.
    pub size: u64,
    pub link: u32,
    pub info: u32,
    pub align: u64,
    pub entsize: u64,
}

impl<'a> Section<'a> {
    /// A section that isn't loaded, with these bytes.
    pub fn unloaded(name: &'a [u8], bytes: &'a [u8]) -> Section<'a> {
        Section {
            name,
            kind: SHT_PROGBITS,
            flags: 0,
            addr: 0,
            offset: None,
            bytes,
            size: bytes.len() as u64,
            link: 0,
            info: 0,
            align: 1,
            entsize: 0,
        }
    }

    /// A section that is loaded at an address, with these bytes. Its offset comes from the segment that it is added to.
    pub fn loaded(name: &'a [u8], addr: u64, bytes: &'a [u8]) -> Section<'a> {
        Section {
            flags: SHF_ALLOC,
            addr,
            ..Section::unloaded(name, bytes)
        }
    }

    /// A writable section that is loaded at an address, with these bytes.
    pub fn writable(name: &'a [u8], addr: u64, bytes: &'a [u8]) -> Section<'a> {
        Section {
            flags: SHF_ALLOC | SHF_WRITE,
            align: 8,
            ..Section::loaded(name, addr, bytes)
        }
    }

    /// A section of code that is loaded at an address, with these bytes and an alignment of 4.
    pub fn code(name: &'a [u8], addr: u64, bytes: &'a [u8]) -> Section<'a> {
        Section {
            flags: SHF_ALLOC | SHF_EXECINSTR,
            align: 4,
            ..Section::loaded(name, addr, bytes)
        }
    }

    // Whether an address is in the section's memory.
    pub(crate) fn has_address(&self, addr: u64) -> bool {
        self.flags & SHF_ALLOC != 0 && self.addr <= addr && addr - self.addr < self.size
    }
}

/// A symbol.
#[derive(Clone, Copy)]
pub struct Symbol<'a> {
    pub name: &'a [u8],
    pub value: u64,
    pub size: u64,
    /// The type, such as `STT_FUNC`.
    pub kind: u8,
    /// The binding, such as `STB_GLOBAL`.
    pub binding: u8,
    /// `st_other`.
    pub other: u8,
    /// `st_shndx`. If it is None, the index of the first loaded section that contains the value is used.
    pub section: Option<u16>,
}

impl<'a> Symbol<'a> {
    /// A global symbol with no type and no size.
    pub fn label(name: &'a [u8], value: u64) -> Symbol<'a> {
        Symbol {
            name,
            value,
            size: 0,
            kind: STT_NOTYPE,
            binding: STB_GLOBAL,
            other: 0,
            section: None,
        }
    }

    /// A global function symbol.
    pub fn function(name: &'a [u8], value: u64, size: u64) -> Symbol<'a> {
        Symbol {
            size,
            kind: STT_FUNC,
            ..Symbol::label(name, value)
        }
    }
}

/// A relocation with an addend that the linker kept.
#[derive(Clone, Copy)]
pub struct Relocation<'a> {
    /// The name of the section that it applies to.
    pub section: &'a [u8],
    /// `r_offset`: the address that it applies to.
    pub offset: u64,
    /// The type, such as `R_RISCV_HI20`.
    pub kind: u32,
    /// The name of its symbol. The empty name refers to the null symbol.
    pub symbol: &'a [u8],
    pub addend: i64,
}

/// A relocation of a section.
pub fn of_section<'a>(
    section: &'a [u8],
    offset: u64,
    kind: u32,
    symbol: &'a [u8],
    addend: i64,
) -> Relocation<'a> {
    Relocation {
        section,
        offset,
        kind,
        symbol,
        addend,
    }
}

/// A relocation of the code.
pub fn of_code<'a>(offset: u64, kind: u32, symbol: &'a [u8], addend: i64) -> Relocation<'a> {
    of_section(b".text", offset, kind, symbol, addend)
}
