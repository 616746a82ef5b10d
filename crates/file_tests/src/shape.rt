// The shape of a file, and the file.
use crate::code::{F_SIZE, START_SIZE, code};
use crate::copied::{add_copied, relocations, symbols};
use crate::extras::{Extra, HALVES, add_extra, add_front};
use crate::places::{BASE, Places};
use elf_image::header::{E_SHNUM, E_SHOFF, EHDR_SIZE};
use elf_image::number::{u16_at, u64_at};
use elf_image::relocation::{R_RISCV_64, R_RISCV_CALL_PLT};
use elf_image::section::SHDR_SIZE;
use elf_image::segment::{PF_R, PF_W, PF_X};
use std::alloc::Global;
use test_files::bytes::patch;
use test_files::parts::STB_LOCAL;
use test_files::{BuildError, ElfFile, Section, Symbol, of_code, of_section};

/// The symbols, relocations and sections of a file.
#[derive(Clone, Copy, PartialEq, Eq, Debug)]
pub enum Tables {
    /// All, in a linker's order.
    Whole,
    /// All except symbols: relocations have addresses.
    NoSymbols,
    /// All except relocations.
    NoRelocations,
    /// Neither symbols nor relocations.
    Stripped,
    /// All, but no section has a name.
    NoNames,
    /// All, as a tool leaves them that copied the sections one by one.
    Copied,
}

impl Tables {
    fn has_relocations(self) -> bool {
        matches!(
            self,
            Tables::Whole | Tables::NoSymbols | Tables::NoNames | Tables::Copied
        )
    }

    /// Whether the entry point and `f` have symbols.
    pub fn has_symbols(self) -> bool {
        matches!(
            self,
            Tables::Whole | Tables::NoRelocations | Tables::NoNames | Tables::Copied
        )
    }
}

/// A file's shape.
#[derive(Clone, Copy, PartialEq, Eq, Debug)]
pub struct Shape {
    pub places: Places,
    pub tables: Tables,
    pub extra: Extra,
}

// The symbols of the entry point, of `f`, and of an address in `f`.
fn add_symbols(file: &mut ElfFile<'_>, start: u64) -> Result<(), BuildError> {
    let f = start.saturating_add(START_SIZE);
    file.symbols.push(Symbol {
        binding: STB_LOCAL,
        ..Symbol::label(b"way", f.saturating_add(12))
    })?;
    file.symbols
        .push(Symbol::function(b"_start", start, START_SIZE))?;
    file.symbols.push(Symbol::function(b"f", f, F_SIZE))?;
    Ok(())
}

// The relocations of the call and of the pointers in data, by a symbol or by an address.
fn add_relocations(file: &mut ElfFile<'_>, shape: &Shape) -> Result<(), BuildError> {
    let Shape {
        places,
        tables,
        extra,
    } = *shape;
    let f = places.code.saturating_add(START_SIZE);
    let (symbol, addend) = if tables.has_symbols() {
        (b"f".as_slice(), 0)
    } else {
        let addend = i64::try_from(f).map_err(|_| BuildError::TooLarge)?;
        (b"".as_slice(), addend)
    };
    file.relocations
        .push(of_code(places.code, R_RISCV_CALL_PLT, symbol, addend))?;
    if let Some(data) = places.data {
        file.relocations.push(of_section(b".data", data.addr, R_RISCV_64, symbol, addend))?;
    }
    if extra == Extra::HalvedPointer {
        file.relocations.push(of_section(b".halves", HALVES.addr, R_RISCV_64, symbol, addend))?;
    }
    Ok(())
}

// The segments of constants, code and data.
fn add_segments<'a>(
    file: &mut ElfFile<'a>,
    places: &Places,
    code: &'a [u8],
    pointer: &'a [u8],
) -> Result<(), BuildError> {
    if let Some(constants) = places.constants {
        let section = [Section::loaded(b".rodata", constants.addr, b"sixteen of them.")];
        file.add_segment(PF_R, 0, BASE, &section)?;
    }
    let text = [Section::code(b".text", places.code, code)];
    file.add_segment(
        PF_R | PF_X,
        places.segment.offset,
        places.segment.addr,
        &text,
    )?;
    if let Some(data) = places.data {
        let section = [Section::writable(b".data", data.addr, pointer)];
        file.add_segment(PF_R | PF_W, data.offset, data.addr, &section)?;
    }
    Ok(())
}

// Gives each section the name at the start of the table of names, which is empty.
fn take_names(file: &mut [u8]) {
    if file.len() < EHDR_SIZE {
        return;
    }
    let start = u64_at(file, E_SHOFF);
    let count = u16_at(file, E_SHNUM);
    for index in 0..count {
        let header = start.saturating_add(index as u64 * SHDR_SIZE as u64);
        patch(file, header as usize, &[0; 4]);
    }
}

/// The file of a shape.
pub fn build(alloc: Global, shape: &Shape) -> Result<Vec<u8>, BuildError> {
    let Shape {
        places,
        tables,
        extra,
    } = *shape;
    let code = code(alloc, tables.has_relocations())?;
    let pointer = places.code.saturating_add(START_SIZE).to_le_bytes();
    let symbols = symbols(alloc, &places)?;
    let relocations = relocations(alloc, &places)?;
    let mut file = ElfFile::new(alloc, places.code);
    add_front(&mut file, extra, &places)?;
    if tables == Tables::Copied {
        add_copied(&mut file, &places, &symbols, &relocations)?;
    }
    add_segments(&mut file, &places, &code, &pointer)?;
    add_extra(&mut file, extra, &places, &pointer)?;
    if tables.has_symbols() && tables != Tables::Copied {
        add_symbols(&mut file, places.code)?;
    }
    if tables.has_relocations() && tables != Tables::Copied {
        add_relocations(&mut file, shape)?;
    }
    let mut bytes = file.build(alloc)?;
    if tables == Tables::NoNames {
        take_names(&mut bytes);
    }
    Ok(bytes)
}
