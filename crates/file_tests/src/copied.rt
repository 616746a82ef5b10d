// The tables of a file whose sections a tool copied one by one: symbols, their names and relocations have the first
// headers, and the tables are in another order than the headers.
use crate::code::{F_SIZE, START_SIZE};
use crate::places::Places;
use elf_image::relocation::{R_RISCV_CALL_PLT, RELA_SIZE, SHT_RELA};
use elf_image::section::{SHT_STRTAB, SHT_SYMTAB};
use elf_image::symbol::{STT_FUNC, SYM_SIZE};
use std::alloc::Global;
use test_files::parts::{SHF_INFO_LINK, STB_GLOBAL};
use test_files::tables::{NULL_SYMBOL, RelaEntry, SymbolEntry, push_relocation, push_symbol};
use test_files::{BuildError, ElfFile, Section};

// The names of the entry point and of `f`, and their offsets.
const NAMES: &[u8] = b"\0_start\0f\0";

const START_NAME: u32 = 1;

const F_NAME: u32 = 8;

// The indices of the headers of the symbols and of their names.
const SYMBOLS: u32 = 1;

const SYMBOL_NAMES: u32 = 2;

// The index of the symbol of `f`.
const F: u32 = 2;

// The offset of the symbols, which come after everything that is loaded and before the other tables.
const SYMBOLS_OFFSET: u64 = 0x5000;

// The index of the header of the code, which comes after those of three tables and of the constants.
fn code_index(places: &Places) -> u16 {
    if places.constants.is_some() { 5 } else { 4 }
}

/// The symbols of the entry point and of `f`.
pub fn symbols(alloc: Global, places: &Places) -> Result<Vec<u8>, BuildError> {
    let start = SymbolEntry {
        name: START_NAME,
        info: STB_GLOBAL * 16 + STT_FUNC,
        other: 0,
        section: code_index(places),
        value: places.code,
        size: START_SIZE,
    };
    let f = SymbolEntry {
        name: F_NAME,
        value: places.code.saturating_add(START_SIZE),
        size: F_SIZE,
        ..start
    };
    let mut table = Vec::new(alloc);
    push_symbol(&mut table, &NULL_SYMBOL)?;
    push_symbol(&mut table, &start)?;
    push_symbol(&mut table, &f)?;
    Ok(table)
}

/// The relocation of the call of `f`.
pub fn relocations(alloc: Global, places: &Places) -> Result<Vec<u8>, BuildError> {
    let call = RelaEntry {
        offset: places.code,
        kind: R_RISCV_CALL_PLT,
        symbol: F,
        addend: 0,
    };
    let mut table = Vec::new(alloc);
    push_relocation(&mut table, &call)?;
    Ok(table)
}

/// Adds the three tables to a file that has no sections yet.
pub fn add_copied<'a>(
    file: &mut ElfFile<'a>,
    places: &Places,
    symbols: &'a [u8],
    relocations: &'a [u8],
) -> Result<(), BuildError> {
    file.sections.push(Section {
        kind: SHT_SYMTAB,
        offset: Some(SYMBOLS_OFFSET),
        link: SYMBOL_NAMES,
        info: 1,
        align: 8,
        entsize: SYM_SIZE as u64,
        ..Section::unloaded(b".symtab", symbols)
    })?;
    file.sections.push(Section {
        kind: SHT_STRTAB,
        ..Section::unloaded(b".strtab", NAMES)
    })?;
    file.sections.push(Section {
        kind: SHT_RELA,
        flags: SHF_INFO_LINK,
        link: SYMBOLS,
        info: code_index(places) as u32,
        align: 8,
        entsize: RELA_SIZE as u64,
        ..Section::unloaded(b".rela.text", relocations)
    })?;
    Ok(())
}
