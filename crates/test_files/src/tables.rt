// Writes tables of symbols and of relocations, entry by entry.
use crate::bytes::{push_u16, push_u32, push_u64};
use std::alloc::AllocError;

/// An entry of the symbol table, with its fields in the order of the file. gABI, "Symbol Table".
#[derive(Clone, Copy)]
pub struct SymbolEntry {
    /// `st_name`: the index of the name in the string table.
    pub name: u32,
    /// `st_info`: the binding in the upper four bits, and the type in the lower ones.
    pub info: u8,
    /// `st_other`.
    pub other: u8,
    /// `st_shndx`.
    pub section: u16,
    /// `st_value`.
    pub value: u64,
    /// `st_size`.
    pub size: u64,
}

/// The null symbol: all zeros. gABI, "Symbol Table".
pub const NULL_SYMBOL: SymbolEntry = SymbolEntry {
    name: 0,
    info: 0,
    other: 0,
    section: 0,
    value: 0,
    size: 0,
};

/// Appends an entry of a symbol table, 24 bytes.
pub fn push_symbol(table: &mut Vec<u8>, symbol: &SymbolEntry) -> Result<(), AllocError> {
    push_u32(table, symbol.name)?;
    table.push(symbol.info)?;
    table.push(symbol.other)?;
    push_u16(table, symbol.section)?;
    push_u64(table, symbol.value)?;
    push_u64(table, symbol.size)
}

/// A relocation with an addend, with its fields in the order of the file. gABI, "Relocation".
#[derive(Clone, Copy)]
pub struct RelaEntry {
    /// `r_offset`.
    pub offset: u64,
    /// The type, the low 32 bits of `r_info`.
    pub kind: u32,
    /// The index of the symbol, the high 32 bits of `r_info`.
    pub symbol: u32,
    /// `r_addend`.
    pub addend: i64,
}

/// Appends a relocation with an addend, 24 bytes.
pub fn push_relocation(table: &mut Vec<u8>, relocation: &RelaEntry) -> Result<(), AllocError> {
    push_u64(table, relocation.offset)?;
    push_u32(table, relocation.kind)?;
    push_u32(table, relocation.symbol)?;
    table.extend_from_slice(&relocation.addend.to_le_bytes())
}
