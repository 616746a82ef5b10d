// Inputs for the sections of a written file.
use crate::fragments::Fragment;
use crate::given_tables::Table;
use addr_map::AddrMap;
use elf_image::{Elf, Symbol};
use rv_code::Func;
use std::collections::BTreeMap;

/// Data from which the sections of a written file are made.
#[derive(Clone, Copy)]
pub struct SectionSource<'a, 'file> {
    pub elf: &'a Elf<'file>,
    pub funcs: &'a [Func],
    /// For each cold part that gets a name, the address in the input of its first instruction.
    pub cold: &'a [u64],
    pub map: &'a AddrMap,
    /// The fragments of functions in the new code.
    pub fragments: &'a [Fragment],
    /// The symbols that give functions their names, by the start addresses of the functions.
    pub names: &'a BTreeMap<u64, Symbol<'file>>,
    pub tables: &'a [Table],
}
