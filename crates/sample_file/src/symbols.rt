// The symbols of a sample, and their names. gABI, "Symbol Table".
ghost use Rattle.std.specs.Prelude.{◌≤◌};

use crate::numbers::{low, put_text};
use crate::places::{FUNCTION_SIZE, START_SIZE, function_at};
use crate::profile::{START_NAME, function_name};
use crate::sections::TEXT;
use elf_image::symbol::SYM_SIZE;
use elf_parts::spell::{SymbolEntry, put_symbol};
use rb_bytes::fault::NoMemory;
use std::alloc::Global;

// The binding and the type of a global symbol of a function.
const GLOBAL_FUNCTION: u8 = 0x12;

/// The symbol table and its names.
#[derive(Drop)]
pub struct Symbols {
    pub table: Vec<u8>,
    pub names: Vec<u8>,
}

fn add_symbol(symbols: &mut Symbols, name: &[u8], value: u64, size: u64) -> Result<(), NoMemory> {
    let entry = SymbolEntry {
        name: low(symbols.names.len() as u64),
        info: GLOBAL_FUNCTION,
        other: 0,
        section: TEXT,
        value,
        size,
    };
    put_symbol(&mut symbols.table, &entry)?;
    put_text(&mut symbols.names, name)
}

/// The null symbol, and one for each of `n` functions and for the code at the entry point.
pub fn make_symbols(alloc: Global, n: u64) -> Result<Symbols, NoMemory>
    requires { n ≤ 1000 }
{
    let mut table = Vec::new(alloc);
    table.extend_from_slice(&[0; SYM_SIZE])?;
    let mut names = Vec::new(alloc);
    names.push(0)?;
    let mut symbols = Symbols { table, names };
    for k in 0..n {
        let name = function_name(alloc, k)?;
        add_symbol(&mut symbols, &name, function_at(k), FUNCTION_SIZE)?;
    }
    add_symbol(&mut symbols, START_NAME, function_at(n), START_SIZE)?;
    Ok(symbols)
}
