// The values of functions' symbols by their names. The names are looked up by their offsets in the string table. gABI,
// "String Table" and "Symbol Table".
ghost use Rattle.std.specs.Prelude.{◌≡◌, ◌+◌, ◌*◌, ◌<◌, ◌≤◌, ℕ, List, [], IfOk, IfSome, Some, length};
ghost use Rattle.elf_image.specs.faults.Truncation.{IsReadable};
ghost use Rattle.elf_image.specs.file.Header.{number_at};
ghost use Rattle.elf_image.specs.file.ParsedFile.{IsElfOf, AreSymbols};
ghost use Rattle.elf_image.specs.file.Sections.{text_of};
ghost use Rattle.elf_image.specs.file.Symbols.{symbol_table, symbol_count, symbol_place};
ghost use Rattle.edge_profile.specs.NameEnds.{index_of, indices_in};
ghost use Rattle.edge_profile.specs.SymbolValues.{AreKnown, noted_value};

use crate::function_names::next_known;
use crate::name_ends::NameEnds;
use elf_image::entries::{SectionTable, symbol_table};
use elf_image::names::symbol_texts;
use elf_image::number::u32_at;
use elf_image::section::SectionHeader;
use elf_image::symbol::SYM_SIZE;
use elf_image::{Elf, Symbol};
use rb_bytes::fault::NoMemory;
use std::alloc::Global;

/// The value of each of `names`: `None` if no function's symbol has this name, otherwise `Some` of the symbols' value,
/// or of `None` if their values differ.
pub fn known_values(
    alloc: Global,
    elf: &Elf,
    names: &NameEnds,
) -> Result<Vec<Option<Option<u64>>>, NoMemory>
    requires read { IsElfOf elf.now.file.now elf.now }
    requires readable { IsReadable elf.now.file.now }
    ensures { IfOk result (λ known. AreKnown names.now.backward.items elf.now.symbols.items known.items) }
{
    match symbol_table(SectionTable { file: elf.file }) {
        Some(table) => known_by_table(alloc, elf.file, &table, &elf.symbols, names),
        None => nothing_known(alloc, names),
    }
}

// No name has a value yet.
fn nothing_known(alloc: Global, names: &NameEnds) -> Result<Vec<Option<Option<u64>>>, NoMemory>
    ensures { IfOk result (λ known. AreKnown names.now.backward.items [] known.items) }
{
    let mut known = Vec::new(alloc);
    known.resize(names.count(), None)?;
    Ok(known)
}

// The values of `names` by the symbols of a table.
fn known_by_table(
    alloc: Global,
    file: &[u8],
    table: &SectionHeader,
    symbols: &[Symbol],
    names: &NameEnds,
) -> Result<Vec<Option<Option<u64>>>, NoMemory>
    requires readable { IsReadable file.now }
    requires table { symbol_table file.now ≡ Some table.now }
    requires symbols { AreSymbols file.now table.now (symbol_count table.now) symbols.now }
    ensures { IfOk result (λ known. AreKnown names.now.backward.items symbols.now known.items) }
{
    let indices = indices_in(alloc, names, symbol_texts(file, table))?;
    let mut known = nothing_known(alloc, names)?;
    for index in 0..symbols.len() {
        let symbol = &symbols[index];
        if !symbol.names_function() {
            continue;
        }
        let name = index_at(names, &indices, name_place(file, table, index));
        note_value(&mut known, name, symbol.value);
    }
    Ok(known)
}

// Notes one more value for the name with index `name`, if there is one.
fn note_value(known: &mut Vec<Option<Option<u64>>>, name: Option<usize>, value: u64)
    requires { IfSome name (λ k. k < length known.old.items) }
    ensures { known.new.items ≡ noted_value known.old.items name value }
{
    if let Some(name) = name {
        known[name] = Some(next_known(known[name], value));
    }
}

// The offset in the string table of the name of symbol `index`.
fn name_place(file: &[u8], table: &SectionHeader, index: usize) -> u32
    requires { table.now.offset + SYM_SIZE * (index + 1) ≤ length file.now }
    ensures { result ≡ number_at file.now (symbol_place table.now index) 4 }
{
    u32_at(file, table.offset as usize + SYM_SIZE * index)
}

// For each offset in a string table, from the last to the first, the index of the name that starts there.
fn indices_in(alloc: Global, names: &NameEnds, texts: &[u8]) -> Result<Vec<Option<usize>>, NoMemory>
    ensures { IfOk result (λ indices. indices.items ≡ indices_in names.now.backward.items texts.now) }
{
    let mut indices = Vec::with_capacity(alloc, texts.len())?;
    let mut ending = names.all();
    for count in 0..texts.len() {
        ending = names.before(ending, texts[texts.len() - 1 - count]);
        indices.push(names.named(ending))?;
    }
    Ok(indices)
}

// The index of the name that starts at `place` in the string table. Past the table's end, this is the empty name.
fn index_at(names: &NameEnds, indices: &[Option<usize>], place: u32) -> Option<usize>
    ensures { (texts : List ℕ) → indices.now ≡ indices_in names.now.backward.items texts →
        result ≡ index_of names.now.backward.items (text_of texts place) }
{
    let place = place as usize;
    if place < indices.len() {
        indices[indices.len() - 1 - place]
    } else {
        names.named(names.all())
    }
}
