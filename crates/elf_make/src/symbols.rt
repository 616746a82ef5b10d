// The symbol table of a written file. gABI, "Symbol Table".
ghost use Rattle.std.specs.Prelude.{◌≡◌, ◌++◌, ◌*◌, ◌+◌, ◌<◌, ◌^◌, All, IfOk, IfSome, List, OnOk, drop, length};
ghost use Rattle.elf_image.specs.declared.symbol.Symbol.{Symbol};
ghost use Rattle.elf_image.specs.declared.symbol.TheConstants.{SYM_SIZE};
ghost use Rattle.elf_image.specs.file.Header.{number_at};
ghost use Rattle.rv_code.specs.layout.FunctionLists.{AreLaidOut};
ghost use Rattle.elf_parts.specs.Spellings.{SymbolFits, symbol_entries};
ghost use Rattle.elf_plan.specs.FirstNames.{AreFirstNames};
ghost use Rattle.elf_plan.specs.FragmentLists.{AreFragments};
ghost use Rattle.elf_plan.specs.NewNames.{cold_names};
ghost use Rattle.elf_plan.specs.PairedLists.{GoTogether};
ghost use Rattle.elf_make.specs.NewSymbols as spec;
ghost use Rattle.elf_make.specs.SymbolTable.{IsColdEntry, IsTableOf};

use crate::names::NameTable;
use addr_map::AddrMap;
use elf_image::number::u32_at;
use elf_image::symbol::{STT_FUNC, SYM_SIZE};
use elf_image::{Elf, Section, Symbol};
use elf_parts::spell::{SymbolEntry, put_symbol};
use elf_plan::first_names::named_around;
use elf_plan::fragments::{Fragment, bytes_left};
use elf_plan::round::sum;
use elf_plan::section_bytes::bytes_of;
use elf_plan::unwritable::Unwritable;
use rb_bytes::fault::NoMemory;
use rv_code::Func;
use rv_code::functions::function_at;
use std::alloc::Global;
use std::collections::BTreeMap;

/// The new code as symbols see it.
#[derive(Clone, Copy)]
pub struct NewCode<'a> {
    pub funcs: &'a [Func],
    pub map: &'a AddrMap,
    /// The fragments of functions in the new code.
    pub fragments: &'a [Fragment],
    /// The index of the section with the new code.
    pub section: u16,
}

impl<'a> NewCode<'a> {
    ghost use Rattle.std.specs.Prelude.{◌≡◌, ◌+◌, ◌^◌, ◌<◌, IfSome, IsFalse, IsTrue, OnOk, length};
    ghost use Rattle.rv_code.specs.layout.FunctionLists.{AreLaidOut};
    ghost use Rattle.elf_image.specs.file.Cuts.{names_function};
    ghost use Rattle.elf_plan.specs.FragmentLists.{AreFragments};
    ghost use Rattle.elf_plan.specs.Fragments.{IsFragmentAt};
    ghost use Rattle.elf_make.specs.NewSymbols.{IsMoved};
    ghost use Rattle.elf_make.specs.SymbolTable.{Appends, AreEntriesOf, IsColdPlace, IsEntryOf, with_entry};

    // The number of bytes of the function that contains the input address `old`, from the address `new` of the new code
    // to the end of the fragment.
    fn size_from(&self, old: u64, new: u64) -> u64
        requires laid_out { AreLaidOut self.now.funcs.now }
        requires fragments { AreFragments self.now.funcs.now self.now.map.now self.now.fragments.now }
        ensures { IsFragmentAt self.now.funcs.now self.now.map.now old new result }
    {
        match function_at(self.funcs, old) {
            Some(func) => bytes_left(self.fragments, func, new),
            None => 0,
        }
    }

    // The size of `symbol`, which moves to the address `to`.
    fn size_of(&self, symbol: &Symbol, to: u64) -> u64
        requires laid_out { AreLaidOut self.now.funcs.now }
        requires fragments { AreFragments self.now.funcs.now self.now.map.now self.now.fragments.now }
        ensures other { IsFalse (names_function symbol.now) → result ≡ symbol.now.size }
        ensures fragment { IsTrue (names_function symbol.now) →
            IsFragmentAt self.now.funcs.now self.now.map.now symbol.now.value to result }
    {
        if symbol.names_function() {
            self.size_from(symbol.value, to)
        } else {
            symbol.size
        }
    }

    // The entry of `symbol`, which moves to the address `to`. `name` is the offset of its name.
    fn moved_entry(&self, symbol: &Symbol, name: u32, to: u64) -> SymbolEntry
        requires laid_out { AreLaidOut self.now.funcs.now }
        requires fragments { AreFragments self.now.funcs.now self.now.map.now self.now.fragments.now }
        ensures name { result.name ≡ name }
        ensures info { result.info ≡ symbol.now.info }
        ensures other { result.other ≡ symbol.now.other }
        ensures moved { IsMoved self.now.funcs.now self.now.map.now self.now.section to symbol.now
            (with_entry symbol.now result) }
    {
        SymbolEntry {
            name,
            info: symbol.info,
            other: symbol.other,
            section: self.section,
            value: to,
            size: self.size_of(symbol, to),
        }
    }

    // `symbol` as it is in the written file: with the new address of the instruction that it names, if it names one.
    // `name` is the offset of its name, which doesn't change.
    fn entry_of(&self, symbol: &Symbol, name: u32) -> SymbolEntry
        requires laid_out { AreLaidOut self.now.funcs.now }
        requires fragments { AreFragments self.now.funcs.now self.now.map.now self.now.fragments.now }
        ensures { IsEntryOf self.now.funcs.now self.now.map.now self.now.section name symbol.now result }
    {
        match self.map.moved(symbol.value) {
            Some(to) => self.moved_entry(symbol, name, to),
            None => SymbolEntry {
                name,
                info: symbol.info,
                other: symbol.other,
                section: symbol.section,
                value: symbol.value,
                size: symbol.size,
            },
        }
    }

    // The symbol of the cold part that begins with the instruction at `address` in the input, with its name at the
    // offset `name`. None if the map doesn't move that instruction.
    fn cold_entry(&self, address: u64, name: u32) -> Option<SymbolEntry>
        requires laid_out { AreLaidOut self.now.funcs.now }
        requires fragments { AreFragments self.now.funcs.now self.now.map.now self.now.fragments.now }
        ensures name { IfSome result (λ e. e.name ≡ name) }
        ensures place { IfSome result
            (IsColdPlace self.now.funcs.now self.now.map.now self.now.section address) }
    {
        let to = self.map.moved(address)?;
        Some(SymbolEntry {
            name,
            info: STT_FUNC,
            other: 0,
            section: self.section,
            value: to,
            size: self.size_from(address, to),
        })
    }

    // Appends the entries of `symbols`. `first` is the index of the first of them in the input's table `table`.
    fn put_symbols(
        &self,
        bytes: &mut Vec<u8>,
        table: &[u8],
        first: usize,
        symbols: &[Symbol],
    ) -> Result<(), Unwritable>
        requires laid_out { AreLaidOut self.now.funcs.now }
        requires fragments { AreFragments self.now.funcs.now self.now.map.now self.now.fragments.now }
        requires fits { first + length symbols.now < 2 ^ 64 }
        ensures { OnOk result (Appends
            (AreEntriesOf self.now.funcs.now self.now.map.now self.now.section table.now first symbols.now)
            bytes.old.items bytes.new.items) }
    {
        for i in 0..symbols.len() {
            let name = name_of_entry(table, first + i).ok_or(Unwritable::Layout)?;
            put_symbol(bytes, &self.entry_of(&symbols[i], name))?;
        }
        Ok(())
    }
}

// The offset of the name of the entry at `index` of a symbol table. None if that isn't in the table.
fn name_of_entry(table: &[u8], index: usize) -> Option<u32>
    ensures { IfSome result (λ name. name ≡ number_at table.now (SYM_SIZE * index) 4) }
{
    let start = SYM_SIZE.checked_mul(index)?;
    let end = start.checked_add(4)?;
    if end > table.len() {
        return None;
    }
    Some(u32_at(table, start))
}

/// The symbols of the cold parts that begin at the addresses `cold` of the input, with their names added to `table`. A
/// part of a function without a name gets none. `Layout` if the first instruction of a part isn't in the map.
pub fn cold_symbols(
    alloc: Global,
    names: &BTreeMap<u64, Symbol>,
    code: &NewCode,
    cold: &[u64],
    table: &mut NameTable,
) -> Result<Vec<SymbolEntry>, Unwritable>
    requires laid_out { AreLaidOut code.now.funcs.now }
    requires fragments { AreFragments code.now.funcs.now code.now.map.now code.now.fragments.now }
    ensures names { IfOk result (λ entries. (symbols : List Symbol) → AreFirstNames symbols names.now →
        table.new.bytes.items ≡ table.old.bytes.items ++ cold_names symbols code.now.funcs.now cold.now) }
    ensures entries { IfOk result (λ entries. (symbols : List Symbol) → AreFirstNames symbols names.now →
        GoTogether (IsColdEntry table.new.bytes.items symbols code.now.funcs.now code.now.map.now code.now.section)
        (spec.named_parts symbols code.now.funcs.now cold.now) entries.items) }
{
    let mut entries = Vec::new(alloc);
    for address in cold {
        if let Some(symbol) = named_around(names, code.funcs, *address) {
            let name = table.add(symbol.name, b".cold")?;
            let entry = code.cold_entry(*address, name);
            entries.push(entry.ok_or(Unwritable::Layout)?)?;
        }
    }
    Ok(entries)
}

/// The bytes of the symbol table: the input's symbols, with those of cold parts after its local ones, and what is after
/// its last whole symbol. gABI, "Symbol Table": local symbols come first, and `sh_info` counts them.
pub fn symbol_table(
    alloc: Global,
    elf: &Elf,
    section: &Section,
    code: &NewCode,
    cold: &[SymbolEntry],
) -> Result<Vec<u8>, Unwritable>
    requires laid_out { AreLaidOut code.now.funcs.now }
    requires fragments { AreFragments code.now.funcs.now code.now.map.now code.now.fragments.now }
    ensures { IfOk result (λ bytes. IsTableOf elf.now section.now code.now.funcs.now code.now.map.now code.now.section
        cold.now bytes.items) }
{
    let mut bytes = Vec::new(alloc);
    let table = bytes_of(elf.file, section);
    let symbols: &[Symbol] = &elf.symbols;
    let local = local_count(symbols, section);
    code.put_symbols(&mut bytes, table, 0, &symbols[..local])?;
    put_all(&mut bytes, cold)?;
    code.put_symbols(&mut bytes, table, local, &symbols[local..])?;
    bytes.extend_from_slice(behind_symbols(table, symbols.len()))?;
    Ok(bytes)
}

// The bytes of a symbol table after its first `count` symbols.
fn behind_symbols(table: &[u8], count: usize) -> &[u8]
    requires { SYM_SIZE * count < 2 ^ 64 }
    ensures { result.now ≡ drop (SYM_SIZE * count) table.now }
{
    let end = SYM_SIZE * count;
    &table[end.min(table.len())..]
}

// The number of symbols before those that are added: the local ones, by the `sh_info` of the table's header.
fn local_count(symbols: &[Symbol], section: &Section) -> usize
    ensures { result ≡ spec.local_count symbols.now section.now }
{
    symbols.len().min(section.info as usize)
}

/// The `sh_info` of a symbol table to which `added` symbols are added after the local ones.
pub fn new_info(symbols: &[Symbol], added: usize, section: &Section) -> Result<u32, Unwritable>
    ensures { IfOk result (λ info. info ≡ spec.new_info symbols.now added section.now) }
{
    if added == 0 {
        return Ok(section.info);
    }
    let count = sum(local_count(symbols, section) as u64, added as u64)?;
    u32::try_from(count).map_err(|_| Unwritable::Layout)
}

// Appends entries.
fn put_all(bytes: &mut Vec<u8>, entries: &[SymbolEntry]) -> Result<(), NoMemory>
    ensures bytes { OnOk result (bytes.new.items ≡ bytes.old.items ++ symbol_entries entries.now) }
    ensures fits { OnOk result (All SymbolFits entries.now) }
{
    for entry in entries {
        put_symbol(bytes, entry)?;
    }
    Ok(())
}
