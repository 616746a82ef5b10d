// A bound on the bytes of the tables of names that are written.
ghost use Rattle.std.specs.Prelude.{◌≡◌, IfOk, List, sum_by};
ghost use Rattle.std.specs.Option.{option_copied};
ghost use Rattle.elf_image.specs.declared.symbol.Symbol.{Symbol};
ghost use Rattle.rv_code.specs.layout.FunctionLists.{AreLaidOut};
ghost use Rattle.elf_plan.specs.FirstNames.{AreFirstNames};
ghost use Rattle.elf_plan.specs.NameTables as tables;
ghost use Rattle.elf_plan.specs.NameWeight as spec;
ghost use Rattle.file_room.specs.Numbers.{capped};

use crate::first_names::{first_names, named_around};
use crate::name_tables::{place_of_section_names, symbols_section};
use crate::old_name::is_renamed;
use elf_image::{Elf, Section, Symbol};
use rb_bytes::fault::NoMemory;
use rv_code::Func;
use std::alloc::Global;
use std::collections::BTreeMap;

// The most bytes that a changed name takes: with a prefix `.old` or `.old.` or a suffix `.cold`, and a zero byte.
fn weight_of(name: &[u8]) -> u64
    ensures { result ≡ spec.weight_of name.now }
{
    8 + name.len() as u64
}

fn section_weight(section: &Section) -> u64
    ensures { result ≡ spec.section_weight section.now }
{
    if is_renamed(section) {
        weight_of(section.name)
    } else {
        0
    }
}

// The most bytes that the new names of sections take.
fn sections_weight(sections: &[Section]) -> u64
    ensures { result ≡ capped (sum_by spec.section_weight sections.now) }
{
    let mut sum: u64 = 0;
    for section in sections {
        sum = sum.saturating_add(section_weight(section));
    }
    sum
}

// The most bytes that the name of the cold part at `address` takes.
fn cold_weight(names: &BTreeMap<u64, Symbol>, funcs: &[Func], address: u64) -> u64
    requires { AreLaidOut funcs.now }
    ensures { (symbols : List Symbol) → AreFirstNames symbols names.now →
        result ≡ spec.cold_weight symbols funcs.now address }
{
    match named_around(names, funcs, address) {
        Some(symbol) => weight_of(symbol.name),
        None => 0,
    }
}

// The most bytes that the names of cold parts take.
fn cold_weights(names: &BTreeMap<u64, Symbol>, funcs: &[Func], cold: &[u64]) -> u64
    requires { AreLaidOut funcs.now }
    ensures { (symbols : List Symbol) → AreFirstNames symbols names.now →
        result ≡ capped (sum_by (spec.cold_weight symbols funcs.now) cold.now) }
{
    let mut sum: u64 = 0;
    for address in cold {
        sum = sum.saturating_add(cold_weight(names, funcs, *address));
    }
    sum
}

// The section with the section names.
fn names_of_sections<'a>(elf: &'a Elf<'a>) -> Option<&'a Section<'a>>
    ensures { option_copied result ≡ tables.names_of_sections elf.now }
{
    elf.sections.get(place_of_section_names(elf))
}

// The section with the symbol names, if there are symbols.
fn names_of_symbols<'a>(elf: &'a Elf<'a>) -> Option<&'a Section<'a>>
    ensures { option_copied result ≡ tables.names_of_symbols elf.now }
{
    if elf.symbols.is_empty() {
        return None;
    }
    let table = symbols_section(elf)?;
    elf.sections.get(table.link as usize)
}

fn size_of(section: Option<&Section>) -> u64
    ensures { result ≡ tables.size_of (option_copied section.entry) }
{
    match section {
        Some(section) => section.size,
        None => 0,
    }
}

/// The result of `name_weight`. `names` are the symbols that give functions their names.
pub fn weight_by(names: &BTreeMap<u64, Symbol>, elf: &Elf, funcs: &[Func], cold: &[u64]) -> u64
    requires { AreLaidOut funcs.now }
    ensures { AreFirstNames elf.now.symbols.items names.now → result ≡ spec.name_weight elf.now funcs.now cold.now }
{
    let cold = cold_weights(names, funcs, cold);
    let tables = size_of(names_of_sections(elf)).saturating_add(size_of(names_of_symbols(elf)));
    tables
        .saturating_add(64)
        .saturating_add(sections_weight(&elf.sections))
        .saturating_add(cold)
}

/// A bound on the bytes of the tables of names that are written: the old tables, the new names, and 64 bytes for those
/// of new sections, saturated at 2^64 - 1. `cold` has the addresses of the first instructions of cold parts.
pub fn name_weight(alloc: Global, elf: &Elf, funcs: &[Func], cold: &[u64]) -> Result<u64, NoMemory>
    requires { AreLaidOut funcs.now }
    ensures { IfOk result (λ n. n ≡ spec.name_weight elf.now funcs.now cold.now) }
{
    let names = first_names(alloc, &elf.symbols)?;
    Ok(weight_by(&names, elf, funcs, cold))
}
