// The addresses that names of functions mean.
ghost use Rattle.std.specs.Prelude.{◌≡◌, ◌+◌, List, ℕ, Some, OnOk, IfOk, IfSome};
ghost use Rattle.elf_image.specs.declared.symbol.Symbol.{Symbol};
ghost use Rattle.elf_image.specs.faults.Truncation.{IsReadable};
ghost use Rattle.elf_image.specs.file.ParsedFile.{IsElfOf};
ghost use Rattle.rv_code.specs.layout.FunctionLists.{AreLaidOut};
ghost use Rattle.edge_profile.specs.Grammar.{short_hex_number};
ghost use Rattle.edge_profile.specs.Names.{named_value, value_of_name, function_start, code_address, address_at};
ghost use Rattle.edge_profile.specs.Fields.{place_read};
ghost use Rattle.edge_profile.specs.FunctionNames.{next_known, AreValues, AreNamesOf};
ghost use Rattle.edge_profile.specs.SymbolValues.{AreKnown};

use crate::fields::Place;
use crate::name_ends::NameEnds;
use crate::places::{starts_function, starts_instruction};
use crate::symbol_values::known_values;
use elf_image::{Elf, Symbol};
use indexmap::IndexMap;
use rb_bytes::fault::NoMemory;
use rb_bytes::number::hex_number;
use rv_code::Func;
use std::alloc::Global;

/// The values of functions' symbols by their names. A small file can have many long names that are all suffixes of one
/// text. So only the names that are asked for are looked up, and the text is passed once for all of them.
#[derive(Drop)]
pub struct FunctionNames<'list, 'file, 'name> {
    symbols: &'list [Symbol<'file>],
    // For each name that is asked for: the value of its symbols, or `None` if they have different values or there are
    // none.
    values: IndexMap<&'name [u8], Option<u64>>,
}

impl<'list, 'file, 'name> FunctionNames<'list, 'file, 'name> {
    ghost use Rattle.std.specs.Prelude.{◌≡◌, ℕ, List, IfOk};
    ghost use Rattle.elf_image.specs.faults.Truncation.{IsReadable};
    ghost use Rattle.elf_image.specs.file.ParsedFile.{IsElfOf};
    ghost use Rattle.edge_profile.specs.FunctionNames.{AreNamesOf};

    /// The names of a file's functions. `asked` are the names that will be looked up.
    pub fn new(
        alloc: Global,
        elf: &'list Elf<'file>,
        asked: &[&'name [u8]],
    ) -> Result<FunctionNames<'list, 'file, 'name>, NoMemory>
        requires read { IsElfOf elf.now.file.now elf.now }
        requires readable { IsReadable elf.now.file.now }
        ensures { IfOk result (AreNamesOf elf.now.symbols.items) }
    {
        let values = asked_values(alloc, elf, asked)?;
        Ok(FunctionNames {
            symbols: &elf.symbols,
            values,
        })
    }

    // The value of the symbols of `name`. `read` gives all names beforehand that it will look up, so the search among
    // all symbols is only there for the contract.
    fn named_value(&self, name: &[u8]) -> Option<u64>
        ensures { (symbols : List Symbol) → AreNamesOf symbols self.now → result ≡ named_value symbols name.now }
    {
        match self.values.get(name) {
            Some(value) => *value,
            None => value_among(self.symbols, name),
        }
    }
}

// The values of the names `asked`.
fn asked_values<'name>(
    alloc: Global,
    elf: &Elf,
    asked: &[&'name [u8]],
) -> Result<IndexMap<&'name [u8], Option<u64>>, NoMemory>
    requires read { IsElfOf elf.now.file.now elf.now }
    requires readable { IsReadable elf.now.file.now }
    ensures { IfOk result (AreValues elf.now.symbols.items) }
{
    if asked.is_empty() {
        return Ok(IndexMap::new(alloc));
    }
    let ends = NameEnds::new(alloc, asked)?;
    let known = known_values(alloc, elf, &ends)?;
    Ok(values_by_name(alloc, &ends, &known, asked)?)
}

// The values of the names `asked`, from the `known` values of the names in `ends`.
fn values_by_name<'name>(
    alloc: Global,
    ends: &NameEnds,
    known: &[Option<Option<u64>>],
    asked: &[&'name [u8]],
) -> Result<IndexMap<&'name [u8], Option<u64>>, NoMemory>
    ensures { IfOk result (λ values. (symbols : List Symbol) → AreKnown ends.now.backward.items symbols known.now →
        AreValues symbols values) }
{
    let mut values = IndexMap::new(alloc);
    for name in asked {
        insert_value(&mut values, name, value_of(ends, known, name))?;
    }
    Ok(values)
}

// The value of `name`: `None` if it isn't in `ends`, and `Some(None)` if its symbols have different values or there are
// none.
fn value_of(ends: &NameEnds, known: &[Option<Option<u64>>], name: &[u8]) -> Option<Option<u64>>
    ensures { (symbols : List Symbol) → AreKnown ends.now.backward.items symbols known.now →
        IfSome result (λ value. value ≡ named_value symbols name.now) }
{
    let index = ends.index_of(name)?;
    if index >= known.len() {
        return None;
    }
    Some(known[index].flatten())
}

// Adds `name` with its value, if there is one, to `values`.
fn insert_value<'name>(
    values: &mut IndexMap<&'name [u8], Option<u64>>,
    name: &'name [u8],
    value: Option<Option<u64>>,
) -> Result<(), NoMemory>
    ensures { OnOk result ((symbols : List Symbol) → IfSome value (λ v. v ≡ named_value symbols name.now) →
        AreValues symbols values.old → AreValues symbols values.new) }
{
    let Some(value) = value else {
        return Ok(());
    };
    values.insert(name, value)?;
    Ok(())
}

// The value of the symbols of `name`, by a search among all symbols.
fn value_among(symbols: &[Symbol], name: &[u8]) -> Option<u64>
    ensures { result ≡ named_value symbols.now name.now }
{
    let mut known = None;
    for symbol in symbols {
        if !symbol.names_function() {
            continue;
        }
        if symbol.name == name {
            known = Some(next_known(known, symbol.value));
        }
    }
    known.flatten()
}

/// A name's value after one more symbol with `value`. `known` is its value before: `None` if there was no symbol yet,
/// and `Some(None)` if there were different values.
pub fn next_known(known: Option<Option<u64>>, value: u64) -> Option<u64>
    ensures { result ≡ next_known known value }
{
    match known {
        Some(known) => same_value(known, value),
        None => Some(value),
    }
}

// The address that a name means: of `@` and digits, the start of the function at this address; of any other name, the
// value of its symbols.
fn value_of_name(names: &FunctionNames, funcs: &[Func], name: &[u8]) -> Option<u64>
    requires { AreLaidOut funcs.now }
    ensures { (symbols : List Symbol) → AreNamesOf symbols names.now →
        result ≡ value_of_name symbols funcs.now name.now }
{
    if name.is_empty() || name[0] != b'@' {
        return names.named_value(name);
    }
    function_start(funcs, &name[1..])
}

// The address that digits write, if a function starts there.
fn function_start(funcs: &[Func], digits: &[u8]) -> Option<u64>
    requires { AreLaidOut funcs.now }
    ensures { result ≡ function_start funcs.now digits.now }
{
    let address = short_hex_number(digits)?;
    if starts_function(funcs, address) {
        Some(address)
    } else {
        None
    }
}

// The number that hexadecimal digits without leading zeros write.
fn short_hex_number(digits: &[u8]) -> Option<u64>
    ensures { result ≡ short_hex_number digits.now }
{
    if digits.len() > 1 && digits[0] == b'0' {
        return None;
    }
    hex_number(digits)
}

/// The address that a line's place means, if an instruction starts there.
pub fn address_at(names: &FunctionNames, funcs: &[Func], place: &Place) -> Option<u64>
    requires { AreLaidOut funcs.now }
    ensures { (symbols : List Symbol) → AreNamesOf symbols names.now →
        result ≡ address_at symbols funcs.now (place_read place.now) }
{
    let start = value_of_name(names, funcs, place.name)?;
    code_address(funcs, start, place.offset)
}

// The address `offset` bytes after `start`, if an instruction starts there.
fn code_address(funcs: &[Func], start: u64, offset: u64) -> Option<u64>
    requires { AreLaidOut funcs.now }
    ensures { result ≡ code_address funcs.now (start + offset) }
{
    let address = start.checked_add(offset)?;
    if starts_instruction(funcs, address) {
        Some(address)
    } else {
        None
    }
}

// A name's value after one more symbol: `known` if `value` is the same, otherwise `None`.
fn same_value(known: Option<u64>, value: u64) -> Option<u64>
    ensures { result ≡ next_known (Some known) value }
{
    let other = known?;
    if value == other { known } else { None }
}
