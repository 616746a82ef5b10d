// The addresses that relocations for lower parts refer to.
ghost use Rattle.std.specs.Prelude.{◌≡◌, ◌↔◌, ◌<◌, ℕ, IfOk, IfSome, IsTrue, Some, Contains, AllPairs};
ghost use Rattle.std.specs.List.Sorted.{IsStrictlyIncreasing};
ghost use Rattle.rv_reloc.specs.Finds.{AreFound};
ghost use Rattle.rv_reloc.specs.NamedAddresses.{NamesUpper, AreNamed};
ghost use Rattle.rv_reloc.specs.Records.{seen, AreRecords};

use crate::labels::symbol_value;
use crate::records::Record;
use crate::types::is_pcrel_lo;
use code_starts::code::is_start;
use elf_image::Elf;
use elf_image::function_bounds::make_ascending;
use rb_bytes::fault::NoMemory;
use rb_bytes::lists::push_some;
use std::alloc::Global;

// The address of the AUIPC that a relocation refers to, if it is for a lower part.
fn named_by(elf: &Elf, relocation: &Record) -> Option<u64>
    ensures is { IfSome result (NamesUpper elf.now (seen relocation.now)) }
    ensures only { (a : ℕ) → NamesUpper elf.now (seen relocation.now) a → result ≡ Some a }
{
    if is_pcrel_lo(relocation.kind) {
        Some(symbol_value(elf, relocation))
    } else {
        None
    }
}

// The addresses that relocations refer to, relocation by relocation.
fn read_named(alloc: Global, elf: &Elf, records: &[Record]) -> Result<Vec<u64>, NoMemory>
    ensures { IfOk result (λ named. AreFound (λ r a. NamesUpper elf.now (seen r) a) records.now named.items) }
{
    let mut named = Vec::new(alloc);
    for relocation in records {
        push_some(&mut named, named_by(elf, relocation))?;
    }
    Ok(named)
}

/// All addresses that relocations for lower parts refer to, ascending.
pub fn named_by_lows(alloc: Global, elf: &Elf, records: &[Record]) -> Result<Vec<u64>, NoMemory>
    requires { AreRecords elf.now records.now }
    ensures { IfOk result (λ named. AreNamed elf.now named.items) }
{
    let mut named = read_named(alloc, elf, records)?;
    make_ascending(&mut named);
    Ok(named)
}

/// Whether an address is in the ascending list `named`.
pub fn is_named(named: &[u64], address: u64) -> bool
    requires { AllPairs (λ a b. a < b) named.now }
    ensures { IsTrue result ↔ Contains named.now address }
{
    is_start(named, address)
}
