// The written file is made, and read.
ghost use Rattle.std.specs.Prelude.{◌<◌, All, AllPairs, Bool, IfOk, OnOk};
ghost use Rattle.elf_image.specs.faults.FileFaults.{IsSound};
ghost use Rattle.elf_image.specs.file.ParsedFile.{IsElfOf};
ghost use Rattle.rv_code.specs.layout.FunctionLists.{AreLaidOut};
ghost use Rattle.elf_make.specs.NewTables.{HasNewTables, area_for};
ghost use Rattle.elf_write.specs.TablePlaces.{ArePlaced, KeepsTables, TablesStand};
ghost use Rattle.elf_write.specs.WriterInputs.{AreInputs, IsRead};
ghost use Rattle.elf_make.specs.Source.{HasPlace, source_of};
ghost use Rattle.elf_make.specs.WrittenFile.{AreApart, CanHold, IsWritten};

use crate::given_places::check_places;
use addr_map::AddrMap;
use elf_image::{Elf, read};
use elf_make::{is_above, made};
use elf_plan::first_names::first_names;
use elf_plan::fragments::fragments;
use elf_plan::given_tables::Table;
use elf_plan::plan::Plan;
use elf_plan::source::SectionSource;
use elf_plan::unwritable::Unwritable;
use rb_bytes::fault::{NoMemory, Refusal};
use rv_code::{Emitted, Func};
use std::alloc::Global;

// Answers `ReadBack` if the reader finds a fault in `file`.
fn check_read(alloc: Global, file: &[u8]) -> Result<(), Unwritable>
    ensures { OnOk result (IsRead file.now) }
{
    match read(alloc, file) {
        Ok(_) => Ok(()),
        Err(Refusal::Fault(_)) => Err(Unwritable::ReadBack),
        Err(Refusal::Memory) => Err(Unwritable::Memory),
    }
}

// What `write` gives, with the reason if there is no file.
fn written(
    alloc: Global,
    elf: &Elf,
    funcs: &[Func],
    cold: &[u64],
    emitted: &Emitted,
    map: &AddrMap,
    tables: &[Table],
) -> Result<Vec<u8>, Unwritable>
    requires { AreInputs elf.now funcs.now emitted.now }
    ensures written { IfOk result (λ w. (tight : Bool) →
        HasPlace (source_of elf.now emitted.now map.now tables.now) tight →
        IsWritten (source_of elf.now emitted.now map.now tables.now) tight w.items) }
    ensures tables { IfOk result (λ w. (tight : Bool) →
        HasPlace (source_of elf.now emitted.now map.now tables.now) tight →
        HasNewTables elf.now tables.now emitted.now.code.items funcs.now cold.now map.now tight w.items) }
    ensures placed { OnOk result (ArePlaced elf.now tables.now) }
    ensures kept { OnOk result (KeepsTables elf.now) }
{
    check_places(elf, tables)?;
    let fragments = fragments(alloc, funcs, map)?;
    let names = first_names(alloc, &elf.symbols)?;
    let source = SectionSource {
        elf,
        funcs,
        cold,
        map,
        fragments: &fragments,
        names: &names,
        tables,
    };
    let tight = is_above(elf, map)?;
    let plan = Plan::new(alloc, elf, tables, &emitted.code, tight)?;
    let file = made(alloc, &source, emitted, &plan)?;
    check_read(alloc, &file)?;
    Ok(file)
}

/// The bytes of the written file. `funcs` are the functions of the input, `cold` has the addresses in it of the cold
/// parts that get a name, `emitted` the new code and the new contents of code cells, and `tables` the contents of
/// tables that are rewritten, by the names of their sections.
///
/// What is written is read, so no file is ever answered that the reader refuses. What is read isn't compared: it is
/// proved of each file that is made. If no file can be written, for whichever reason of [`Unwritable`], out of memory
/// is answered.
pub fn write(
    alloc: Global,
    elf: &Elf,
    funcs: &[Func],
    cold: &[u64],
    emitted: &Emitted,
    map: &AddrMap,
    tables: &[Table],
) -> Result<Vec<u8>, NoMemory>
    requires read { IsElfOf elf.now.file.now elf.now }
    requires sound { IsSound elf.now.file.now }
    requires bytes { All (λ b. b < 256) elf.now.file.now }
    requires cells { All (CanHold elf.now) emitted.now.cells.items }
    requires apart { AllPairs AreApart emitted.now.cells.items }
    requires laid_out { AreLaidOut funcs.now }
    ensures written { IfOk result (λ w. (tight : Bool) →
        HasPlace (source_of elf.now emitted.now map.now tables.now) tight →
        IsWritten (source_of elf.now emitted.now map.now tables.now) tight w.items) }
    ensures tables { IfOk result (λ w. (tight : Bool) →
        HasPlace (source_of elf.now emitted.now map.now tables.now) tight →
        HasNewTables elf.now tables.now emitted.now.code.items funcs.now cold.now map.now tight w.items) }
    // The tables are in what is read of the file.
    ensures stand { IfOk result (λ w. (tight : Bool) →
        (t : HasNewTables elf.now tables.now emitted.now.code.items funcs.now cold.now map.now tight w.items) →
        TablesStand elf.now t.new tables.now (area_for elf.now tables.now emitted.now.code.items tight)) }
{
    match written(alloc, elf, funcs, cold, emitted, map, tables) {
        Ok(file) => Ok(file),
        Err(_) => Err(NoMemory),
    }
}
