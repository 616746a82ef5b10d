// Relocation tables as runs of numbered entries.
ghost use Rattle.std.specs.Prelude.{◌≡◌, [], Some, IfOk, IfSome, IfNone, All, length, slice_get};
ghost use Rattle.elf_code.specs.Relocations.{relocations, entries_for, entries_of, is_named};
ghost use Rattle.rv_reloc.specs.EntryRuns.{run_entries, entries, IsWholeRun};
ghost use Rattle.rv_reloc.specs.Records.{counts, IsContained};

use crate::applies_to::AppliesTo;
use crate::entry_run::EntryRun;
use elf_image::relocation::{RELA_SIZE, SHT_RELA};
use elf_image::{Elf, Section};
use rb_bytes::fault::NoMemory;
use rb_bytes::lists::push_some;
use std::alloc::Global;

/// Whether a section has this name.
pub fn is_named(section: &Section, name: &[u8]) -> bool
    ensures { result ≡ is_named section.now name.now }
{
    section.name == name
}

// Whether the relocations of a section count. Those of unwind tables don't, since these tables are read and written as
// a whole.
fn counts(section: &Section) -> bool
    ensures { result ≡ counts section.now }
{
    section.is_loaded() && !is_named(section, b".eh_frame")
}

// The run of a table for a section, if its relocations count and there are any.
fn run_for<'a>(elf: &Elf<'a>, table: &Section, section: &'a Section<'a>) -> Option<EntryRun<'a>>
    requires contained { IsContained elf.now.file.now table.now }
    requires is_table { table.now.kind ≡ SHT_RELA }
    ensures is { IfSome result (λ run. run_entries elf.now.file.now run ≡ entries_for elf.now table.now section.now) }
    ensures whole { IfSome result (IsWholeRun (length elf.now.file.now)) }
    ensures none { IfNone result (entries_for elf.now table.now section.now ≡ []) }
{
    if !counts(section) {
        return None;
    }
    if table.size == 0 {
        return None;
    }
    let first = table.offset as usize / RELA_SIZE;
    Some(EntryRun {
        applies_to: AppliesTo::One(section),
        phase: table.offset as usize % RELA_SIZE,
        first,
        end: first + table.size as usize / RELA_SIZE,
    })
}

// The run of a section, if it is a relocation table whose entries count, and there are any.
fn run_of<'a>(elf: &'a Elf<'a>, table: &Section) -> Option<EntryRun<'a>>
    requires contained { IsContained elf.now.file.now table.now }
    ensures is { IfSome result (λ run. run_entries elf.now.file.now run ≡ entries_of elf.now table.now) }
    ensures whole { IfSome result (IsWholeRun (length elf.now.file.now)) }
    ensures none { IfNone result (entries_of elf.now table.now ≡ []) }
{
    if table.kind != SHT_RELA {
        return None;
    }
    let section = elf.sections.get(table.info as usize)?;
    run_for(elf, table, section)
}

/// The runs of all tables whose relocations count, in the order of the tables.
pub fn read_runs<'a>(alloc: Global, elf: &'a Elf<'a>) -> Result<Vec<EntryRun<'a>>, NoMemory>
    ensures all { IfOk result (λ runs. entries elf.now.file.now runs.items ≡ relocations elf.now) }
    ensures whole { IfOk result (λ runs. All (IsWholeRun (length elf.now.file.now)) runs.items) }
{
    let mut runs = Vec::new(alloc);
    for table in &elf.sections {
        push_some(&mut runs, run_of(elf, table))?;
    }
    Ok(runs)
}
