// The relocations of a file that count.
ghost use Rattle.std.specs.Prelude.{◌≡◌, ◌≤◌, ◌+◌, ◌*◌, ◌-◌, ◌++◌, All, IfOk, OnOk, length, map};
ghost use Rattle.std.specs.List.Sorted.{IsPermutation};
ghost use Rattle.elf_code.specs.Relocations.{relocation_at};
ghost use Rattle.rv_reloc.specs.EntryRuns.{numbered, run_entries, entries, IsWholeRun};
ghost use Rattle.rv_reloc.specs.Records.{seen, AreInOrder, AreRecords};

use crate::applies_to::AppliesTo;
use crate::entry_run::EntryRun;
use crate::entry_runs::read_runs;
use crate::index::class;
use crate::merged_runs::merged_runs;
use elf_image::number::{u32_at, u64_at};
use elf_image::relocation::RELA_SIZE;
use elf_image::{Elf, Section};
use file_bounds::BYTES_A_RELOCATION;
use rb_bytes::fault::NoMemory;
use std::alloc::Global;

/// A relocation with a section that it applies to.
#[derive(Clone, Copy)]
pub struct Record<'a> {
    /// `r_offset`: the address of its field.
    pub place: u64,
    /// `r_addend`.
    pub addend: i64,
    pub section: &'a Section<'a>,
    /// The type, the low half of `r_info`.
    pub kind: u32,
    /// The index of the symbol, the high half of `r_info`; 0 for none.
    pub symbol: u32,
}

fn record_at<'a>(file: &[u8], section: &'a Section<'a>, offset: usize) -> Record<'a>
    requires { offset + RELA_SIZE ≤ length file.now }
    ensures { seen result ≡ relocation_at file.now section.now offset }
{
    Record {
        place: u64_at(file, offset),
        addend: u64_at(file, offset + 16).cast_signed(),
        section,
        kind: u32_at(file, offset + 8),
        symbol: u32_at(file, offset + 12),
    }
}

// Appends the relocations of a run, for one section.
fn push_entries<'a>(
    records: &mut Vec<Record<'a>>,
    file: &[u8],
    run: &EntryRun<'a>,
    section: &'a Section<'a>,
) -> Result<(), NoMemory>
    requires { IsWholeRun (length file.now) run.now }
    ensures { OnOk result
        (map seen records.new.items ≡ map seen records.old.items ++ numbered file.now run.now section.now) }
{
    for number in run.first..run.end {
        records.push(record_at(file, section, run.phase + RELA_SIZE * number))?;
    }
    Ok(())
}

// Appends the relocations of a run, for each of its one or two sections.
fn push_run<'a>(
    records: &mut Vec<Record<'a>>,
    file: &[u8],
    run: &EntryRun<'a>,
) -> Result<(), NoMemory>
    requires { IsWholeRun (length file.now) run.now }
    ensures { OnOk result
        (map seen records.new.items ≡ map seen records.old.items ++ run_entries file.now run.now) }
{
    match run.applies_to {
        AppliesTo::One(section) => push_entries(records, file, run, section),
        AppliesTo::Several {
            last_start,
            first_end,
        } => {
            push_entries(records, file, run, last_start)?;
            push_entries(records, file, run, first_end)
        }
    }
}

// The relocations of all runs.
fn read_records<'a>(
    alloc: Global,
    file: &[u8],
    runs: &[EntryRun<'a>],
) -> Result<Vec<Record<'a>>, NoMemory>
    requires { All (IsWholeRun (length file.now)) runs.now }
    ensures { IfOk result (λ records. map seen records.items ≡ entries file.now runs.now) }
{
    let mut records = Vec::new(alloc);
    for run in runs {
        push_run(&mut records, file, run)?;
        if records.len() > file.len() / BYTES_A_RELOCATION {
            return Err(NoMemory);
        }
    }
    Ok(records)
}

// Sorts relocations by place, and then by class.
fn sort_records(records: &mut Vec<Record>) -> Result<(), NoMemory>
    ensures permutation { IsPermutation records.old.items records.new.items }
    ensures ordered { OnOk result (AreInOrder records.new.items) }
{
    records.sort_by_key(|record| (record.place, class(record.kind)))?;
    Ok(())
}

/// All relocations that count, sorted by place. A relocation that applies to several sections is kept for at most two
/// of them, so the time doesn't depend on how many tables share entries.
pub fn records<'a>(alloc: Global, elf: &'a Elf<'a>) -> Result<Vec<Record<'a>>, NoMemory>
    ensures { IfOk result (λ records. AreRecords elf.now records.items) }
{
    let runs = read_runs(alloc, elf)?;
    let runs = Vec::from(merged_runs(alloc, &runs)?);
    let mut records = read_records(alloc, elf.file, &runs)?;
    sort_records(&mut records)?;
    Ok(records)
}
