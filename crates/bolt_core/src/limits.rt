// Limits on files that are rewritten.
ghost use Rattle.std.specs.Prelude.{ℕ, ◌≤◌, ◌^◌, All, AllPairs, IfErr, IfOk, List, OnOk, length};
ghost use Rattle.rb_bytes.specs.FirstFault.{IsFree};
ghost use Rattle.rv_code.specs.layout.FunctionLists.{AreLaidOut};
ghost use Rattle.rv_code.specs.layout.FunctionMembers.{IsOfFunction};
ghost use Rattle.elf_image.specs.file.ParsedFile.{IsElfOf};
ghost use Rattle.addr_map.specs.MapText.{IsLineBefore};
ghost use Rattle.addr_map.specs.Spans.{ShareNoByte};
ghost use Rattle.answer_runs.specs.AnswerRuns.{AreLow};
ghost use Rattle.dw_unit.specs.Faults.{HasDwarfFault, unit_fault_places};
ghost use Rattle.dw_unit.specs.Tables.{sections_of};
ghost use Rattle.table_set.specs.AllTables.{AllComeFrom};
ghost use Rattle.table_set.specs.TableLimits.{IsTooHeavy};
ghost use Rattle.table_set.specs.WeighedTables.{AreWeighed};
ghost use Rattle.area_room.specs.Need.{AreBlocksOf};
ghost use Rattle.program.specs.Limits.{IsLimitFault};
ghost use Rattle.program.specs.Program.{program_seen};
ghost use Rattle.program.specs.Refusals.{IsRefusalFor};
ghost use Rattle.bolt_core.specs.Limits.{IsTooLarge};
ghost use Rattle.bolt_core.specs.internal.TableLimits.{IsHeavy};
ghost use Rattle.bolt_core.specs.Refusals.{Fit, IsInput, IsRefusal};

use crate::reading::read_tables;
use addr_map::AddrMap;
use answer_runs::WEIGHT_LIMIT;
use elf_image::Elf;
use elf_write::name_weight;
use func_place::check_units;
use program::{FILE_LIMIT, Program, check_code, new_start};
use rb_bytes::fault::{Fault, FaultKind, Refusal};
use rb_bytes::limit::{FILE_BYTES, HEADERS, PROFILE_BYTES, WEIGHTS};
use rv_code::Func;
use std::alloc::Global;
use table_set::{AllTables, Weighed, weigh_all};

// The limit on section headers, and on program headers. A written file has a few more. Their number has to fit in a
// field of 16 bits, and for sections to be below SHN_LORESERVE (0xff00).
const HEADER_LIMIT: usize = 65_000;

// The limit on blocks: 16 MiB, the size limit of code, has room for as many of two bytes each. A program with more
// blocks exceeds that size limit, and `check_sizes` would refuse it.
const MOST_BLOCKS: usize = 1 << 23;

/// Refuses a file that is too long, at 0 (`FILE_BYTES`); otherwise a profile that is too long, at 1 (`PROFILE_BYTES`).
pub fn check_lengths(file: &[u8], profile: &[u8]) -> Result<(), Refusal>
    ensures fit { OnOk result (Fit file.now profile.now) }
    ensures refused { IfErr result (IsRefusal file.now profile.now) }
{
    if file.len() > FILE_LIMIT {
        return Err(Refusal::Fault(Fault::at(FaultKind::TooLarge, FILE_BYTES)));
    }
    if profile.len() > FILE_LIMIT {
        return Err(Refusal::Fault(Fault::at(FaultKind::TooLarge, PROFILE_BYTES)));
    }
    Ok(())
}

/// Refuses a program with more blocks than a program within the limits can have, before they are laid out, which would
/// take much memory. The error is its first fault that needs no layout: of its functions and tables, of room, or of its
/// code. There is such a fault, unless memory runs out.
pub fn check_blocks(alloc: Global, program: &Program<'_>) -> Result<(), Refusal>
    requires fields { IsElfOf program.now.elf.file.now program.now.elf }
    requires laid { AreLaidOut program.now.funcs.items }
    requires stretches { All (IsOfFunction program.now.funcs.items) program.now.blocks.items }
    requires blocks { AreBlocksOf program.now.funcs.items program.now.blocks.items }
    ensures few { OnOk result (length program.now.blocks.items ≤ 2 ^ 23) }
    ensures refused { (file profile : List ℕ) → IsInput file profile (program_seen program.now) →
        IfErr result (IsRefusal file profile) }
{
    let funcs = program.funcs.as_slice();
    let blocks = program.blocks.as_slice();
    if blocks.len() <= MOST_BLOCKS {
        return Ok(());
    }
    check_units(alloc, funcs, blocks)?;
    read_tables(alloc, &program.elf)?;
    new_start(alloc, program)?;
    check_code(&program.elf, funcs)?;
    Err(Refusal::Memory)
}

/// Refuses a program that exceeds another limit: on its code, at 2 (`CODE_BYTES`) and 3 (`FUNCTIONS`), on its headers,
/// at 5 (`HEADERS`), or on the names that are written, at 6 (`WEIGHTS`). `cold` has the addresses in the input of the
/// cold parts that get a name.
pub fn check_sizes(
    alloc: Global,
    elf: &Elf<'_>,
    funcs: &[Func],
    cold: &[u64],
) -> Result<(), Refusal>
    requires fields { IsElfOf elf.now.file.now elf.now }
    requires laid { AreLaidOut funcs.now }
    ensures within { OnOk result ((place : ℕ) → IsTooLarge elf.now funcs.now cold.now place → ⊥) }
    ensures refused { IfErr result (IsRefusalFor (IsLimitFault (IsTooLarge elf.now funcs.now cold.now))) }
{
    check_code(elf, funcs)?;
    if elf.sections.len() > HEADER_LIMIT {
        return Err(Refusal::Fault(Fault::at(FaultKind::TooLarge, HEADERS)));
    }
    if elf.segments.len() > HEADER_LIMIT {
        return Err(Refusal::Fault(Fault::at(FaultKind::TooLarge, HEADERS)));
    }
    let weight = name_weight(alloc, elf, funcs, cold)?;
    if weight > WEIGHT_LIMIT {
        return Err(Refusal::Fault(Fault::at(FaultKind::TooLarge, WEIGHTS)));
    }
    Ok(())
}

/// Refuses a program with a table that would weigh too much when written for `map`, at 6 (`WEIGHTS`). Otherwise gives
/// what the weights were found from, which is written.
pub fn check_weight(
    alloc: Global,
    elf: &Elf<'_>,
    tables: &AllTables,
    map: &AddrMap,
) -> Result<Weighed, Refusal>
    requires comes { AllComeFrom tables.now elf.now }
    requires ordered { AllPairs IsLineBefore map.now }
    requires disjoint { AllPairs ShareNoByte map.now }
    requires low { AreLow map.now }
    requires sound { IsFree (HasDwarfFault (unit_fault_places (sections_of elf.now))) }
    ensures light { OnOk result (IsTooHeavy elf.now map.now → ⊥) }
    ensures weighed { IfOk result (AreWeighed tables.now map.now) }
    ensures refused { IfErr result (IsRefusalFor (IsHeavy elf.now map.now)) }
{
    match weigh_all(alloc, elf, tables, map)? {
        Some(weighed) => Ok(weighed),
        None => Err(Refusal::Fault(Fault::at(FaultKind::TooLarge, WEIGHTS))),
    }
}
