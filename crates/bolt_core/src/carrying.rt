// Rewriting tables for moved code.
ghost use Rattle.std.specs.Prelude.{◌≡◌, ◌+◌, ◌≤◌, AllPairs, IfOk, length};
ghost use Rattle.rb_bytes.specs.FirstFault.{IsFree};
ghost use Rattle.rv_code.specs.layout.FunctionLists.{address_end};
ghost use Rattle.addr_map.specs.MapText.{IsLineBefore};
ghost use Rattle.addr_map.specs.Spans.{IsStretch, ShareNoByte};
ghost use Rattle.answer_runs.specs.Weights.{weight_limit};
ghost use Rattle.dw_unit.specs.AbbrevWeight.{abbrev_weight};
ghost use Rattle.dw_unit.specs.Faults.{HasDwarfFault, unit_fault_places};
ghost use Rattle.dw_unit.specs.Tables.{sections_of};
ghost use Rattle.frame_rewrite.specs.Tables.{EhAllows};
ghost use Rattle.table_set.specs.AllTables.{AllComeFrom, AllFit};
ghost use Rattle.table_set.specs.WeighedTables.{AreWeighed};
ghost use Rattle.program.specs.Limits.{function_limit};
ghost use Rattle.bolt_core.specs.internal.CarriedTables.{AreNewTables, HasRoomBehind};

use crate::table_list::listed;
use addr_map::AddrMap;
use elf_image::Elf;
use elf_write::Table;
use rb_bytes::fault::NoMemory;
use rv_code::Func;
use std::alloc::Global;
use table_set::{AllTables, Weighed, carry_all};

// The new addresses of functions, in ascending order.
fn new_starts(alloc: Global, funcs: &[Func], map: &AddrMap) -> Result<Vec<u64>, NoMemory>
    ensures { IfOk result (λ starts. length starts.items ≡ length funcs.now) }
{
    let mut starts = Vec::with_capacity(alloc, funcs.len())?;
    for func in funcs {
        starts.push(map.new_address(func.start))?;
    }
    starts.sort_unstable();
    Ok(starts)
}

/// The tables of a file, rewritten for the new code by the map, and the index of its unwind table, by the names of
/// their sections. The new code has `code` bytes from `start` on. After it there is room for the unwind table and its
/// index, which are loaded. A row of lines begins at each function's start.
pub fn new_tables(
    alloc: Global,
    elf: &Elf<'_>,
    funcs: &[Func],
    tables: &AllTables,
    map: &AddrMap,
    start: u64,
    code: usize,
    weighed: Weighed,
) -> Result<Vec<Table>, NoMemory>
    requires come { AllComeFrom tables.now elf.now }
    requires ordered { AllPairs IsLineBefore map.now }
    requires disjoint { AllPairs ShareNoByte map.now }
    requires allowed { EhAllows tables.now.eh map.now }
    requires fit { AllFit tables.now map.now }
    requires sound { IsFree (HasDwarfFault (unit_fault_places (sections_of elf.now))) }
    requires light { abbrev_weight (sections_of elf.now) ≤ weight_limit }
    requires weighed { AreWeighed tables.now map.now weighed }
    requires stretch { IsStretch map.now start (start + code) }
    requires low { start + code ≤ address_end }
    requires room { HasRoomBehind tables.now.eh map.now (start + code) }
    requires few { length funcs.now ≤ function_limit }
    ensures { IfOk result (λ given. AreNewTables elf.now tables.now map.now start code given.items) }
{
    let starts = new_starts(alloc, funcs, map)?;
    let written = carry_all(alloc, elf, tables, map, weighed, &starts)?;
    listed(alloc, elf, start, code, written)
}
