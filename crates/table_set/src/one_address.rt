// The answers of a file's tables at one address, or the first fault of its tables.
ghost use Rattle.std.specs.Prelude.{IfOk, IfErr, OnOk};
ghost use Rattle.rb_bytes.specs.FirstFault.{IsFree, IsRefusalBy};
ghost use Rattle.table_set.specs.AllTables.{AreReadAt, IsDebugReadAt};
ghost use Rattle.table_set.specs.TableFaults.{HasDebugFault, HasTableFault};

use crate::reading::check_readings;
use addr_rewrite::Aranges;
use elf_image::Elf;
use frame_rewrite::{DebugFrames, EhFrames};
use line_rewrite::Lines;
use range_loc_rewrite::{ListsAt, lists_at};
use rb_bytes::fault::Refusal;
use std::alloc::Global;
use table_core::AddrTable;

/// The answers of debug data at one address.
#[derive(Drop)]
pub struct DebugAt {
    /// The whole table of lines, since it also has the paths of files.
    pub lines: Lines,
    /// The answers of units' entries at the address.
    pub lists: ListsAt,
}

/// Both frame tables, and the answers of debug data at one address.
#[derive(Drop)]
pub struct TablesAt {
    pub eh: EhFrames,
    pub df: DebugFrames,
    pub debug: DebugAt,
}

/// Reads the answers of debug data at an address, or refuses the file for the fault of its tables with the lowest
/// number, at its lowest place. Units are walked once.
pub fn read_debug_at(alloc: Global, elf: &Elf<'_>, a: u64) -> Result<DebugAt, Refusal>
    ensures read { IfOk result (λ t. IsDebugReadAt t elf.now a) }
    ensures sound { OnOk result (IsFree (HasDebugFault elf.now)) }
    ensures fault { IfErr result (IsRefusalBy (HasDebugFault elf.now)) }
{
    let lines = Lines::read(alloc, elf);
    let lists = lists_at(alloc, elf, a);
    let aranges = Aranges::read_alone(alloc, elf);
    check_readings(alloc, elf, &lines, &lists, &aranges)?;
    Ok(DebugAt {
        lines: lines?,
        lists: lists?,
    })
}

/// Reads the answers of all tables at an address, or refuses the file for the fault of tables with the lowest number,
/// at its lowest place.
pub fn read_all_at(alloc: Global, elf: &Elf<'_>, a: u64) -> Result<TablesAt, Refusal>
    ensures read { IfOk result (λ t. AreReadAt t elf.now a) }
    ensures sound { OnOk result (IsFree (HasTableFault elf.now)) }
    ensures fault { IfErr result (IsRefusalBy (HasTableFault elf.now)) }
{
    let eh = EhFrames::read(alloc, elf)?;
    let df = DebugFrames::read(alloc, elf)?;
    let debug = read_debug_at(alloc, elf, a)?;
    Ok(TablesAt { eh, df, debug })
}
