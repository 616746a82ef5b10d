// The tables of a `.debug_aranges`, one after another.
ghost use Rattle.std.specs.Prelude.{◌≡◌, ◌++◌, ◌∷◌, [], List, IfOk, OnOk, Ok, Err};
ghost use Rattle.table_core.specs.DebugUnits.{Walked};
ghost use Rattle.dw_unit.specs.Stops.{IfTrouble};
ghost use Rattle.addr_rewrite.specs.Aranges.{table_of};
ghost use Rattle.addr_rewrite.specs.ArangesReading.{AreTables, entries_of, told};

use crate::table_reader::{Table, read_table};
use crate::unit_range::UnitRange;
use dw_unit::trouble::{Stop, Trouble};
use rb_bytes::fault::NoMemory;
use std::alloc::Global;
use table_core::DebugUnit;

/// The result of reading some tables.
#[derive(Drop)]
pub struct ReadTables {
    /// The ranges of the well-formed tables, in order.
    pub ranges: Vec<UnitRange>,
    /// The offset of the first malformed table.
    pub bad: Option<u64>,
}

fn table_of(alloc: Global, table: &DebugUnit) -> Result<Table, Stop>
    ensures read { IfOk result (λ t. table_of table.now ≡ Ok (told t)) }
    ensures trouble { IfTrouble result (λ e. table_of table.now ≡ Err e) }
{
    match table.bytes {
        Some(bytes) => read_table(alloc, bytes),
        None => Err(Stop::Trouble(Trouble::Unsound)),
    }
}

fn add_ranges(ranges: &mut Vec<UnitRange>, table: &Table) -> Result<(), NoMemory>
    ensures { OnOk result (ranges.new.items ≡ ranges.old.items ++ entries_of (told table.now)) }
{
    for range in &table.ranges {
        ranges.push(UnitRange {
            range: *range,
            unit: table.unit,
        })?;
    }
    Ok(())
}

// Adds the result for the next table.
fn add_table(alloc: Global, read: &mut ReadTables, table: &DebugUnit) -> Result<(), NoMemory>
    ensures { OnOk result ((ws : List Walked) → AreTables ws read.old → AreTables (ws ++ table.now ∷ []) read.new) }
{
    match table_of(alloc, table) {
        Ok(table) => {
            add_ranges(&mut read.ranges, &table)?;
            Ok(())
        }
        Err(Stop::Trouble(_)) => {
            read.bad = read.bad.or(Some(table.place));
            Ok(())
        }
        Err(Stop::Memory) => Err(NoMemory),
    }
}

/// Reads the tables that a walk found. A malformed one is no error, but its offset is kept.
pub fn read_tables(alloc: Global, tables: &[DebugUnit]) -> Result<ReadTables, NoMemory>
    ensures { IfOk result (AreTables tables.now) }
{
    let mut read = ReadTables {
        ranges: Vec::new(alloc),
        bad: None,
    };
    for table in tables {
        add_table(alloc, &mut read, table)?;
    }
    Ok(read)
}
