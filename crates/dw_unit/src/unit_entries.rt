// Units at the first of their entries.
ghost use Rattle.std.specs.Prelude.{◌≡◌, ◌≤◌, ◌<◌, ◌^◌, IfOk, IsOk, Ok, length, option_map};
ghost use Rattle.dw_unit.specs.CompUnits.{Unit, end_of, header_of, own_entry, unit_of};
ghost use Rattle.dw_unit.specs.Declarations.{table_at};
ghost use Rattle.dw_unit.specs.EntryChanges.{own_places};
ghost use Rattle.dw_unit.specs.MapKeys.{HasOffset};
ghost use Rattle.dw_unit.specs.TablesAt.{told_at};

use crate::header::header;
use crate::own_entry::OwnEntry;
use crate::table_place::TableAt;
use crate::tables::Tables;
use crate::trouble::Stop;
use crate::walk::next_entry;
use rb_bytes::cursor::Cursor;
use rb_bytes::fault::NoMemory;
use std::alloc::Global;
use table_core::DebugUnit;

/// A unit after its header.
#[derive(Drop)]
pub struct UnitEntries<'a, 't> {
    /// The bytes of its entries.
    pub cursor: Cursor<'a>,
    /// Its offset in `.debug_info`.
    pub place: u64,
    /// The offset of its end.
    pub end: u64,
    /// The abbreviation offset.
    pub abbrev_offset: u64,
    /// Its abbreviations.
    pub table: TableAt<'t>,
}

/// A unit after its header. Its table of abbreviations is in `tables`.
pub fn unit_entries<'a, 't>(tables: &'t Tables<'_>, unit: &DebugUnit<'a>) -> UnitEntries<'a, 't>
    requires header { IsOk (header_of unit.now) }
    requires named { HasOffset tables.now.starts unit.now }
    requires within { end_of unit.now < 2 ^ 64 }
    ensures header { header_of unit.now ≡ Ok (result.abbrev_offset, result.cursor.left) }
    ensures table { table_at tables.now.section.now result.abbrev_offset ≡ told_at result.table }
    ensures place { result.place ≡ unit.now.place }
    ensures end { result.end ≡ end_of unit.now }
    ensures within { length result.cursor.left ≤ result.end }
{
    let Some(bytes) = unit.bytes else {
        unreachable!();
    };
    let end = unit.place + 4 + bytes.len() as u64;
    let mut cursor = Cursor::new(bytes);
    let Ok(abbrev_offset) = header(&mut cursor) else {
        unreachable!();
    };
    let table = tables.find(abbrev_offset);
    UnitEntries {
        cursor,
        place: unit.place,
        end,
        abbrev_offset,
        table: table.at,
    }
}

/// The own entry of a unit that can be read; none if the unit has no entries.
pub fn own_entry(
    alloc: Global,
    tables: &Tables<'_>,
    unit: &DebugUnit<'_>,
) -> Result<Option<OwnEntry>, NoMemory>
    requires read { (u : Unit) × (unit_of tables.now.section.now unit.now ≡ Ok u) }
    requires named { HasOffset tables.now.starts unit.now }
    requires within { end_of unit.now < 2 ^ 64 }
    ensures { IfOk result (λ o. (u : Unit) → unit_of tables.now.section.now unit.now ≡ Ok u →
        o ≡ option_map own_places (own_entry u)) }
{
    let entries = unit_entries(tables, unit);
    let UnitEntries {
        mut cursor,
        place,
        end,
        abbrev_offset: _,
        table,
    } = entries;
    let mut attrs = Vec::new(alloc);
    let mut depth = 0;
    match next_entry(&mut cursor, place, end, &mut depth, table, &mut attrs) {
        Ok(Some(head)) => Ok(Some(OwnEntry {
            place: head.place,
            declaration: head.declaration.place,
        })),
        Ok(None) => Ok(None),
        Err(Stop::Memory) => Err(NoMemory),
        Err(Stop::Trouble(_)) => unreachable!(),
    }
}
