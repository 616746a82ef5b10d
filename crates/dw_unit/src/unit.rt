// The entries of a unit. DWARF 5, sections 7.5.1 to 7.5.3.
ghost use Rattle.std.specs.Prelude.{◌≡◌, ◌≤◌, ◌<◌, ◌^◌, ℕ, IfOk, Ok, Err, length};
ghost use Rattle.dw_unit.specs.Walking.{entries_at, unit_bounds};
ghost use Rattle.dw_unit.specs.TablesAt.{told_at};
ghost use Rattle.dw_unit.specs.ListedUnits.{listed_result, listed_unit};
ghost use Rattle.dw_unit.specs.CompUnits.{unit_by};
ghost use Rattle.dw_unit.specs.Stops.{IfTrouble};

use crate::entry::{Attr, Entry};
use crate::table_place::TableAt;
use crate::trouble::{Stop, Trouble};
use crate::walk::next_entry;
use file_bounds::{ENTRY_BYTES, ENTRY_RATIO};
use rb_bytes::cursor::Cursor;
use std::alloc::Global;

// The memory of an entry, and of each of its attributes, in bytes, or a few more.
const ENTRY_SIZE: usize = 56;

const ATTR_SIZE: usize = 48;

// The memory of an entry with its attributes, in bytes.
fn size_with(attrs: &[Attr]) -> usize {
    attrs
        .len()
        .saturating_mul(ATTR_SIZE)
        .saturating_add(ENTRY_SIZE)
}

/// The entries in the bytes left of the unit at offset `unit`, which end at offset `end`. Gives `Stop::Memory` also if
/// they take much more memory than the unit has bytes.
pub fn read_entries<'a>(
    alloc: Global,
    cursor: &mut Cursor<'a>,
    unit: u64,
    end: u64,
    table: TableAt<'_>,
) -> Result<Vec<Entry>, Stop>
    requires within { length cursor.old.left ≤ end }
    requires short { length cursor.old.left < 2 ^ 32 }
    ensures read { IfOk result (λ es. listed_result (entries_at (unit_bounds unit end (told_at table.entry)) 0
        cursor.old.left) ≡ Ok es.items) }
    ensures trouble { IfTrouble result (λ e. entries_at (unit_bounds unit end (told_at table.entry)) 0 cursor.old.left ≡
        Err e) }
{
    let mut entries = Vec::new(alloc);
    let mut depth = 0;
    let mut room = cursor
        .left()
        .saturating_mul(ENTRY_RATIO)
        .saturating_add(ENTRY_BYTES);
    let mut attrs = Vec::new(alloc);
    'entries: loop {
        match next_entry(cursor, unit, end, &mut depth, table, &mut attrs)? {
            Some(head) => {
                let size = size_with(&attrs);
                if room < size {
                    return Err(Stop::Memory);
                }
                room -= size;
                entries.push(Entry {
                    place: head.place,
                    unit,
                    depth: head.depth as u32,
                    tag: head.declaration.tag,
                    attrs: Vec::from_slice(alloc, &attrs)?,
                })?;
            }
            None => return Ok(entries),
        }
    }
}

/// The entries of the unit at offset `unit` after its header. They end at offset `end`. The table must have a closing
/// zero.
pub fn unit_entries<'a>(
    alloc: Global,
    cursor: &mut Cursor<'a>,
    unit: u64,
    end: u64,
    table: TableAt<'_>,
) -> Result<Vec<Entry>, Stop>
    requires within { length cursor.old.left ≤ end }
    requires short { length cursor.old.left < 2 ^ 32 }
    ensures read { IfOk result (λ es. (offset : ℕ) →
        listed_unit (unit_by unit end offset (told_at table.entry) cursor.old.left) ≡ Ok es.items) }
    ensures trouble { IfTrouble result (λ e. (offset : ℕ) →
        unit_by unit end offset (told_at table.entry) cursor.old.left ≡ Err e) }
{
    if table.table.table.end.is_none() {
        return Err(Stop::Trouble(Trouble::Unsound));
    }
    let entries = read_entries(alloc, cursor, unit, end, table)?;
    Ok(entries)
}
