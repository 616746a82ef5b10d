// Reading units and their faults.
ghost use Rattle.std.specs.Prelude.{◌≡◌, ◌≤◌, ◌<◌, ◌^◌, ◌++◌, ◌∷◌, [], ℕ, List, None, All, IfOk, Err, length};
ghost use Rattle.answer_runs.specs.Choices.{least};
ghost use Rattle.table_core.specs.DebugUnits.{Walked};
ghost use Rattle.dw_unit.specs.Faults.{unformed};
ghost use Rattle.dw_unit.specs.UnitReadings.{AreReadings, IsBehind, IsReading};
ghost use Rattle.dw_unit.specs.CompUnits.{end_of, size_of, unit_by};
ghost use Rattle.dw_unit.specs.MapKeys.{HasOffset, HasOffsets};
ghost use Rattle.dw_unit.specs.TablesAt.{told_at};

use crate::entry::Entry;
use crate::header::header;
use crate::lowest::lower;
use crate::soundness::is_sound_unit;
use crate::tables::{FoundTable, Tables};
use crate::trouble::{Stop, Trouble};
use crate::unit::unit_entries;
use crate::unit_reading::{Readings, UnitReading};
use rb_bytes::cursor::Cursor;
use rb_bytes::fault::NoMemory;
use std::alloc::Global;
use table_core::DebugUnit;

// The offset of the declaration whose value has an unknown form, if that is the trouble.
fn no_form(trouble: Trouble) -> Option<u64>
    ensures { result ≡ least (unformed (Err trouble)) }
{
    match trouble {
        Trouble::NoForm(place) => Some(place),
        Trouble::Unsound => None,
    }
}

// The result for a unit that can't be read, without faults of its declarations.
fn unread(trouble: Trouble) -> UnitReading
    ensures { result ≡ record {
      bad_form = None;
      bad_high = None;
      unformed = least (unformed (Err trouble));
      entries = None;
    } }
{
    UnitReading {
        bad_form: None,
        bad_high: None,
        unformed: no_form(trouble),
        entries: None,
    }
}

// Reads a unit after its header, with its table of abbreviations.
fn read_behind<'a>(
    alloc: Global,
    addr: &[u8],
    cursor: &mut Cursor<'a>,
    place: u64,
    end: u64,
    table: FoundTable<'_>,
) -> Result<UnitReading, NoMemory>
    requires within { length cursor.old.left ≤ end }
    requires short { length cursor.old.left < 2 ^ 32 }
    ensures form { IfOk result (λ r. r.bad_form ≡ table.entry.bad_form) }
    ensures high { IfOk result (λ r. r.bad_high ≡ table.entry.bad_high) }
    ensures behind { IfOk result (λ r. (offset : ℕ) →
        IsBehind addr.now (unit_by place end offset (told_at table.entry.at) cursor.old.left) r) }
{
    let mut reading = unread(Trouble::Unsound);
    reading.bad_form = table.bad_form;
    reading.bad_high = table.bad_high;
    match unit_entries(alloc, cursor, place, end, table.at) {
        Ok(entries) => {
            if is_sound_unit(addr, &entries) {
                return Ok(UnitReading {
                    bad_form: table.bad_form,
                    bad_high: table.bad_high,
                    unformed: None,
                    entries: Some(entries),
                });
            }
            Ok(reading)
        }
        Err(Stop::Trouble(trouble)) => {
            reading.unformed = no_form(trouble);
            Ok(reading)
        }
        Err(Stop::Memory) => Err(NoMemory),
    }
}

/// Reads a unit whose table of abbreviations is in `tables`. A unit that can't be read is no error, but has no entries.
pub fn read_unit(
    alloc: Global,
    tables: &Tables<'_>,
    addr: &[u8],
    unit: &DebugUnit<'_>,
) -> Result<UnitReading, NoMemory>
    requires named { HasOffset tables.now.starts unit.now }
    requires within { end_of unit.now < 2 ^ 64 }
    requires short { size_of unit.now < 2 ^ 32 }
    ensures { IfOk result (IsReading tables.now.section.now addr.now unit.now) }
{
    let Some(bytes) = unit.bytes else {
        return Ok(unread(Trouble::Unsound));
    };
    let end = unit.place + 4 + bytes.len() as u64;
    let mut cursor = Cursor::new(bytes);
    match header(&mut cursor) {
        Ok(offset) => {
            let table = tables.find(offset);
            read_behind(alloc, addr, &mut cursor, unit.place, end, table)
        }
        Err(trouble) => Ok(unread(trouble)),
    }
}

fn appended(entries: Vec<Entry>, more: Vec<Entry>) -> Result<Vec<Entry>, NoMemory>
    ensures { IfOk result (λ es. es.items ≡ entries.items ++ more.items) }
{
    let mut all = entries;
    let mut added = more;
    all.append(&mut added)?;
    Ok(all)
}

// Adds the result for the next unit, which is at offset `place`. After a unit that can't be read no entries are added.
fn joined(so_far: Readings, place: u64, reading: UnitReading) -> Result<Readings, NoMemory>
    ensures { IfOk result (λ r. (abbrevs addr : List ℕ) (ws : List Walked) (w : Walked) → w.place ≡ place →
        AreReadings abbrevs addr ws so_far → IsReading abbrevs addr w reading →
        AreReadings abbrevs addr (ws ++ w ∷ []) r) }
{
    let bad_form = lower(so_far.bad_form, reading.bad_form);
    let bad_high = lower(so_far.bad_high, reading.bad_high);
    let unformed = lower(so_far.unformed, reading.unformed);
    let entries = so_far.entries;
    if let Some(bad) = so_far.bad {
        return Ok(Readings {
            bad_form,
            bad_high,
            unformed,
            bad: Some(bad),
            entries,
        });
    }
    match reading.entries {
        Some(more) => {
            let all = appended(entries, more)?;
            Ok(Readings {
                bad_form,
                bad_high,
                unformed,
                bad: None,
                entries: all,
            })
        }
        None => Ok(Readings {
            bad_form,
            bad_high,
            unformed,
            bad: Some(place),
            entries,
        }),
    }
}

/// Reads all units, in order.
pub fn read_units(
    alloc: Global,
    tables: &Tables<'_>,
    addr: &[u8],
    units: &[DebugUnit<'_>],
) -> Result<Readings, NoMemory>
    requires named { HasOffsets tables.now.starts units.now }
    requires within { All (λ w. end_of w < 2 ^ 64) units.now }
    requires short { All (λ w. size_of w < 2 ^ 32) units.now }
    ensures { IfOk result (AreReadings tables.now.section.now addr.now units.now) }
{
    let mut readings = Readings {
        bad_form: None,
        bad_high: None,
        unformed: None,
        bad: None,
        entries: Vec::new(alloc),
    };
    for unit in units {
        let reading = read_unit(alloc, tables, addr, unit)?;
        readings = joined(readings, unit.place, reading)?;
    }
    Ok(readings)
}
