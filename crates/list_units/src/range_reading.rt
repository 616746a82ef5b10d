// The ranges of all entries of a file.
ghost use Rattle.std.specs.Prelude.{◌≡◌, ◌++◌, ◌∷◌, [], ℕ, List, None, IfOk, OnOk, Ok};
ghost use Rattle.std.specs.List.Sorted.{IsNonDecreasingBy};
ghost use Rattle.table_core.specs.DebugUnits.{Walked, walked};
ghost use Rattle.dw_unit.specs.UnitReadings.{IsReading};
ghost use Rattle.dw_lists.specs.Faults.{ListSections};
ghost use Rattle.cover_lists.specs.Groups.{AreNumbered, AreWithin};
ghost use Rattle.list_units.specs.RangeReading.{IsProgress, IsUnitAdded};

use crate::gathering::add_unit;
use cover_lists::groups::{Groups, RangedEntry};
use dw_lists::indexed_unit::{IndexedUnit, put_indexed};
use dw_lists::list_kind::ListKind;
use dw_lists::list_section::ListSection;
use dw_unit::Entry;
use dw_unit::lowest::lower;
use dw_unit::unit_reading::UnitReading;
use rb_bytes::fault::NoMemory;
use std::alloc::Global;

/// The result so far: the ranges of some units, and their faults.
#[derive(Drop)]
pub struct Progress {
    pub groups: Groups,
    pub ranged: Vec<RangedEntry>,
    /// The lowest offset of a declaration with an unknown form.
    pub bad_form: Option<u64>,
    /// The lowest offset of a declaration with a high address that can't be changed in place.
    pub bad_high: Option<u64>,
    /// The lowest offset of a declaration with a value of an unknown form.
    pub unformed: Option<u64>,
    /// The offset of the first unit that can't be read, or that has a bad offset of a list.
    pub bad: Option<u64>,
    /// The lowest table with a list that can't be read. It counts if no unit is bad.
    pub bad_table: Option<u64>,
    /// The list indexes that units use, unit by unit.
    pub indexed: Vec<IndexedUnit>,
}

// Adds the entries of a unit that can be read, with the faults of its lists.
fn add_entries(
    alloc: Global,
    section: ListSection<'_, '_>,
    addr: &[u8],
    progress: &mut Progress,
    place: u64,
    entries: &[Entry],
) -> Result<(), NoMemory>
    requires rising { IsNonDecreasingBy (λ w. w.place) section.tables.now }
    requires walked { section.tables.now ≡ walked 5 section.bytes.now }
    ensures { OnOk result ((s : ListSections) → section.entry.bytes.now ≡ s.ranges → addr.now ≡ s.units.addr →
        AreNumbered progress.old.groups → AreWithin progress.old.groups.count progress.old.ranged.items →
        IsUnitAdded s entries.now place progress.old progress.new) }
{
    let faults = add_unit(
        alloc,
        section,
        addr,
        &mut progress.groups,
        &mut progress.ranged,
        entries,
    )?;
    progress.bad_table = lower(progress.bad_table, faults.bad);
    put_indexed(&mut progress.indexed, ListKind::Ranges, entries)?;
    if faults.lacks_offset {
        progress.bad = Some(place);
    }
    Ok(())
}

/// Adds the result for the next unit, at offset `place`. After a bad unit only the faults of declarations and forms are
/// added, since these come first.
pub fn add_reading(
    alloc: Global,
    section: ListSection<'_, '_>,
    addr: &[u8],
    progress: &mut Progress,
    place: u64,
    reading: &UnitReading,
) -> Result<(), NoMemory>
    requires rising { IsNonDecreasingBy (λ w. w.place) section.tables.now }
    requires walked { section.tables.now ≡ walked 5 section.bytes.now }
    ensures { OnOk result ((s : ListSections) (ws : List Walked) (w : Walked) → w.place ≡ place →
        section.entry.bytes.now ≡ s.ranges → addr.now ≡ s.units.addr → IsProgress s ws progress.old →
        IsReading s.units.abbrevs s.units.addr w reading.now →
        IsProgress s (ws ++ w ∷ []) progress.new) }
{
    progress.bad_form = lower(progress.bad_form, reading.bad_form);
    progress.bad_high = lower(progress.bad_high, reading.bad_high);
    progress.unformed = lower(progress.unformed, reading.unformed);
    if progress.bad.is_some() {
        return Ok(());
    }
    match &reading.entries {
        Some(entries) => {
            add_entries(alloc, section, addr, progress, place, entries)?;
            Ok(())
        }
        None => {
            progress.bad = Some(place);
            Ok(())
        }
    }
}
