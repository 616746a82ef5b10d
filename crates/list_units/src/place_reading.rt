// The locations of all entries of a file.
ghost use Rattle.std.specs.Prelude.{◌≡◌, ◌||◌, ◌++◌, ◌∷◌, [], List, OnOk};
ghost use Rattle.std.specs.List.Sorted.{IsNonDecreasingBy};
ghost use Rattle.table_core.specs.DebugUnits.{Walked, walked};
ghost use Rattle.dw_unit.specs.UnitReadings.{IsReading};
ghost use Rattle.dw_lists.specs.Faults.{ListSections};
ghost use Rattle.cover_lists.specs.Groups.{AreNumbered};
ghost use Rattle.list_units.specs.PlaceReading.{IsProgress, IsUnitAdded};
ghost use Rattle.list_units.specs.UnitLocations.{AreHeld};

use crate::located_attr::Locations;
use crate::placing::{PlaceSections, UnitFaults, place_unit};
use cover_lists::groups::Groups;
use dw_lists::indexed_unit::{IndexedUnit, put_indexed};
use dw_lists::list_kind::ListKind;
use dw_lists::named_list::NamedList;
use dw_unit::Entry;
use dw_unit::lowest::lower;
use dw_unit::unit_reading::UnitReading;
use rb_bytes::fault::NoMemory;
use std::alloc::Global;

/// The result so far: the locations of some units, and their faults.
#[derive(Drop)]
pub struct PlaceProgress {
    pub groups: Groups,
    pub kept: Locations,
    /// The attributes that refer to location lists, in the order of their entries, DW_AT_location before
    /// DW_AT_frame_base.
    pub named: Vec<NamedList>,
    /// The lowest offset of a declaration with an unknown form.
    pub bad_form: Option<u64>,
    /// The lowest offset of a declaration with a high address that can't be changed in place.
    pub bad_high: Option<u64>,
    /// The lowest offset of a declaration with a value of an unknown form.
    pub unformed: Option<u64>,
    /// The offset of the first unit that can't be read, or that has a bad offset of a list.
    pub bad: Option<u64>,
    /// The lowest table with a range list that can't be read. It counts if no unit is bad.
    pub bad_ranges: Option<u64>,
    /// The lowest table with a location list that can't be read. It counts if no unit is bad.
    pub bad_locations: Option<u64>,
    /// The list indexes that units use, unit by unit.
    pub indexed: Vec<IndexedUnit>,
}

// Whether the offset of some list of a unit can't be read, or is past the section's end.
fn lacks_offset(faults: &UnitFaults) -> bool
    ensures { result ≡ (faults.now.ranges.lacks_offset || faults.now.locations.lacks_offset) }
{
    faults.ranges.lacks_offset || faults.locations.lacks_offset
}

// Adds the entries of a unit that can be read, with the faults of its lists.
fn add_entries(
    alloc: Global,
    sections: &PlaceSections<'_, '_>,
    progress: &mut PlaceProgress,
    place: u64,
    entries: &[Entry],
) -> Result<(), NoMemory>
    requires ranges_rise { IsNonDecreasingBy (λ w. w.place) sections.now.ranges.tables.now }
    requires ranges_walked { sections.now.ranges.tables.now ≡ walked 5 sections.now.ranges.bytes.now }
    requires rising { IsNonDecreasingBy (λ w. w.place) sections.now.locations.tables.now }
    requires walked { sections.now.locations.tables.now ≡ walked 5 sections.now.locations.bytes.now }
    ensures { OnOk result ((s : ListSections) → sections.now.info.now ≡ s.units.info →
        sections.now.addr.now ≡ s.units.addr →
        sections.now.ranges.bytes.now ≡ s.ranges → sections.now.locations.bytes.now ≡ s.locations →
        AreNumbered progress.old.groups → AreHeld progress.old.groups.count progress.old.kept →
        IsUnitAdded s entries.now place progress.old progress.new) }
{
    let faults = place_unit(
        alloc,
        sections,
        &mut progress.groups,
        &mut progress.kept,
        &mut progress.named,
        entries,
    )?;
    progress.bad_ranges = lower(progress.bad_ranges, faults.ranges.bad);
    progress.bad_locations = lower(progress.bad_locations, faults.locations.bad);
    put_indexed(&mut progress.indexed, ListKind::Locations, entries)?;
    progress.bad = if lacks_offset(&faults) {
        Some(place)
    } else {
        progress.bad
    };
    Ok(())
}

/// Adds the result for the next unit, at offset `place`. After a bad unit only the faults of declarations and forms are
/// added, since these come first.
pub fn add_reading(
    alloc: Global,
    sections: &PlaceSections<'_, '_>,
    progress: &mut PlaceProgress,
    place: u64,
    reading: &UnitReading,
) -> Result<(), NoMemory>
    requires ranges_rise { IsNonDecreasingBy (λ w. w.place) sections.now.ranges.tables.now }
    requires ranges_walked { sections.now.ranges.tables.now ≡ walked 5 sections.now.ranges.bytes.now }
    requires rising { IsNonDecreasingBy (λ w. w.place) sections.now.locations.tables.now }
    requires walked { sections.now.locations.tables.now ≡ walked 5 sections.now.locations.bytes.now }
    ensures { OnOk result ((s : ListSections) (ws : List Walked) (w : Walked) → w.place ≡ place →
        sections.now.info.now ≡ s.units.info → sections.now.addr.now ≡ s.units.addr →
        sections.now.ranges.bytes.now ≡ s.ranges → sections.now.locations.bytes.now ≡ s.locations →
        IsProgress s ws progress.old → IsReading s.units.abbrevs s.units.addr w reading.now →
        IsProgress s (ws ++ w ∷ []) progress.new) }
{
    progress.bad_form = lower(progress.bad_form, reading.bad_form);
    progress.bad_high = lower(progress.bad_high, reading.bad_high);
    progress.unformed = lower(progress.unformed, reading.unformed);
    if progress.bad.is_some() {
        return Ok(());
    }
    match &reading.entries {
        Some(entries) => {
            add_entries(alloc, sections, progress, place, entries)?;
            Ok(())
        }
        None => {
            progress.bad = Some(place);
            Ok(())
        }
    }
}
