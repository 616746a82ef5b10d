// The locations of a file's entries, and the faults of the sections that they are read from.
ghost use Rattle.std.specs.Prelude.{◌≡◌, []};
ghost use Rattle.table_core.specs.DebugUnits.{walked};
ghost use Rattle.dw_lists.specs.Faults.{ListSections, location_places};
ghost use Rattle.list_units.specs.PlaceReading.{IsProgress};

use crate::located_attr::Locations;
use crate::place_reading::PlaceProgress;
use cover_lists::groups::Groups;
use dw_lists::indexed_unit::IndexedUnit;
use dw_lists::list_section::bad_table;
use dw_lists::named_list::NamedList;
use dw_unit::address_table;
use dw_unit::address_table::other_version;
use dw_unit::fault_places::FaultPlaces;
use dw_unit::lowest::lower;
use std::alloc::Global;
use table_core::DebugUnit;

/// The locations of a file's entries: the attributes with expressions, the lists to which these refer, and the groups
/// of ranges.
#[derive(Drop)]
pub struct PlacedEntries {
    pub groups: Groups,
    pub kept: Locations,
    /// The attributes that refer to location lists, in the order of their entries, DW_AT_location before
    /// DW_AT_frame_base.
    pub named: Vec<NamedList>,
    /// The list indexes that units use, unit by unit.
    pub indexed: Vec<IndexedUnit>,
}

/// The result before the first unit.
pub(crate) fn nothing(alloc: Global) -> PlaceProgress
    ensures { (s : ListSections) → IsProgress s [] result }
{
    PlaceProgress {
        groups: Groups {
            covers: Vec::new(alloc),
            count: 0,
            firsts: Vec::new(alloc),
        },
        kept: Locations {
            lists: Vec::new(alloc),
            located: Vec::new(alloc),
        },
        named: Vec::new(alloc),
        bad_form: None,
        bad_high: None,
        unformed: None,
        bad: None,
        bad_ranges: None,
        bad_locations: None,
        indexed: Vec::new(alloc),
    }
}

/// The place to report for each fault: units come first, then address tables, then lists, ranges before locations.
pub(crate) fn fault_places(
    progress: &PlaceProgress,
    units: &[DebugUnit<'_>],
    address_tables: &[DebugUnit<'_>],
    ranges: &[DebugUnit<'_>],
    locations: &[DebugUnit<'_>],
) -> FaultPlaces
    ensures { (s : ListSections) → units.now ≡ walked 5 s.units.info → address_tables.now ≡ walked 5 s.units.addr →
        ranges.now ≡ walked 5 s.ranges → locations.now ≡ walked 5 s.locations →
        IsProgress s (walked 5 s.units.info) progress.now →
        record { version = result.version; form = result.form; high = result.high; bad = result.bad }
        ≡ location_places s }
{
    let unit = other_version(units);
    let address = other_version(address_tables);
    let range = other_version(ranges);
    let location = other_version(locations);
    let of_units = unit.or(address);
    let of_lists = range.or(location);
    let version = of_units.or(of_lists);
    let form = lower(progress.bad_form, progress.unformed);
    let broken = address_table::bad_table(address_tables);
    let range_table = bad_table(ranges);
    let location_table = bad_table(locations);
    let bad_ranges = lower(range_table, progress.bad_ranges);
    let bad_locations = lower(location_table, progress.bad_locations);
    let lists = bad_ranges.or(bad_locations);
    let later = broken.or(lists);
    let bad = progress.bad.or(later);
    FaultPlaces {
        version,
        form,
        high: progress.bad_high,
        bad,
    }
}
