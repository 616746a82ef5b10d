// The ranges and the locations of a file's entries, read in one walk of its units, or the first fault.
ghost use Rattle.std.specs.Prelude.{◌≡◌, ◌++◌, ◌∷◌, [], List, IfOk, IfErr, OnOk};
ghost use Rattle.std.specs.List.Sorted.{IsNonDecreasingBy};
ghost use Rattle.rb_bytes.specs.FirstFault.{IsRefusalBy};
ghost use Rattle.table_core.specs.DebugUnits.{Walked, walked};
ghost use Rattle.dw_unit.specs.Faults.{HasDwarfFault};
ghost use Rattle.dw_unit.specs.UnitReadings.{IsReading};
ghost use Rattle.dw_lists.specs.Faults.{ListSections, location_places, list_sections_held};
ghost use Rattle.list_units.specs.PlaceReading as places_read;
ghost use Rattle.list_units.specs.RangeReading as ranges_read;

use crate::place_entries::{PlacedEntries, fault_places};
use crate::place_reading::PlaceProgress;
use crate::placing::PlaceSections;
use crate::range_entries::RangedEntries;
use crate::range_reading::Progress;
use crate::{place_entries, place_reading, range_entries, range_reading};
use dw_lists::list_section::ListSection;
use dw_unit::UnitReader;
use dw_unit::fault_places::refused;
use dw_unit::unit_reading::UnitReading;
use rb_bytes::fault::{NoMemory, Refusal};
use std::alloc::Global;
use table_core::{DWARF_VERSION, debug_units, place_of};

/// The entries with ranges, and the locations of all entries.
#[derive(Drop)]
pub struct BothEntries {
    pub ranges: RangedEntries,
    pub places: PlacedEntries,
}

// Adds the result for the next unit, at offset `place`, to both.
fn add_both(
    alloc: Global,
    sections: &PlaceSections<'_, '_>,
    ranged: &mut Progress,
    placed: &mut PlaceProgress,
    place: u64,
    reading: &UnitReading,
) -> Result<(), NoMemory>
    requires ranges_rise { IsNonDecreasingBy (λ w. w.place) sections.now.ranges.tables.now }
    requires ranges_walked { sections.now.ranges.tables.now ≡ walked 5 sections.now.ranges.bytes.now }
    requires rising { IsNonDecreasingBy (λ w. w.place) sections.now.locations.tables.now }
    requires walked { sections.now.locations.tables.now ≡ walked 5 sections.now.locations.bytes.now }
    ensures { OnOk result ((s : ListSections) (ws : List Walked) (w : Walked) → w.place ≡ place →
        sections.now.info.now ≡ s.units.info → sections.now.addr.now ≡ s.units.addr →
        sections.now.ranges.bytes.now ≡ s.ranges → sections.now.locations.bytes.now ≡ s.locations →
        ranges_read.IsProgress s ws ranged.old → places_read.IsProgress s ws placed.old →
        IsReading s.units.abbrevs s.units.addr w reading.now →
        ranges_read.IsProgress s (ws ++ w ∷ []) ranged.new × places_read.IsProgress s (ws ++ w ∷ []) placed.new) }
{
    range_reading::add_reading(
        alloc,
        sections.ranges,
        sections.addr,
        ranged,
        place,
        reading,
    )?;
    place_reading::add_reading(alloc, sections, placed, place, reading)?;
    Ok(())
}

fn read_all(
    alloc: Global,
    reader: &UnitReader<'_, '_>,
    sections: &PlaceSections<'_, '_>,
) -> Result<(Progress, PlaceProgress), NoMemory>
    requires ranges_rise { IsNonDecreasingBy (λ w. w.place) sections.now.ranges.tables.now }
    requires ranges_walked { sections.now.ranges.tables.now ≡ walked 5 sections.now.ranges.bytes.now }
    requires rising { IsNonDecreasingBy (λ w. w.place) sections.now.locations.tables.now }
    requires walked { sections.now.locations.tables.now ≡ walked 5 sections.now.locations.bytes.now }
    ensures { (s : ListSections) → sections.now.info.now ≡ s.units.info → sections.now.addr.now ≡ s.units.addr →
        sections.now.ranges.bytes.now ≡ s.ranges → sections.now.locations.bytes.now ≡ s.locations →
        reader.now ≡ record { units = walked 5 s.units.info; abbrevs = s.units.abbrevs; addr = s.units.addr } →
        IfOk result (λ p. ranges_read.IsProgress s (walked 5 s.units.info) p.0
        × places_read.IsProgress s (walked 5 s.units.info) p.1) }
{
    let units = reader.units();
    let mut ranged = range_entries::nothing(alloc);
    let mut placed = place_entries::nothing(alloc);
    for number in 0..units.len() {
        let reading = reader.read(alloc, number)?;
        let place = place_of(units, number);
        add_both(alloc, sections, &mut ranged, &mut placed, place, &reading)?;
    }
    Ok((ranged, placed))
}

/// The ranges and locations of all entries, or the first fault of the sections that they are read from. Gives
/// `NoMemory` also if more than `most` would be kept (`most_kept` of `dw_lists`).
pub fn read_both(
    alloc: Global,
    info: &[u8],
    abbrevs: &[u8],
    addr: &[u8],
    ranges: &[u8],
    locations: &[u8],
    most: usize,
) -> Result<BothEntries, Refusal>
    ensures ranges { IfOk result (λ r.
        ranges_read.AreRangesOf (list_sections_held info.now abbrevs.now addr.now ranges.now locations.now)
        r.ranges.groups r.ranges.ranged.items r.ranges.indexed.items) }
    ensures places { IfOk result (λ r.
        places_read.ArePlacesOf (list_sections_held info.now abbrevs.now addr.now ranges.now locations.now)
        r.places.groups r.places.kept r.places.named.items r.places.indexed.items) }
    ensures fault { IfErr result (λ e. IsRefusalBy
        (HasDwarfFault (location_places
        (list_sections_held info.now abbrevs.now addr.now ranges.now locations.now))) e) }
{
    let address_tables = debug_units(alloc, DWARF_VERSION, addr)?;
    let range_tables = debug_units(alloc, DWARF_VERSION, ranges)?;
    let location_tables = debug_units(alloc, DWARF_VERSION, locations)?;
    let reader = UnitReader::new(alloc, info, abbrevs, addr)?;
    let sections = PlaceSections {
        info,
        addr,
        ranges: ListSection {
            bytes: ranges,
            tables: &range_tables,
            most,
        },
        locations: ListSection {
            bytes: locations,
            tables: &location_tables,
            most,
        },
    };
    let (ranged, placed) = read_all(alloc, &reader, &sections)?;
    let places = fault_places(
        &placed,
        reader.units(),
        &address_tables,
        &range_tables,
        &location_tables,
    );
    refused(places)?;
    Ok(BothEntries {
        ranges: RangedEntries {
            groups: ranged.groups,
            ranged: ranged.ranged,
            indexed: ranged.indexed,
        },
        places: PlacedEntries {
            groups: placed.groups,
            kept: placed.kept,
            named: placed.named,
            indexed: placed.indexed,
        },
    })
}
