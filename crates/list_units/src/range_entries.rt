// The entries of a file with ranges, or the first fault of the sections that they are read from.
ghost use Rattle.std.specs.Prelude.{◌≡◌, [], ℕ, List, IfOk, IfErr};
ghost use Rattle.std.specs.List.Sorted.{IsNonDecreasingBy};
ghost use Rattle.rb_bytes.specs.FirstFault.{IsRefusalBy};
ghost use Rattle.table_core.specs.DebugUnits.{walked};
ghost use Rattle.dw_unit.specs.Faults.{HasDwarfFault};
ghost use Rattle.dw_lists.specs.Faults.{ListSections, range_places, list_sections_held};
ghost use Rattle.list_units.specs.RangeReading.{IsProgress, AreRangesOf};

use crate::range_reading::{Progress, add_reading};
use cover_lists::groups::{Groups, RangedEntry};
use dw_lists::indexed_unit::IndexedUnit;
use dw_lists::list_section::{ListSection, bad_table};
use dw_unit::address_table::other_version;
use dw_unit::fault_places::{FaultPlaces, refused};
use dw_unit::lowest::lower;
use dw_unit::{UnitReader, address_table};
use rb_bytes::fault::{NoMemory, Refusal};
use std::alloc::Global;
use table_core::{DWARF_VERSION, DebugUnit, debug_units, place_of};

/// The entries of a file with ranges.
#[derive(Drop)]
pub struct RangedEntries {
    /// The groups of ranges.
    pub groups: Groups,
    /// The entries in order, each with its group.
    pub ranged: Vec<RangedEntry>,
    /// The list indexes that units use, unit by unit.
    pub indexed: Vec<IndexedUnit>,
}

/// The result before the first unit.
pub(crate) fn nothing(alloc: Global) -> Progress
    ensures { (s : ListSections) → IsProgress s [] result }
{
    Progress {
        groups: Groups {
            covers: Vec::new(alloc),
            count: 0,
            firsts: Vec::new(alloc),
        },
        ranged: Vec::new(alloc),
        bad_form: None,
        bad_high: None,
        unformed: None,
        bad: None,
        bad_table: None,
        indexed: Vec::new(alloc),
    }
}

fn read_all(
    alloc: Global,
    reader: &UnitReader<'_, '_>,
    section: ListSection<'_, '_>,
    addr: &[u8],
) -> Result<Progress, NoMemory>
    requires rising { IsNonDecreasingBy (λ w. w.place) section.tables.now }
    requires walked { section.tables.now ≡ walked 5 section.bytes.now }
    ensures { (s : ListSections) → section.entry.bytes.now ≡ s.ranges → addr.now ≡ s.units.addr →
        reader.now ≡ record { units = walked 5 s.units.info; abbrevs = s.units.abbrevs; addr = s.units.addr } →
        IfOk result (IsProgress s (walked 5 s.units.info)) }
{
    let units = reader.units();
    let mut progress = nothing(alloc);
    for number in 0..units.len() {
        let reading = reader.read(alloc, number)?;
        let place = place_of(units, number);
        add_reading(alloc, section, addr, &mut progress, place, &reading)?;
    }
    Ok(progress)
}

// The place to report for each fault: units come first, then address tables, then lists.
fn fault_places(
    progress: &Progress,
    units: &[DebugUnit<'_>],
    address_tables: &[DebugUnit<'_>],
    tables: &[DebugUnit<'_>],
) -> FaultPlaces
    ensures { (s : ListSections) → units.now ≡ walked 5 s.units.info → address_tables.now ≡ walked 5 s.units.addr →
        tables.now ≡ walked 5 s.ranges → IsProgress s (walked 5 s.units.info) progress.now →
        record { version = result.version; form = result.form; high = result.high; bad = result.bad } ≡ range_places s }
{
    let unit = other_version(units);
    let address = other_version(address_tables);
    let list = other_version(tables);
    let of_units = unit.or(address);
    let version = of_units.or(list);
    let form = lower(progress.bad_form, progress.unformed);
    let broken = address_table::bad_table(address_tables);
    let of_table = bad_table(tables);
    let lists = lower(of_table, progress.bad_table);
    let later = broken.or(lists);
    let bad = progress.bad.or(later);
    FaultPlaces {
        version,
        form,
        high: progress.bad_high,
        bad,
    }
}

/// The entries with ranges, or the first fault of the sections that they are read from. Gives `NoMemory` also if more
/// than `most` would be kept (`most_kept` of `dw_lists`).
pub fn read_ranges(
    alloc: Global,
    info: &[u8],
    abbrevs: &[u8],
    addr: &[u8],
    ranges: &[u8],
    most: usize,
) -> Result<RangedEntries, Refusal>
    ensures read { IfOk result (λ r. (locations : List ℕ) →
        AreRangesOf (list_sections_held info.now abbrevs.now addr.now ranges.now locations) r.groups r.ranged.items
        r.indexed.items) }
    ensures fault { IfErr result (λ e. (locations : List ℕ) →
        IsRefusalBy
        (HasDwarfFault (range_places (list_sections_held info.now abbrevs.now addr.now ranges.now locations))) e) }
{
    let address_tables = debug_units(alloc, DWARF_VERSION, addr)?;
    let tables = debug_units(alloc, DWARF_VERSION, ranges)?;
    let reader = UnitReader::new(alloc, info, abbrevs, addr)?;
    let section = ListSection {
        bytes: ranges,
        tables: &tables,
        most,
    };
    let progress = read_all(alloc, &reader, section, addr)?;
    let places = fault_places(&progress, reader.units(), &address_tables, &tables);
    refused(places)?;
    Ok(RangedEntries {
        groups: progress.groups,
        ranged: progress.ranged,
        indexed: progress.indexed,
    })
}
