// Ranges and locations of the entries of a unit.
ghost use Rattle.std.specs.Prelude.{◌≡◌, ◌++◌, ◌∷◌, [], List, IfOk};
ghost use Rattle.std.specs.BTreeMap.{IsEmpty};
ghost use Rattle.std.specs.List.Sorted.{IsNonDecreasingBy};
ghost use Rattle.table_core.specs.DebugUnits.{walked};
ghost use Rattle.dw_unit.specs.declared.entry.Attr as attr;
ghost use Rattle.dw_unit.specs.CompUnits as units;
ghost use Rattle.dw_unit.specs.CompUnits.{Unit};
ghost use Rattle.dw_unit.specs.ListedUnits.{plain, plain_unit};
ghost use Rattle.cover_lists.specs.declared.groups.Groups as group;
ghost use Rattle.list_units.specs.declared.located_attr.Locations as located;
ghost use Rattle.dw_lists.specs.declared.named_list.NamedList as name;
ghost use Rattle.dw_lists.specs.Faults.{ListSections};
ghost use Rattle.cover_lists.specs.Groups.{AreNumbered};
ghost use Rattle.list_units.specs.Placing.{ReadsUnit, ArePlaced, IsUnitPlaced};
ghost use Rattle.list_units.specs.UnitLocations.{AreHeld};

use crate::located_attr::Locations;
use crate::open_entries::{OpenEntry, enter};
use crate::unit_locations::{UnitLocations, locate_entry};
use cover_lists::groups::Groups;
use dw_lists::list_kind::ListKind;
use dw_lists::list_section::ListSection;
use dw_lists::named_list::NamedList;
use dw_lists::unit_lists::{UnitLists, unit_lists};
use dw_lists::unit_ranges::{KnownLists, ListFaults, note_lists, own_group};
use dw_unit::Entry;
use rb_bytes::fault::NoMemory;
use std::alloc::Global;
use std::collections::BTreeMap;

/// The sections that ranges and locations are read from.
#[derive(Clone, Copy)]
pub struct PlaceSections<'a, 't> {
    /// `.debug_info`, which has expressions.
    pub info: &'a [u8],
    /// `.debug_addr`.
    pub addr: &'a [u8],
    pub ranges: ListSection<'a, 't>,
    pub locations: ListSection<'a, 't>,
}

/// What a unit needs to read its ranges and locations.
#[derive(Clone, Copy)]
pub struct UnitContext<'a, 't> {
    ranges: ListSection<'a, 't>,
    lists: UnitLists<'a>,
    locations: UnitLocations<'a, 't>,
}

/// The state while the entries of a unit are read, one after another.
#[derive(Drop)]
pub struct UnitState {
    /// The range lists that were read.
    ranges: KnownLists,
    /// The location lists that were read.
    locations: KnownLists,
    /// The entries that the next one may be nested in.
    entries: Vec<OpenEntry>,
}

/// The faults of a unit's lists.
#[derive(Clone, Copy)]
pub struct UnitFaults {
    pub ranges: ListFaults,
    pub locations: ListFaults,
}

// Adds the ranges and locations of an entry, and adds the faults of its lists to `others`.
fn place_entry(
    alloc: Global,
    context: &UnitContext<'_, '_>,
    state: &mut UnitState,
    groups: &mut Groups,
    kept: &mut Locations,
    named: &mut Vec<NamedList>,
    entry: &Entry,
    others: UnitFaults,
) -> Result<UnitFaults, NoMemory>
    requires ranges_rise { IsNonDecreasingBy (λ w. w.place) context.now.ranges.tables.now }
    requires ranges_walked { context.now.ranges.tables.now ≡ walked 5 context.now.ranges.bytes.now }
    requires rising { IsNonDecreasingBy (λ w. w.place) context.now.locations.section.tables.now }
    requires walked { context.now.locations.section.tables.now ≡ walked 5 context.now.locations.section.bytes.now }
    ensures { (s : ListSections) (u : Unit) (first : group.Groups) (old : located.Locations)
        (names : List name.NamedList)
        (done rest : List units.Entry) (attrs : List attr.Attr) →
        ReadsUnit s u context.now →
        ArePlaced s u first old names groups.old kept.old named.old.items state.old done
        (plain entry.now ∷ rest) attrs others →
        IfOk result (ArePlaced s u first old names groups.new kept.new named.new.items state.new
        (plain entry.now ∷ done) rest
        (attrs ++ entry.now.attrs)) }
{
    let known = &mut state.ranges;
    let attrs = &entry.attrs;
    let ranges = note_lists(
        alloc,
        context.ranges,
        &context.lists,
        known,
        groups,
        attrs,
        others.ranges,
    )?;
    let own = own_group(alloc, context.ranges, &context.lists, known, groups, attrs)?;
    let nearest = enter(&mut state.entries, entry.depth, own)?;
    let locations = locate_entry(
        alloc,
        &context.locations,
        &mut state.locations,
        kept,
        named,
        entry,
        nearest,
        others.locations,
    )?;
    Ok(UnitFaults { ranges, locations })
}

fn nothing_known(alloc: Global) -> UnitState
    ensures ranges { IsEmpty result.ranges }
    ensures locations { IsEmpty result.locations }
    ensures entries { result.entries.items ≡ [] }
{
    UnitState {
        ranges: BTreeMap::new(alloc),
        locations: BTreeMap::new(alloc),
        entries: Vec::new(alloc),
    }
}

/// Adds the ranges and locations of the entries of a unit, and adds the attributes that refer to location lists to
/// `named`. Returns the faults of the unit's lists.
pub fn place_unit(
    alloc: Global,
    sections: &PlaceSections<'_, '_>,
    groups: &mut Groups,
    kept: &mut Locations,
    named: &mut Vec<NamedList>,
    entries: &[Entry],
) -> Result<UnitFaults, NoMemory>
    requires ranges_rise { IsNonDecreasingBy (λ w. w.place) sections.now.ranges.tables.now }
    requires ranges_walked { sections.now.ranges.tables.now ≡ walked 5 sections.now.ranges.bytes.now }
    requires rising { IsNonDecreasingBy (λ w. w.place) sections.now.locations.tables.now }
    requires walked { sections.now.locations.tables.now ≡ walked 5 sections.now.locations.bytes.now }
    ensures { (s : ListSections) → sections.now.info.now ≡ s.units.info → sections.now.addr.now ≡ s.units.addr →
        sections.now.ranges.bytes.now ≡ s.ranges → sections.now.locations.bytes.now ≡ s.locations →
        AreNumbered groups.old → AreHeld groups.old.count kept.old →
        IfOk result (IsUnitPlaced s (plain_unit entries.now) groups.old kept.old named.old.items groups.new kept.new
        named.new.items) }
{
    let context = UnitContext {
        ranges: sections.ranges,
        lists: unit_lists(sections.addr, ListKind::Ranges, entries),
        locations: UnitLocations {
            info: sections.info,
            section: sections.locations,
            lists: unit_lists(sections.addr, ListKind::Locations, entries),
        },
    };
    let mut state = nothing_known(alloc);
    let none = ListFaults {
        lacks_offset: false,
        bad: None,
    };
    let mut faults = UnitFaults {
        ranges: none,
        locations: none,
    };
    for entry in entries {
        faults = place_entry(
            alloc, &context, &mut state, groups, kept, named, entry, faults,
        )?;
    }
    Ok(faults)
}
