// The ranges of the entries of a unit.
ghost use Rattle.std.specs.Prelude.{◌≡◌, ◌++◌, ◌∷◌, [], ℕ, List, IfOk, OnOk, map, flat_map};
ghost use Rattle.std.specs.List.Sorted.{IsNonDecreasingBy};
ghost use Rattle.table_core.specs.DebugUnits.{walked};
ghost use Rattle.dw_unit.specs.declared.entry.Attr.{Attr};
ghost use Rattle.dw_unit.specs.CompUnits as units;
ghost use Rattle.dw_unit.specs.CompUnits.{Unit};
ghost use Rattle.dw_unit.specs.ListedUnits.{plain, plain_unit};
ghost use Rattle.dw_lists.specs.Faults.{ListSections};
ghost use Rattle.list_units.specs.Gathering.{IsGathering, IsUnitGathered, ranges_index};
ghost use Rattle.cover_lists.specs.Groups.{AreNumbered, AreWithin, Grow, entry_of};
ghost use Rattle.dw_lists.specs.KnownLists.{AreKnown, range_list, IsNoted};
ghost use Rattle.dw_lists.specs.Lists.{ranges_kind};
ghost use Rattle.dw_lists.specs.UnitLists.{ReadsLists};

use cover_lists::groups::{Groups, RangedEntry, first_in};
use dw_lists::list_kind::ListKind;
use dw_lists::list_section::ListSection;
use dw_lists::unit_lists::{UnitLists, named_entry, unit_lists};
use dw_lists::unit_ranges::{KnownLists, ListFaults, note_lists, own_group};
use dw_unit::attribute::DW_AT_ranges;
use dw_unit::{Attr, Entry, attr_named};
use rb_bytes::fault::NoMemory;
use std::alloc::Global;
use std::collections::BTreeMap;
use table_core::form::DW_FORM_rnglistx;

// The index of an entry's range list, if the entry refers to the list by an index.
fn ranges_index(attrs: &[Attr]) -> Option<u64>
    ensures { result ≡ ranges_index attrs.now }
{
    let named = attr_named(DW_AT_ranges, attrs)?;
    if named.form == DW_FORM_rnglistx {
        Some(named.value)
    } else {
        None
    }
}

fn put_ranged(
    ranged: &mut Vec<RangedEntry>,
    place: u64,
    own: u64,
    index: Option<u64>,
    entry: Option<u64>,
    first: Option<u64>,
    group: Option<usize>,
) -> Result<(), NoMemory>
    ensures { OnOk result (ranged.new.items ≡ ranged.old.items ++ entry_of place own index entry first group) }
{
    match group {
        Some(group) => {
            ranged.push(RangedEntry {
                place,
                group,
                own,
                index,
                entry,
                first,
            })?;
            Ok(())
        }
        None => Ok(()),
    }
}

// Adds the ranges of an entry, and adds the faults of its lists to `others`.
fn add_entry(
    alloc: Global,
    section: ListSection<'_, '_>,
    unit: &UnitLists<'_>,
    known: &mut KnownLists,
    groups: &mut Groups,
    ranged: &mut Vec<RangedEntry>,
    entry: &Entry,
    others: ListFaults,
) -> Result<ListFaults, NoMemory>
    requires rising { IsNonDecreasingBy (λ w. w.place) section.tables.now }
    requires walked { section.tables.now ≡ walked 5 section.bytes.now }
    ensures { (s : ListSections) (u : Unit) (before : List Attr) → section.entry.bytes.now ≡ s.ranges →
        ReadsLists ranges_kind s.units.addr u unit.now → AreNumbered groups.old →
        AreKnown (range_list s u) groups.old known.old →
        AreWithin groups.old.count ranged.old.items → IsNoted s u before others →
        IfOk result (λ f. IsGathering s u groups.old ranged.old.items groups.new ranged.new.items known.new (plain
        entry.now ∷ []) (before ++ entry.now.attrs) f) }
{
    if ranged.len() > section.most {
        return Err(NoMemory);
    }
    let faults = note_lists(alloc, section, unit, known, groups, &entry.attrs, others)?;
    let group = own_group(alloc, section, unit, known, groups, &entry.attrs)?;
    let index = ranges_index(&entry.attrs);
    let named = named_entry(&unit.addresses, &entry.attrs);
    let first = first_in(groups, group);
    put_ranged(ranged, entry.place, unit.own, index, named, first, group)?;
    Ok(faults)
}

/// Adds the ranges of the entries of a unit: groups of ranges, and the entries with these. Returns the faults of the
/// unit's lists.
pub fn add_unit(
    alloc: Global,
    section: ListSection<'_, '_>,
    addr: &[u8],
    groups: &mut Groups,
    ranged: &mut Vec<RangedEntry>,
    entries: &[Entry],
) -> Result<ListFaults, NoMemory>
    requires rising { IsNonDecreasingBy (λ w. w.place) section.tables.now }
    requires walked { section.tables.now ≡ walked 5 section.bytes.now }
    ensures { (s : ListSections) → section.entry.bytes.now ≡ s.ranges → addr.now ≡ s.units.addr →
        AreNumbered groups.old →
        AreWithin groups.old.count ranged.old.items →
        IfOk result (λ f. IsUnitGathered s (plain_unit entries.now) groups.old ranged.old.items groups.new
        ranged.new.items f) }
{
    let unit = unit_lists(addr, ListKind::Ranges, entries);
    let mut known = BTreeMap::new(alloc);
    let mut faults = ListFaults {
        lacks_offset: false,
        bad: None,
    };
    for entry in entries {
        faults = add_entry(
            alloc, section, &unit, &mut known, groups, ranged, entry, faults,
        )?;
    }
    Ok(faults)
}
