// The ranges of a unit's entries. DWARF 5, section 2.17.
ghost use Rattle.std.specs.Prelude.{◌≡◌, ◌+◌, ◌++◌, ◌∷◌, [], List, ℕ, IfOk, OnOk, map, option_map, option_and_then};
ghost use Rattle.std.specs.List.Sorted.{IsNonDecreasingBy};
ghost use Rattle.std.specs.Ordering.{nat_cmp};
ghost use Rattle.std.specs.BTreeMap.{get};
ghost use Rattle.table_core.specs.DebugUnits.{walked};
ghost use Rattle.dw_unit.specs.declared.entry.Attr.{Attr};
ghost use Rattle.dw_unit.specs.CompUnits as units;
ghost use Rattle.dw_unit.specs.CompUnits.{Unit};
ghost use Rattle.dw_unit.specs.declared.attribute.TheConstants.{DW_AT_addr_base, DW_AT_high_pc};
ghost use Rattle.dw_lists.specs.Faults as faults;
ghost use Rattle.dw_lists.specs.Faults.{ListSections};
ghost use Rattle.cover_lists.specs.EntryAddresses.{first_start};
ghost use Rattle.cover_lists.specs.Groups.{AreNumbered, Grow, HasRanges, covers_in};
ghost use Rattle.cover_lists.specs.ListPlaces.{located_of};
ghost use Rattle.cover_lists.specs.Located.{ranges_in};
ghost use Rattle.dw_lists.specs.KnownLists.{AreKnown, IsGroupOf, IsLookedUp, range_list, IsNoted};
ghost use Rattle.dw_lists.specs.Lists as lists;
ghost use Rattle.dw_lists.specs.Lists.{ranges_kind, has_list};
ghost use Rattle.dw_lists.specs.Ranges.{ranges_of, up_to};
ghost use Rattle.dw_lists.specs.UnitLists.{ReadsLists};

use crate::addresses::Addresses;
use crate::list_kind::ListKind;
use crate::list_section::{ListSection, list_at, list_offset, table_place};
use crate::unit_lists::{UnitLists, low_pc};
use cover_lists::groups::{Groups, add_group};
use cover_lists::list_place::{Bounds, Place};
use dw_unit::attribute::{DW_AT_high_pc, DW_AT_ranges};
use dw_unit::lowest::lower;
use dw_unit::{Attr, attr_named};
use rb_bytes::fault::NoMemory;
use std::alloc::Global;
use std::collections::BTreeMap;
use table_core::form::{DW_FORM_addr, DW_FORM_rnglistx, DW_FORM_sec_offset};

/// The lists of a unit that were read, by their offsets: the number of each (of the group of its ranges, or of a
/// location list), or none if it can't be read.
pub type KnownLists = BTreeMap<u64, Option<usize>>;

/// The entry of `known` for the list at an offset: none if the list isn't known; none inside if it can't be read.
pub fn known_number(known: &KnownLists, at: u64) -> Option<Option<usize>>
    ensures { result ≡ get nat_cmp known.now at }
{
    known.get(&at).copied()
}

// Adds a group of the ranges of a list, and returns its number. Gives `NoMemory` also if more than `most` ranges would
// be kept in all.
fn keep_group(groups: &mut Groups, places: &[Place<'_>], most: usize) -> Result<usize, NoMemory>
    ensures number { IfOk result (λ n. n ≡ groups.old.count) }
    ensures count { OnOk result (groups.new.count ≡ groups.old.count + 1) }
    ensures covers { OnOk result (groups.new.covers.items
        ≡ groups.old.covers.items ++ covers_in groups.old.count (map located_of places.now)) }
    ensures firsts { OnOk result (groups.new.firsts.items
        ≡ groups.old.firsts.items ++ first_start (ranges_in (map located_of places.now)) ∷ []) }
{
    if groups.covers.len().saturating_add(places.len()) > most {
        return Err(NoMemory);
    }
    let group = add_group(groups, places)?;
    Ok(group)
}

// Reads the list at an offset, and adds a group of its ranges. Returns the group's number, or none if the list can't be
// read.
fn read_group(
    alloc: Global,
    section: ListSection<'_, '_>,
    unit: &UnitLists<'_>,
    groups: &mut Groups,
    at: u64,
) -> Result<Option<usize>, NoMemory>
    requires rising { IsNonDecreasingBy (λ w. w.place) section.tables.now }
    requires walked { section.tables.now ≡ walked 5 section.bytes.now }
    ensures { (s : ListSections) (u : Unit) → section.entry.bytes.now ≡ s.ranges →
        ReadsLists ranges_kind s.units.addr u unit.now →
        AreNumbered groups.old → IfOk result (λ o. Grow groups.old groups.new
        × IsGroupOf groups.new o (range_list s u at)) }
{
    match list_at(alloc, ListKind::Ranges, section, unit, at)? {
        Some(places) => {
            let group = keep_group(groups, &places, section.most)?;
            Ok(Some(group))
        }
        None => Ok(None),
    }
}

// The number of the group of the ranges of the list at an offset. The list is read unless it is known. None if it can't
// be read.
fn group_at(
    alloc: Global,
    section: ListSection<'_, '_>,
    unit: &UnitLists<'_>,
    known: &mut KnownLists,
    groups: &mut Groups,
    at: u64,
) -> Result<Option<usize>, NoMemory>
    requires rising { IsNonDecreasingBy (λ w. w.place) section.tables.now }
    requires walked { section.tables.now ≡ walked 5 section.bytes.now }
    ensures { (s : ListSections) (u : Unit) → section.entry.bytes.now ≡ s.ranges →
        ReadsLists ranges_kind s.units.addr u unit.now →
        AreNumbered groups.old → AreKnown (range_list s u) groups.old known.old →
        IfOk result (λ o. IsLookedUp (range_list s u) groups.old groups.new known.new at o) }
{
    if let Some(group) = known_number(known, at) {
        return Ok(group);
    }
    let group = read_group(alloc, section, unit, groups, at)?;
    known.insert(at, group)?;
    Ok(group)
}

// The range between the low and the high address of an entry, if it has both. A high address of another form than
// DW_FORM_addr is a distance from the low address. DWARF 5, section 2.17.2.
fn bounds(addresses: &Addresses, attrs: &[Attr]) -> Option<Bounds>
    ensures { (u : Unit) (e : units.Entry) → addresses.now.base ≡ units.base DW_AT_addr_base u → e.attrs ≡ attrs.now →
        option_map (λ b. record { low = b.low; high = b.high }) result
        ≡ option_and_then (λ high. option_map (λ low. up_to low high) (units.low_pc addresses.now.section.now u e))
        (units.attr DW_AT_high_pc e) }
{
    let high = attr_named(DW_AT_high_pc, attrs)?;
    let low = low_pc(addresses, attrs)?;
    let end = if high.form == DW_FORM_addr {
        high.value as u128
    } else {
        low as u128 + high.value as u128
    };
    Some(Bounds {
        low: low as u128,
        high: end,
    })
}

/// The number of the group of an entry's ranges, by its high address or its list; none if it has no ranges, or its list
/// can't be read.
pub fn own_group(
    alloc: Global,
    section: ListSection<'_, '_>,
    unit: &UnitLists<'_>,
    known: &mut KnownLists,
    groups: &mut Groups,
    attrs: &[Attr],
) -> Result<Option<usize>, NoMemory>
    requires rising { IsNonDecreasingBy (λ w. w.place) section.tables.now }
    requires walked { section.tables.now ≡ walked 5 section.bytes.now }
    ensures { (s : ListSections) (u : Unit) (e : units.Entry) → e.attrs ≡ attrs.now →
        section.entry.bytes.now ≡ s.ranges →
        ReadsLists ranges_kind s.units.addr u unit.now → AreNumbered groups.old →
        AreKnown (range_list s u) groups.old known.old →
        IfOk result (λ o. Grow groups.old groups.new × AreKnown (range_list s u) groups.new known.new
        × HasRanges groups.new o (ranges_of s u e)) }
{
    if let Some(bounds) = bounds(&unit.addresses, attrs) {
        let place = Place {
            bounds: Some(bounds),
            expression: &[],
        };
        let group = keep_group(groups, &[place], section.most)?;
        return Ok(Some(group));
    }
    let Some(named) = attr_named(DW_AT_ranges, attrs) else {
        return Ok(None);
    };
    match list_offset(ListKind::Ranges, section.bytes, unit.lists, *named) {
        Some(at) => group_at(alloc, section, unit, known, groups, at),
        None => Ok(None),
    }
}

fn has_list(attr: Attr) -> bool
    ensures { result ≡ has_list ranges_kind attr }
{
    attr.name == DW_AT_ranges && (attr.form == DW_FORM_sec_offset || attr.form == DW_FORM_rnglistx)
}

/// The faults of the lists to which a unit refers.
#[derive(Clone, Copy)]
pub struct ListFaults {
    /// Whether the offset of some list can't be read, or is past the section's end.
    pub lacks_offset: bool,
    /// The lowest place of a table with a list that can't be read.
    pub bad: Option<u64>,
}

// Adds the faults of the list to which an attribute refers, if it does so, to `others`.
fn note_list(
    alloc: Global,
    section: ListSection<'_, '_>,
    unit: &UnitLists<'_>,
    known: &mut KnownLists,
    groups: &mut Groups,
    attr: Attr,
    others: ListFaults,
) -> Result<ListFaults, NoMemory>
    requires rising { IsNonDecreasingBy (λ w. w.place) section.tables.now }
    requires walked { section.tables.now ≡ walked 5 section.bytes.now }
    ensures { (s : ListSections) (u : Unit) (attrs : List Attr) → section.entry.bytes.now ≡ s.ranges →
        ReadsLists ranges_kind s.units.addr u unit.now → AreNumbered groups.old →
        AreKnown (range_list s u) groups.old known.old →
        IsNoted s u attrs others →
        IfOk result (λ f. Grow groups.old groups.new × AreKnown (range_list s u) groups.new known.new
        × IsNoted s u (attrs ++ attr ∷ []) f) }
{
    if !has_list(attr) {
        return Ok(others);
    }
    let Some(at) = list_offset(ListKind::Ranges, section.bytes, unit.lists, attr) else {
        return Ok(ListFaults {
            lacks_offset: true,
            bad: others.bad,
        });
    };
    match group_at(alloc, section, unit, known, groups, at)? {
        Some(_) => Ok(others),
        None => Ok(ListFaults {
            lacks_offset: others.lacks_offset,
            bad: lower(
                others.bad,
                Some(table_place(section.bytes, section.tables, at)),
            ),
        }),
    }
}

/// Adds the faults of the range lists to which some attributes refer to `others`.
pub fn note_lists(
    alloc: Global,
    section: ListSection<'_, '_>,
    unit: &UnitLists<'_>,
    known: &mut KnownLists,
    groups: &mut Groups,
    attrs: &[Attr],
    others: ListFaults,
) -> Result<ListFaults, NoMemory>
    requires rising { IsNonDecreasingBy (λ w. w.place) section.tables.now }
    requires walked { section.tables.now ≡ walked 5 section.bytes.now }
    ensures { (s : ListSections) (u : Unit) (before : List Attr) → section.entry.bytes.now ≡ s.ranges →
        ReadsLists ranges_kind s.units.addr u unit.now → AreNumbered groups.old →
        AreKnown (range_list s u) groups.old known.old →
        IsNoted s u before others →
        IfOk result (λ f. Grow groups.old groups.new × AreKnown (range_list s u) groups.new known.new
        × IsNoted s u (before ++ attrs.now) f) }
{
    let mut faults = others;
    for attr in attrs {
        faults = note_list(alloc, section, unit, known, groups, *attr, faults)?;
    }
    Ok(faults)
}
