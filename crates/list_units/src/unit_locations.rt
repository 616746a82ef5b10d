// The locations of the attributes of a unit's entries. DWARF 5, sections 2.6 and 7.29.
ghost use Rattle.std.specs.Prelude.{◌≡◌, ◌++◌, ◌∷◌, [], ℕ, List, IfOk, OnOk, true, option_and_then};
ghost use Rattle.std.specs.List.Sorted.{IsNonDecreasingBy};
ghost use Rattle.table_core.specs.DebugUnits.{walked};
ghost use Rattle.dw_unit.specs.declared.entry.Attr.{Attr};
ghost use Rattle.dw_unit.specs.CompUnits as units;
ghost use Rattle.dw_unit.specs.CompUnits.{Unit, attr};
ghost use Rattle.dw_unit.specs.Faults.{is_located};
ghost use Rattle.dw_unit.specs.ListedUnits.{plain};
ghost use Rattle.cover_lists.specs.declared.kept_list.KeptList as list;
ghost use Rattle.dw_lists.specs.Faults.{ListSections};
ghost use Rattle.cover_lists.specs.KeptLists.{AreMore, AreNumbersOf, IsNumberOf, all_say};
ghost use Rattle.dw_lists.specs.KnownLists.{location_list, AreNoted};
ghost use Rattle.dw_lists.specs.Lists as lists;
ghost use Rattle.dw_lists.specs.Lists.{locations_kind};
ghost use Rattle.list_units.specs.ReadLists.{read_at, offsets_in, AreListed, IsOffsetAmong, is_formed, are_formed};
ghost use Rattle.list_units.specs.Listing.{HasMore, attr_items, entry_items, list_found, list_named};
ghost use Rattle.list_units.specs.UnitLocations as spec;
ghost use Rattle.list_units.specs.UnitLocations.{ReadsLocations, AreRead, IsSourceOf, IsNamedSource, AreLocated};
ghost use Rattle.list_units.specs.UnitLocations.{attr_said, entry_said, number_in};

use crate::listing::{index_of, number_of, put_name};
use crate::located_attr::{LocatedAttr, Locations, Source};
use cover_lists::kept_list::KeptList;
use cover_lists::kept_lists::keep_list;
use dw_lists::expression_block::expression_in;
use dw_lists::list_kind::ListKind;
use dw_lists::list_section::{ListSection, list_at, list_offset, table_place};
use dw_lists::named_list::NamedList;
use dw_lists::unit_lists::UnitLists;
use dw_lists::unit_ranges::{KnownLists, ListFaults, known_number};
use dw_unit::attribute::{DW_AT_frame_base, DW_AT_location};
use dw_unit::lowest::lower;
use dw_unit::{Attr, Entry, attr_named};
use rb_bytes::fault::NoMemory;
use std::alloc::Global;
use table_core::form::{DW_FORM_loclistx, DW_FORM_sec_offset};
use table_core::shape::is_block;

/// What a unit needs to read its locations.
#[derive(Clone, Copy)]
pub struct UnitLocations<'a, 't> {
    /// `.debug_info`, which has expressions.
    pub info: &'a [u8],
    /// `.debug_loclists`.
    pub section: ListSection<'a, 't>,
    /// How the unit reads its lists.
    pub lists: UnitLists<'a>,
}

// The size of all lists that are kept, which is a field of the last one.
fn kept_size(lists: &[KeptList]) -> usize {
    match lists.last() {
        Some(list) => list.size,
        None => 0,
    }
}

// Reads the list at offset `at`, keeps it, and returns its number; none if it can't be read. Gives `NoMemory` also if
// too much would be kept.
fn read_number(
    alloc: Global,
    unit: &UnitLocations<'_, '_>,
    lists: &mut Vec<KeptList>,
    at: u64,
) -> Result<Option<usize>, NoMemory>
    requires rising { IsNonDecreasingBy (λ w. w.place) unit.now.section.tables.now }
    requires walked { unit.now.section.tables.now ≡ walked 5 unit.now.section.bytes.now }
    ensures read { (s : ListSections) (u : Unit) → ReadsLocations s u unit.now →
        IfOk result (λ o. AreMore lists.old.items lists.new.items
        × IsNumberOf lists.new.items o (location_list s u at)) }
    ensures says { (s : ListSections) (u : Unit) → ReadsLocations s u unit.now →
        OnOk result (all_say lists.new.items ≡ all_say lists.old.items ++ read_at s u (at ∷ [])) }
{
    match list_at(alloc, ListKind::Locations, unit.section, &unit.lists, at)? {
        Some(places) => {
            let before = kept_size(lists);
            if before.saturating_add(places.len()) > unit.section.most {
                return Err(NoMemory);
            }
            let list = keep_list(alloc, &places, before)?;
            let number = lists.len();
            lists.push(list)?;
            Ok(Some(number))
        }
        None => Ok(None),
    }
}

/// The number of the list at offset `at`. The list is read and kept unless it is known. None if it can't be read.
pub fn number_at(
    alloc: Global,
    unit: &UnitLocations<'_, '_>,
    known: &mut KnownLists,
    lists: &mut Vec<KeptList>,
    at: u64,
) -> Result<Option<usize>, NoMemory>
    requires rising { IsNonDecreasingBy (λ w. w.place) unit.now.section.tables.now }
    requires walked { unit.now.section.tables.now ≡ walked 5 unit.now.section.bytes.now }
    ensures read { (s : ListSections) (u : Unit) → ReadsLocations s u unit.now →
        AreNumbersOf (location_list s u) lists.old.items known.old →
        IfOk result (λ o. AreRead s u lists.old.items lists.new.items known.new
        × IsNumberOf lists.new.items o (location_list s u at)) }
    ensures listed { (s : ListSections) (u : Unit) (offsets : List ℕ) (first : List list.KeptList) →
        ReadsLocations s u unit.now →
        AreListed s u offsets first lists.old.items known.old →
        OnOk result (AreListed s u (offsets ++ at ∷ []) first lists.new.items known.new) }
{
    if let Some(number) = known_number(known, at) {
        return Ok(number);
    }
    let number = read_number(alloc, unit, lists, at)?;
    known.insert(at, number)?;
    Ok(number)
}

/// Whether an attribute refers to a location list.
pub fn has_list(attr: Attr) -> bool
    ensures { result ≡ lists.has_list locations_kind attr }
{
    (attr.name == DW_AT_location || attr.name == DW_AT_frame_base)
        && (attr.form == DW_FORM_sec_offset || attr.form == DW_FORM_loclistx)
}

// Adds the faults of the location list to which an attribute refers, if it does so, to `others`.
fn note_list(
    alloc: Global,
    unit: &UnitLocations<'_, '_>,
    known: &mut KnownLists,
    lists: &mut Vec<KeptList>,
    attr: Attr,
    others: ListFaults,
) -> Result<ListFaults, NoMemory>
    requires rising { IsNonDecreasingBy (λ w. w.place) unit.now.section.tables.now }
    requires walked { unit.now.section.tables.now ≡ walked 5 unit.now.section.bytes.now }
    ensures read { (s : ListSections) (u : Unit) (attrs : List Attr) → ReadsLocations s u unit.now →
        AreNumbersOf (location_list s u) lists.old.items known.old →
        AreNoted locations_kind s.locations s.units.addr u attrs others →
        IfOk result (λ f. AreRead s u lists.old.items lists.new.items known.new
        × AreNoted locations_kind s.locations s.units.addr u (attrs ++ attr ∷ []) f) }
    ensures listed { (s : ListSections) (u : Unit) (attrs : List Attr) (first : List list.KeptList) →
        ReadsLocations s u unit.now →
        AreListed s u (offsets_in s u attrs) first lists.old.items known.old →
        OnOk result (AreListed s u (offsets_in s u (attrs ++ attr ∷ [])) first lists.new.items known.new) }
{
    if !has_list(attr) {
        return Ok(others);
    }
    let section = unit.section;
    let Some(at) = list_offset(ListKind::Locations, section.bytes, unit.lists.lists, attr) else {
        return Ok(ListFaults {
            lacks_offset: true,
            bad: others.bad,
        });
    };
    match number_at(alloc, unit, known, lists, at)? {
        Some(_) => Ok(others),
        None => Ok(ListFaults {
            lacks_offset: others.lacks_offset,
            bad: lower(
                others.bad,
                Some(table_place(section.bytes, section.tables, at)),
            ),
        }),
    }
}

// Adds the faults of the location lists to which some attributes refer to `others`.
fn note_lists(
    alloc: Global,
    unit: &UnitLocations<'_, '_>,
    known: &mut KnownLists,
    lists: &mut Vec<KeptList>,
    attrs: &[Attr],
    others: ListFaults,
) -> Result<ListFaults, NoMemory>
    requires rising { IsNonDecreasingBy (λ w. w.place) unit.now.section.tables.now }
    requires walked { unit.now.section.tables.now ≡ walked 5 unit.now.section.bytes.now }
    ensures read { (s : ListSections) (u : Unit) (before : List Attr) → ReadsLocations s u unit.now →
        AreNumbersOf (location_list s u) lists.old.items known.old →
        AreNoted locations_kind s.locations s.units.addr u before others →
        IfOk result (λ f. AreRead s u lists.old.items lists.new.items known.new
        × AreNoted locations_kind s.locations s.units.addr u (before ++ attrs.now) f) }
    ensures listed { (s : ListSections) (u : Unit) (before : List Attr) (first : List list.KeptList) →
        ReadsLocations s u unit.now →
        AreListed s u (offsets_in s u before) first lists.old.items known.old →
        OnOk result (AreListed s u (offsets_in s u (before ++ attrs.now)) first lists.new.items known.new) }
{
    let mut faults = others;
    for attr in attrs {
        faults = note_list(alloc, unit, known, lists, *attr, faults)?;
    }
    Ok(faults)
}

// The source of an attribute's expressions: the attribute, or a list. None if the list can't be read.
fn source_of(
    alloc: Global,
    unit: &UnitLocations<'_, '_>,
    known: &mut KnownLists,
    lists: &mut Vec<KeptList>,
    attr: Attr,
) -> Result<Option<Source>, NoMemory>
    requires rising { IsNonDecreasingBy (λ w. w.place) unit.now.section.tables.now }
    requires walked { unit.now.section.tables.now ≡ walked 5 unit.now.section.bytes.now }
    ensures read { (s : ListSections) (u : Unit) → ReadsLocations s u unit.now →
        AreNumbersOf (location_list s u) lists.old.items known.old →
        IfOk result (λ o. AreRead s u lists.old.items lists.new.items known.new
        × IsSourceOf s u lists.new.items attr o) }
    ensures number { (s : ListSections) (u : Unit) → ReadsLocations s u unit.now → is_located attr.name ≡ true →
        is_formed attr ≡ true → AreNumbersOf (location_list s u) lists.old.items known.old →
        IfOk result (λ o. IsNumberOf lists.new.items (option_and_then number_in o) (list_named s u attr)) }
    ensures listed { (s : ListSections) (u : Unit) (offsets : List ℕ) (first : List list.KeptList) →
        ReadsLocations s u unit.now → IsOffsetAmong s u offsets attr →
        AreListed s u offsets first lists.old.items known.old →
        OnOk result (AreListed s u offsets first lists.new.items known.new) }
{
    if is_block(attr.form) {
        let expression = Vec::from_slice(alloc, expression_in(unit.info, attr))?;
        return Ok(Some(Source::Direct(expression)));
    }
    let section = unit.section;
    let Some(at) = list_offset(ListKind::Locations, section.bytes, unit.lists.lists, attr) else {
        return Ok(None);
    };
    match number_at(alloc, unit, known, lists, at)? {
        Some(number) => Ok(Some(Source::Listed(number))),
        None => Ok(None),
    }
}

// The source of the expressions of the attribute `name`, if it is present.
fn named_source(
    alloc: Global,
    unit: &UnitLocations<'_, '_>,
    known: &mut KnownLists,
    lists: &mut Vec<KeptList>,
    attrs: &[Attr],
    name: u64,
) -> Result<Option<Source>, NoMemory>
    requires rising { IsNonDecreasingBy (λ w. w.place) unit.now.section.tables.now }
    requires walked { unit.now.section.tables.now ≡ walked 5 unit.now.section.bytes.now }
    ensures read { (s : ListSections) (u : Unit) (e : units.Entry) → e.attrs ≡ attrs.now → ReadsLocations s u unit.now →
        AreNumbersOf (location_list s u) lists.old.items known.old →
        IfOk result (λ o. AreRead s u lists.old.items lists.new.items known.new
        × IsNamedSource s u lists.new.items (attr name e) o) }
    ensures number { (s : ListSections) (u : Unit) (e : units.Entry) → e.attrs ≡ attrs.now →
        ReadsLocations s u unit.now →
        is_located name ≡ true → are_formed attrs.now ≡ true →
        AreNumbersOf (location_list s u) lists.old.items known.old →
        IfOk result (λ o. IsNumberOf lists.new.items (option_and_then number_in o) (list_found s u name e)) }
    ensures listed { (s : ListSections) (u : Unit) (before : List Attr) (first : List list.KeptList) →
        ReadsLocations s u unit.now → is_located name ≡ true → are_formed attrs.now ≡ true →
        AreListed s u (offsets_in s u (before ++ attrs.now)) first lists.old.items known.old →
        OnOk result (AreListed s u (offsets_in s u (before ++ attrs.now)) first lists.new.items known.new) }
{
    match attr_named(name, attrs) {
        Some(attr) => {
            let source = source_of(alloc, unit, known, lists, *attr)?;
            Ok(source)
        }
        None => Ok(None),
    }
}

fn put_located(
    located: &mut Vec<LocatedAttr>,
    place: u64,
    attr: u64,
    nearest: Option<usize>,
    source: Option<Source>,
) -> Result<(), NoMemory>
    ensures { OnOk result (located.new.items ≡ located.old.items ++ spec.located_of place attr nearest source) }
{
    let Some(group) = nearest else {
        return Ok(());
    };
    let Some(source) = source else {
        return Ok(());
    };
    located.push(LocatedAttr {
        place,
        attr,
        group,
        source,
    })?;
    Ok(())
}

// Adds the attribute `name` of an entry, if present, to the attributes with expressions, if the entry has nearest
// ranges; and to those that refer to lists, if it does so.
fn locate(
    alloc: Global,
    unit: &UnitLocations<'_, '_>,
    known: &mut KnownLists,
    kept: &mut Locations,
    named: &mut Vec<NamedList>,
    entry: &Entry,
    name: u64,
    nearest: Option<usize>,
) -> Result<(), NoMemory>
    requires rising { IsNonDecreasingBy (λ w. w.place) unit.now.section.tables.now }
    requires walked { unit.now.section.tables.now ≡ walked 5 unit.now.section.bytes.now }
    ensures read { (s : ListSections) (u : Unit) → ReadsLocations s u unit.now →
        AreNumbersOf (location_list s u) kept.old.lists.items known.old →
        OnOk result (AreLocated s u nearest kept.old kept.new known.new (λ covers p. attr_said s u covers nearest (plain
        entry.now) name p)) }
    ensures listed { (s : ListSections) (u : Unit) (before : List Attr) (first : List list.KeptList) →
        ReadsLocations s u unit.now → is_located name ≡ true → are_formed entry.now.attrs ≡ true →
        AreListed s u (offsets_in s u (before ++ entry.now.attrs)) first kept.old.lists.items known.old →
        OnOk result (AreListed s u (offsets_in s u (before ++ entry.now.attrs)) first kept.new.lists.items known.new) }
    ensures names { (s : ListSections) (u : Unit) → ReadsLocations s u unit.now → is_located name ≡ true →
        are_formed entry.now.attrs ≡ true → AreNumbersOf (location_list s u) kept.old.lists.items known.old →
        OnOk result (HasMore kept.old.lists.items kept.new.lists.items named.old.items named.new.items
        (attr_items s u entry.now.place name (attr name (plain entry.now)))) }
{
    let most = unit.section.most;
    if kept.located.len() > most || named.len() > most {
        return Err(NoMemory);
    }
    let source = named_source(alloc, unit, known, &mut kept.lists, &entry.attrs, name)?;
    let index = index_of(&entry.attrs, name);
    let number = number_of(&source);
    put_name(named, entry.place, name, unit.lists.own, index, number)?;
    put_located(&mut kept.located, entry.place, name, nearest, source)?;
    Ok(())
}

/// Adds the location attributes of an entry, with the group of its nearest ranges, and adds those that refer to lists
/// to `named`. Adds the faults of these lists to `others`.
pub fn locate_entry(
    alloc: Global,
    unit: &UnitLocations<'_, '_>,
    known: &mut KnownLists,
    kept: &mut Locations,
    named: &mut Vec<NamedList>,
    entry: &Entry,
    nearest: Option<usize>,
    others: ListFaults,
) -> Result<ListFaults, NoMemory>
    requires rising { IsNonDecreasingBy (λ w. w.place) unit.now.section.tables.now }
    requires walked { unit.now.section.tables.now ≡ walked 5 unit.now.section.bytes.now }
    ensures read { (s : ListSections) (u : Unit) (before : List Attr) → ReadsLocations s u unit.now →
        AreNumbersOf (location_list s u) kept.old.lists.items known.old →
        AreNoted locations_kind s.locations s.units.addr u before others →
        IfOk result (λ f. AreLocated s u nearest kept.old kept.new known.new (λ covers p. entry_said s u covers nearest
        (plain entry.now) p)
        × AreNoted locations_kind s.locations s.units.addr u (before ++ entry.now.attrs) f) }
    ensures listed { (s : ListSections) (u : Unit) (before : List Attr) (first : List list.KeptList) →
        ReadsLocations s u unit.now → are_formed entry.now.attrs ≡ true →
        AreListed s u (offsets_in s u before) first kept.old.lists.items known.old →
        OnOk result (AreListed s u (offsets_in s u (before ++ entry.now.attrs)) first kept.new.lists.items known.new) }
    ensures names { (s : ListSections) (u : Unit) (before : List Attr) → ReadsLocations s u unit.now →
        are_formed entry.now.attrs ≡ true → AreNumbersOf (location_list s u) kept.old.lists.items known.old →
        AreNoted locations_kind s.locations s.units.addr u before others →
        OnOk result (HasMore kept.old.lists.items kept.new.lists.items named.old.items named.new.items
        (entry_items s u (plain entry.now))) }
{
    let faults = note_lists(alloc, unit, known, &mut kept.lists, &entry.attrs, others)?;
    locate(
        alloc,
        unit,
        known,
        kept,
        named,
        entry,
        DW_AT_location,
        nearest,
    )?;
    locate(
        alloc,
        unit,
        known,
        kept,
        named,
        entry,
        DW_AT_frame_base,
        nearest,
    )?;
    Ok(faults)
}
