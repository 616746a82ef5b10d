// Sections of lists, and the lists at their offsets. DWARF 5, sections 7.28 and 7.29.
ghost use Rattle.std.specs.Prelude.{◌≡◌, ◌+◌, ◌-◌, length, slice_get, ℕ, List, IfOk, nat_le, map, filter, option_map};
ghost use Rattle.std.specs.Prelude.{take, drop, not, false};
ghost use Rattle.std.specs.Option.{option_map_or};
ghost use Rattle.answer_runs.specs.Choices.{least};
ghost use Rattle.std.specs.List.Sorted.{IsNonDecreasingBy};
ghost use Rattle.table_core.specs.DebugUnits.{walked};
ghost use Rattle.dw_unit.specs.CompUnits.{Unit, base};
ghost use Rattle.dw_lists.specs.Faults as faults;
ghost use Rattle.dw_lists.specs.Lists as spec;
ghost use Rattle.dw_lists.specs.Lists.{Kind, table_below, end_of_table};
ghost use Rattle.dw_lists.specs.ListReading.{kind_of};
ghost use Rattle.cover_lists.specs.ListPlaces.{located_of};
ghost use Rattle.dw_lists.specs.UnitLists.{ReadsLists};

use crate::list_kind::ListKind;
use crate::list_reading::read_list;
use crate::unit_lists::UnitLists;
use byteorder::{ByteOrder, LittleEndian};
use cover_lists::list_place::Place;
use dw_unit::Attr;
use dw_unit::lowest::lower;
use file_bounds::{BYTES_AN_ITEM, KEPT_ITEMS};
use rb_bytes::fault::NoMemory;
use std::alloc::Global;
use table_core::DebugUnit;
use table_core::form::{DW_FORM_loclistx, DW_FORM_rnglistx};

/// A section of lists, and its tables.
#[derive(Clone, Copy)]
pub struct ListSection<'a, 't> {
    pub bytes: &'a [u8],
    pub tables: &'t [DebugUnit<'a>],
    /// The limit of what is kept of the file's lists (`most_kept`).
    pub most: usize,
}

/// The limit of ranges that are kept of a file with `file_size` bytes. The same limit holds for each of entries with
/// ranges, entries of location lists, and attributes with a location. An entry of a few bytes takes up to a KiB of
/// memory until it is written, and lists may overlap, so few bytes could refer to any number of entries.
pub fn most_kept(file_size: usize) -> usize {
    (file_size / BYTES_AN_ITEM).saturating_add(KEPT_ITEMS)
}

// Whether a table begins at or below an offset.
fn starts_by(at: u64, table: &DebugUnit<'_>) -> bool
    ensures { result ≡ nat_le table.now.place at }
{
    table.place <= at
}

fn table_of<'a, 't>(tables: &'t [DebugUnit<'a>], number: usize) -> Option<&'t DebugUnit<'a>>
    ensures { option_map (λ w. w.now) result ≡ slice_get tables.now number }
{
    tables.get(number)
}

// The last table that begins at or below an offset.
fn table_below<'a, 't>(tables: &'t [DebugUnit<'a>], at: u64) -> Option<&'t DebugUnit<'a>>
    requires { IsNonDecreasingBy (λ w. w.place) tables.now }
    ensures { option_map (λ w. w.now) result ≡ table_below at tables.now }
{
    let started = tables.partition_point(|table| starts_by(at, table));
    if started == 0 {
        return None;
    }
    table_of(tables, started - 1)
}

// The offset of the end of `bytes`, which follow a length of four bytes at `place`.
fn end_at(place: u64, bytes: &[u8]) -> u128
    ensures { result ≡ place + 4 + length bytes.now }
{
    place as u128 + 4 + bytes.len() as u128
}

// The offset of a table's end, if it is whole.
fn end_of_table(table: &DebugUnit<'_>) -> Option<u128>
    ensures { result ≡ end_of_table table.now }
{
    let bytes = table.bytes?;
    Some(end_at(table.place, bytes))
}

// The offset at which a list at `at` has to end: the end of its table, or of the section if the table isn't whole.
fn list_end<'a>(section: &'a [u8], tables: &[DebugUnit<'a>], at: u64) -> u128
    requires rising { IsNonDecreasingBy (λ w. w.place) tables.now }
    requires walked { tables.now ≡ walked 5 section.now }
    ensures { result ≡ spec.list_end section.now at }
{
    let end = table_below(tables, at).and_then(|table| end_of_table(table));
    end.unwrap_or(section.len() as u128)
}

/// The bytes of a section from offset `at` up to `end`, as far as the section has them.
pub fn bytes_between(section: &[u8], at: u64, end: u128) -> &[u8]
    ensures { result.now ≡ take (end - at) (drop at section.now) }
{
    let (_, behind) = section.split_at((section.len() as u64).min(at) as usize);
    let most = behind.len() as u128;
    let count = end.saturating_sub(at as u128);
    let (bytes, _) = behind.split_at(if count < most {
        count as usize
    } else {
        behind.len()
    });
    bytes
}

// The offset of the list with an index: the table of offsets is at `begin`, the base of the unit, and the offsets count
// from there. DWARF 5, sections 7.28 and 7.29.
fn offset_of_index(section: &[u8], begin: Option<u64>, index: u64) -> Option<u64>
    ensures { (k : Kind) (u : Unit) → begin ≡ base k.base_name u → result ≡ spec.offset_of_index k section.now u index }
{
    let begin = begin?;
    let place = begin as u128 + 4 * index as u128;
    if place + 4 > section.len() as u128 {
        return None;
    }
    Some(begin + LittleEndian::read_u32(&section[place as usize..]) as u64)
}

/// The form of attributes that refer to lists by an index.
pub fn index_form(kind: ListKind) -> u64
    ensures { result ≡ (kind_of kind).index_form }
{
    match kind {
        ListKind::Ranges => DW_FORM_rnglistx,
        ListKind::Locations => DW_FORM_loclistx,
    }
}

/// The offset of the list to which an attribute refers, directly or by an index, if it can be read and is in the
/// section. `lists` is the base of the unit's list offsets.
pub fn list_offset(kind: ListKind, section: &[u8], lists: Option<u64>, attr: Attr) -> Option<u64>
    ensures { (u : Unit) → lists ≡ base (kind_of kind).base_name u →
        result ≡ spec.list_offset (kind_of kind) section.now u attr }
{
    let offset = if attr.form == index_form(kind) {
        offset_of_index(section, lists, attr.value)
    } else {
        Some(attr.value)
    };
    let at = offset?;
    if at < section.len() as u64 {
        Some(at)
    } else {
        None
    }
}

/// The contents of the list at offset `at`, as a unit reads it; none if it can't be read (`read_list`, which has
/// limits).
pub fn list_at<'a>(
    alloc: Global,
    kind: ListKind,
    section: ListSection<'a, '_>,
    unit: &UnitLists,
    at: u64,
) -> Result<Option<Vec<Place<'a>>>, NoMemory>
    requires rising { IsNonDecreasingBy (λ w. w.place) section.tables.now }
    requires walked { section.tables.now ≡ walked 5 section.bytes.now }
    ensures { (addr : List ℕ) (u : Unit) → ReadsLists (kind_of kind) addr u unit.now →
        IfOk result (λ r. option_map (λ v. map located_of v.items) r
        ≡ spec.list_at (kind_of kind) section.entry.bytes.now addr u at) }
{
    let end = list_end(section.bytes, section.tables, at);
    let bytes = bytes_between(section.bytes, at, end);
    read_list(alloc, kind, bytes, unit.base, &unit.addresses)
}

/// The place to report for a fault in the list at an offset: its table, or 0 if it is in none.
pub fn table_place(section: &[u8], tables: &[DebugUnit<'_>], at: u64) -> u64
    requires rising { IsNonDecreasingBy (λ w. w.place) tables.now }
    requires walked { tables.now ≡ walked 5 section.now }
    ensures { result ≡ faults.table_place section.now at }
{
    match table_below(tables, at) {
        Some(table) => table.place,
        None => 0,
    }
}

// Whether a table has a header with an address size of 8 and a segment selector size of 0, and the number of offsets,
// of four bytes each, that the header has.
fn is_list_table(bytes: &[u8]) -> bool
    ensures { result ≡ faults.is_list_table bytes.now }
{
    if bytes.len() < 8 {
        return false;
    }
    let (_, sizes) = bytes.split_at(2);
    let (_, count) = bytes.split_at(4);
    LittleEndian::read_u16(sizes) == 8
        && 4 * LittleEndian::read_u32(count) as u64 <= (bytes.len() - 8) as u64
}

fn is_bad(table: &DebugUnit<'_>) -> bool
    ensures { result ≡ not (option_map_or faults.is_list_table table.now.bytes false) }
{
    match table.bytes {
        Some(bytes) => !is_list_table(bytes),
        None => true,
    }
}

/// The lowest offset of a malformed table. Versions and lists aren't tested.
pub fn bad_table(tables: &[DebugUnit<'_>]) -> Option<u64>
    ensures { result ≡ least (map (λ w. w.place) (filter (λ w. not (option_map_or faults.is_list_table w.bytes false))
        tables.now)) }
{
    let mut bad = None;
    for table in tables {
        if is_bad(table) {
            bad = lower(bad, Some(table.place));
        }
    }
    bad
}
