// Writing tables of lists. DWARF 5, sections 7.28 and 7.29.
ghost use Rattle.std.specs.Prelude.{◌≡◌, ◌++◌, [], ◌+◌, ◌*◌, ◌<◌, ◌≤◌, ◌^◌, ℕ, List, Contains, Some, IfOk, OnOk, ◌∷◌};
ghost use Rattle.std.specs.Prelude.{length, ◌-◌, ◌||◌, ◌==◌, unwrap_or, filter, is_some};
ghost use Rattle.std.specs.List.{list_any};
ghost use Rattle.std.specs.BTreeSet.{contains};
ghost use Rattle.std.specs.BTreeMap.{get};
ghost use Rattle.std.specs.Ordering.{nat_cmp};
ghost use Rattle.byteorder.specs.Endian.{little_bytes};
ghost use Rattle.table_core.specs.WrittenUnits.{units_bytes};
ghost use Rattle.dw_lists.specs.declared.indexed_unit.IndexedUnit as indexed;
ghost use Rattle.dw_lists.specs.declared.list_kind.ListKind as kinds;
ghost use Rattle.dw_lists.specs.declared.named_list.NamedList as code;
ghost use Rattle.list_writer.specs.WrittenTables as spec;
ghost use Rattle.list_writer.specs.WrittenTables.{bytes_in, base_name, AreInOrder, AreListed, IsListed, AreNames};
ghost use Rattle.list_writer.specs.WrittenTables.{IsEntryPut, ArePut, IsTablePut, IsGroupWritten, AreWritten, OwnsRise};
ghost use Rattle.list_writer.specs.WrittenTables.{AreApart, AreLeft, IsCountOf, IsLonger, IsOwned, UnitsRise};

use crate::list_writing::put_end;
use crate::table_groups::shared_len;
use dw_lists::indexed_unit::IndexedUnit;
use dw_lists::list_kind::ListKind;
use dw_lists::named_list::NamedList;
use dw_unit::attribute::{DW_AT_loclists_base, DW_AT_rnglists_base};
use rb_bytes::fault::NoMemory;
use rb_bytes::little::put_u32;
use std::alloc::Global;
use std::collections::{BTreeMap, BTreeSet};
use table_core::{ListAt, Written};

// The version of tables, and their sizes of addresses and of segment selectors.
const VERSION: u8 = 5;

const ADDRESS_SIZE: u8 = 8;

const SELECTOR_SIZE: u8 = 0;

// The number of bytes of a table's header after its length.
const HEADER_SIZE: u64 = 8;

// The number of bytes before a table's offsets: its length, and the header.
const FRONT_SIZE: u64 = 4 + HEADER_SIZE;

// The bytes of the list with a number.
fn list_in(lists: &[Vec<u8>], number: usize) -> &[u8]
    ensures { result.now ≡ bytes_in lists.now number }
{
    match lists.get(number) {
        Some(list) => list,
        None => &[],
    }
}

fn known_offset(known: &BTreeMap<usize, u64>, number: usize) -> Option<u64>
    ensures { result ≡ get nat_cmp known.now number }
{
    known.get(&number).copied()
}

// The offset of the list with a number in the body of a table. A list that isn't there yet is appended.
fn list_offset(
    body: &mut Vec<u8>,
    known: &mut BTreeMap<usize, u64>,
    lists: &[Vec<u8>],
    number: usize,
) -> Result<u64, NoMemory>
    requires { AreListed lists.now body.old.items known.old }
    ensures listed { IfOk result (λ o. IsListed lists.now number o body.old.items body.new.items known.new) }
    ensures again { (o : ℕ) → get nat_cmp known.old number ≡ Some o →
        IfOk result (λ offset. (offset ≡ o) × (body.new.items ≡ body.old.items)) }
{
    if let Some(offset) = known_offset(known, number) {
        return Ok(offset);
    }
    let offset = body.len() as u64;
    body.extend_from_slice(list_in(lists, number))?;
    known.insert(number, offset)?;
    Ok(offset)
}

// A sum that fits in an offset of 32 bits.
fn offset_sum(a: u64, b: u64) -> Result<u64, NoMemory>
    ensures { IfOk result (λ n. (n ≡ a + b) × (n < 2 ^ 32)) }
{
    let limit = u32::MAX as u64;
    if a <= limit && b <= limit && a + b <= limit {
        Ok(a + b)
    } else {
        Err(NoMemory)
    }
}

// Adds the list of an attribute to the body of a table, which begins at offset `start` of the section. The list's
// offset is kept for its index (counted in the body), or for the attribute (counted in the section).
fn add_entry(
    body: &mut Vec<u8>,
    known: &mut BTreeMap<usize, u64>,
    indexes: &mut BTreeMap<u64, u64>,
    names: &mut Vec<ListAt>,
    lists: &[Vec<u8>],
    start: u64,
    entry: &NamedList,
) -> Result<(), NoMemory>
    requires { AreListed lists.now body.old.items known.old }
    ensures { OnOk result (IsEntryPut lists.now start entry.now body.old.items body.new.items known.new indexes.old
        indexes.new
        names.old.items names.new.items) }
{
    let offset = list_offset(body, known, lists, entry.list)?;
    match entry.index {
        Some(index) => {
            indexes.insert(index, offset)?;
            Ok(())
        }
        None => {
            let at = offset_sum(start, offset)?;
            names.push(ListAt {
                entry: entry.place,
                attr: entry.attr,
                offset: at,
            })?;
            Ok(())
        }
    }
}

// The lists of some units, as the body of their table: the bytes after the offsets.
#[derive(Drop)]
struct TableBody {
    /// The lists, one after another.
    bytes: Vec<u8>,
    /// For each index that is used, the offset of its list in the body.
    indexes: BTreeMap<u64, u64>,
}

// The first list in the body of a table with `count` offsets, if it has any: a list without entries, for all indexes
// that no attribute uses.
fn first_list(alloc: Global, count: u64) -> Result<Vec<u8>, NoMemory>
    ensures { IfOk result (λ b. b.items ≡ spec.first_list count) }
{
    let mut bytes = Vec::new(alloc);
    if count > 0 {
        put_end(&mut bytes)?;
    }
    Ok(bytes)
}

// The body of a table with `count` offsets, which begins at offset `start` of the section. Attributes that refer to
// their list by its offset are added to `names`.
fn table_body(
    alloc: Global,
    names: &mut Vec<ListAt>,
    lists: &[Vec<u8>],
    count: u64,
    start: u64,
    entries: &[NamedList],
) -> Result<TableBody, NoMemory>
    ensures first { IfOk result (λ b. IsLonger (spec.first_list count) b.bytes.items) }
    ensures put { IfOk result (λ b. (kind : kinds.ListKind) (lo own : ℕ) → AreNames kind lo own names.old.items →
        AreInOrder kind lo entries.now →
        ArePut kind lists.now start lo own b.bytes.items b.indexes names.old.items names.new.items entries.now) }
{
    let mut bytes = first_list(alloc, count)?;
    let mut known = BTreeMap::new(alloc);
    let mut indexes = BTreeMap::new(alloc);
    for entry in entries {
        add_entry(
            &mut bytes,
            &mut known,
            &mut indexes,
            names,
            lists,
            start,
            entry,
        )?;
    }
    Ok(TableBody { bytes, indexes })
}

// The least number that is at least `count` and above `index`, if there is an index.
fn above(count: u64, index: Option<u64>) -> Result<u64, NoMemory>
    ensures least { IfOk result (λ n. count ≤ n) }
    ensures more { IfOk result (λ n. (i : ℕ) → index ≡ Some i → i < n) }
    ensures used { IfOk result (λ n. count < n → index ≡ Some (n - 1)) }
{
    match index {
        Some(index) => {
            if index < count {
                return Ok(count);
            }
            index.checked_add(1).ok_or(NoMemory)
        }
        None => Ok(count),
    }
}

// The number of offsets that units need: one for each index up to the greatest.
fn offset_count(units: &[IndexedUnit]) -> Result<u64, NoMemory>
    ensures { IfOk result (IsCountOf units.now) }
{
    let mut count = 0;
    for unit in units {
        count = above(count, unit.greatest)?;
    }
    Ok(count)
}

fn index_offset(indexes: &BTreeMap<u64, u64>, index: u64) -> u64
    ensures { result ≡ unwrap_or (get nat_cmp indexes.now index) 0 }
{
    indexes.get(&index).copied().unwrap_or(0)
}

// Appends the offset of an index. Offsets count from the first of them, and all of them take `size` bytes before the
// lists.
fn put_offset(
    out: &mut Vec<u8>,
    indexes: &BTreeMap<u64, u64>,
    size: u64,
    index: u64,
) -> Result<(), NoMemory>
    ensures written { OnOk result (out.new.items ≡ out.old.items
        ++ little_bytes 4 (spec.offset_of size indexes.now index)) }
    ensures low { OnOk result (spec.offset_of size indexes.now index < 2 ^ 32) }
{
    let offset = offset_sum(size, index_offset(indexes, index))?;
    put_u32(out, offset as u32)?;
    Ok(())
}

fn put_offsets(
    out: &mut Vec<u8>,
    indexes: &BTreeMap<u64, u64>,
    size: u64,
    count: u64,
) -> Result<(), NoMemory>
    ensures written { OnOk result (out.new.items ≡ out.old.items ++ spec.list_offsets size indexes.now count) }
    ensures low { OnOk result ((i : ℕ) → i < count → spec.offset_of size indexes.now i < 2 ^ 32) }
{
    for index in 0..count {
        put_offset(out, indexes, size, index)?;
    }
    Ok(())
}

// Appends the header after a table's length: version, size of addresses, size of segment selectors, and the number of
// offsets. DWARF 5, section 7.28.
fn put_header(out: &mut Vec<u8>, count: u32) -> Result<(), NoMemory>
    ensures { OnOk result (out.new.items ≡ out.old.items ++ spec.list_header count) }
{
    out.extend_from_slice(&[VERSION, 0, ADDRESS_SIZE, SELECTOR_SIZE])?;
    put_u32(out, count)?;
    Ok(())
}

// The number of bytes of `count` offsets.
fn offsets_size(count: u64) -> Result<u64, NoMemory>
    ensures { IfOk result (λ n. (n ≡ 4 * count) × (n < 2 ^ 32)) }
{
    if count < 1 << 30 {
        Ok(4 * count)
    } else {
        Err(NoMemory)
    }
}

// The number of bytes of a table after its length. Its offsets take `size` bytes. 2^32 - 1 would mean that a length of
// 64 bits follows.
fn table_len(size: u64, body: &[u8]) -> Result<u32, NoMemory>
    requires { size < 2 ^ 32 }
    ensures { IfOk result (λ n. (n ≡ 8 + size + length body.now) × (n < 2 ^ 32 - 1)) }
{
    let len = HEADER_SIZE + size + body.len() as u64;
    if len < u32::MAX as u64 {
        Ok(len as u32)
    } else {
        Err(NoMemory)
    }
}

// Appends a table with `count` offsets, and the lists in `body`.
fn put_table(
    out: &mut Vec<u8>,
    indexes: &BTreeMap<u64, u64>,
    count: u64,
    body: &[u8],
) -> Result<(), NoMemory>
    requires { 4 * count < 2 ^ 32 }
    ensures { OnOk result (IsTablePut count indexes.now body.now out.old.items out.new.items) }
{
    let size = 4 * count;
    let len = table_len(size, body)?;
    put_u32(out, len)?;
    put_header(out, count as u32)?;
    put_offsets(out, indexes, size, count)?;
    out.extend_from_slice(body)?;
    Ok(())
}

// The attribute with the base of a unit's indexes.
fn base_name(kind: ListKind) -> u64
    ensures { result ≡ base_name kind }
{
    match kind {
        ListKind::Ranges => DW_AT_rnglists_base,
        ListKind::Locations => DW_AT_loclists_base,
    }
}

// Adds the bases of units to `names`.
fn name_bases(
    names: &mut Vec<ListAt>,
    kind: ListKind,
    units: &[IndexedUnit],
    base: u64,
) -> Result<(), NoMemory>
    ensures { OnOk result (names.new.items ≡ names.old.items ++ spec.bases_at kind base units.now) }
{
    for unit in units {
        names.push(ListAt {
            entry: unit.own,
            attr: base_name(kind),
            offset: base,
        })?;
    }
    Ok(())
}

// Appends a table with the lists of some units.
fn put_group(
    alloc: Global,
    out: &mut Vec<u8>,
    names: &mut Vec<ListAt>,
    kind: ListKind,
    lists: &[Vec<u8>],
    units: &[IndexedUnit],
    entries: &[NamedList],
) -> Result<(), NoMemory>
    ensures { OnOk result ((tables : List (List ℕ)) (lo bound : ℕ) → out.old.items ≡ units_bytes tables →
        AreNames kind lo bound names.old.items → AreInOrder kind lo entries.now → UnitsRise bound units.now →
        ((r : code.NamedList) → Contains entries.now r → IsOwned units.now r) → AreApart entries.now →
        IsGroupWritten kind lists.now lo bound entries.now units.now tables out.new.items names.old.items
        names.new.items) }
{
    let count = offset_count(units)?;
    let size = offsets_size(count)?;
    let base = offset_sum(out.len() as u64, FRONT_SIZE)?;
    let start = offset_sum(base, size)?;
    let body = table_body(alloc, names, lists, count, start, entries)?;
    name_bases(names, kind, units, base)?;
    put_table(out, &body.indexes, count, &body.bytes)?;
    Ok(())
}

// Appends tables with the lists to which attributes refer, for the units that share one and the units after them.
fn put_groups(
    alloc: Global,
    out: &mut Vec<u8>,
    names: &mut Vec<ListAt>,
    kind: ListKind,
    lists: &[Vec<u8>],
    named: &[NamedList],
    units: &[IndexedUnit],
) -> Result<(), NoMemory>
    requires left { AreLeft kind 0 0 named.now units.now }
    requires start { AreWritten kind lists.now [] [] out.old.items names.old.items }
    ensures written { OnOk result (AreWritten kind lists.now named.now units.now out.new.items names.new.items) }
    ensures none { length units.now ≡ 0 → OnOk result (out.new.items ≡ out.old.items) }
{
    let mut rest = named;
    let mut left = units;
    for number in 0..units.len() {
        if left.is_empty() {
            return Ok(());
        }
        let (unit_count, entry_count) = shared_len(alloc, left, rest)?;
        let (group, later) = left.split_at(unit_count);
        let (entries, behind) = rest.split_at(entry_count);
        put_group(alloc, out, names, kind, lists, group, entries)?;
        rest = behind;
        left = later;
    }
    Ok(())
}

// The offsets of the own entries of the units whose attributes refer to lists.
fn owns_of(alloc: Global, named: &[NamedList]) -> Result<BTreeSet<u64>, NoMemory>
    ensures { IfOk result (λ owns. (o : ℕ) → contains nat_cmp owns o ≡ list_any (λ r. r.own == o) named.now) }
{
    let mut owns = BTreeSet::new(alloc);
    for entry in named {
        owns.insert(entry.own)?;
    }
    Ok(owns)
}

// Adds a unit if it needs a table.
fn put_needing(
    out: &mut Vec<IndexedUnit>,
    unit: IndexedUnit,
    owns: &BTreeSet<u64>,
) -> Result<(), NoMemory>
    ensures { OnOk result (out.new.items ≡ out.old.items
        ++ filter (λ (x : indexed.IndexedUnit). is_some x.greatest || contains nat_cmp owns.now x.own) (unit ∷ [])) }
{
    if unit.greatest.is_some() || owns.contains(&unit.own) {
        out.push(unit)?;
    }
    Ok(())
}

// The units that need a table: those that use an index, and those whose own entry's offset is in `owns`.
fn needing(
    alloc: Global,
    all: &[IndexedUnit],
    owns: &BTreeSet<u64>,
) -> Result<Vec<IndexedUnit>, NoMemory>
    ensures { IfOk result (λ us. us.items
        ≡ filter (λ (x : indexed.IndexedUnit). is_some x.greatest || contains nat_cmp owns.now x.own) all.now) }
{
    let mut needing = Vec::new(alloc);
    for unit in all {
        put_needing(&mut needing, *unit, owns)?;
    }
    Ok(needing)
}

/// The units of a file that may get tables. There are none if the file has no section of lists and no attribute refers
/// to one: a section isn't added only for indexes.
pub fn indexed_in<'a>(
    section: &[u8],
    named: &[NamedList],
    units: &'a [IndexedUnit],
) -> &'a [IndexedUnit]
    ensures { result.now ≡ spec.indexed_in section.now named.now units.now }
{
    if section.is_empty() && named.is_empty() {
        return &[];
    }
    units
}

/// Writes tables of the lists to which attributes refer, for each unit that has such attributes or uses an index.
/// `lists` has the bytes of each list, by its number; `named` has the attributes, and `units` their units, in the order
/// of entries. Units that had the same base share a table (`shared_len`). It has an offset for each index up to the
/// greatest of its units; an index that no attribute uses gets a list without entries. The result has the offset for
/// each attribute that refers to its list by an offset, and the base of each unit that has a table. Gives `NoMemory`
/// also if an offset or a length doesn't fit in 32 bits.
pub fn write_tables(
    alloc: Global,
    kind: ListKind,
    lists: &[Vec<u8>],
    named: &[NamedList],
    units: &[IndexedUnit],
) -> Result<Written, NoMemory>
    requires { AreLeft kind 0 0 named.now units.now }
    ensures written { IfOk result (λ w. AreWritten kind lists.now named.now (spec.with_tables named.now units.now)
        w.bytes.items w.lists.items) }
    ensures none { length named.now ≡ 0 → length units.now ≡ 0 → IfOk result (λ w. w.bytes.items ≡ []) }
{
    let owns = owns_of(alloc, named)?;
    let needing = needing(alloc, units, &owns)?;
    let mut bytes = Vec::new(alloc);
    let mut names = Vec::new(alloc);
    put_groups(alloc, &mut bytes, &mut names, kind, lists, named, &needing)?;
    Ok(Written {
        bytes,
        lists: names,
    })
}
