// Units with their entries changed in place. As in `changed_info`, `from` is the offset from which on `.debug_info`
// isn't copied yet, and the result is that offset after the call.
ghost use Rattle.std.specs.Prelude.{◌≡◌, ◌≤◌, ◌+◌, ◌++◌, List, false, IfOk, Ok, length, drop, flat_map, map};
ghost use Rattle.std.specs.Prelude.{option_map};
ghost use Rattle.std.specs.List.{list_any};
ghost use Rattle.table_core.specs.ReadSteps.{oks};
ghost use Rattle.dw_unit.specs.Changes.{Patch, patched, entry_patches, is_first_of, is_own, unit_patches};
ghost use Rattle.dw_unit.specs.CompUnits.{Entry, Sections, Unit, end_of, own_entry, unit_of};
ghost use Rattle.dw_unit.specs.Declarations.{has_bad_high};
ghost use Rattle.dw_unit.specs.EntryChanges.{AreBehind, ArePlaced, HaveRoom, IsOf, own_places};
ghost use Rattle.dw_unit.specs.EntryMoves.{Moves};
ghost use Rattle.dw_unit.specs.Faults.{declarations_of};
ghost use Rattle.dw_unit.specs.MapKeys.{HasOffset, HasOffsets};
ghost use Rattle.dw_unit.specs.OwnPlaces.{AllRead};
ghost use Rattle.dw_unit.specs.UnitChanges.{IsChangeOf};
ghost use Rattle.dw_unit.specs.Walking.{entries_at, unit_bounds};
ghost use Rattle.dw_unit.specs.TablesAt.{told_at};
ghost use Rattle.dw_unit.specs.Told.{told_declaration};

use crate::attribute::DW_AT_high_pc;
use crate::changed_entry::ChangedEntry;
use crate::changed_info::put_attrs;
use crate::declaration_tests::names;
use crate::entry::Attr;
use crate::own_entry::OwnEntry;
use crate::patch::put_number;
use crate::trouble::Stop;
use crate::unit_change::UnitChange;
use crate::unit_entries::{UnitEntries, own_entry, unit_entries};
use crate::walk::{Head, next_entry};
use rb_bytes::fault::NoMemory;
use std::alloc::Global;
use table_core::DebugUnit;

// How an entry changes. `own` is its unit's own entry, and `head` the entry itself.
fn changed_entry(change: &UnitChange<'_>, own: Option<OwnEntry>, head: &Head<'_>) -> ChangedEntry
    ensures is_own { (s : Sections) (m : Moves) → IsChangeOf s m change.now →
        result.is_own ≡ is_own s (told_declaration head.now.declaration.now) }
    ensures is_first { (u : Unit) (e : Entry) → own ≡ option_map own_places (own_entry u) → e.place ≡ head.now.place →
        result.is_first ≡ is_first_of u e }
    ensures of { (e : Entry) → e.place ≡ head.now.place → e.declaration ≡ told_declaration head.now.declaration.now →
        IsOf e result }
{
    let is_first = match own {
        Some(own) => own.place == head.place,
        None => false,
    };
    ChangedEntry {
        place: head.place,
        is_own: change.own.has(head.declaration.place),
        is_first,
        has_high: names(DW_AT_high_pc, &head.declaration.specs),
    }
}

// Writes the changes of an entry whose attributes are before offset `end`.
fn put_entry(
    out: &mut Vec<u8>,
    from: usize,
    end: usize,
    change: &UnitChange<'_>,
    own: Option<OwnEntry>,
    head: &Head<'_>,
    attrs: &[Attr],
) -> Result<usize, NoMemory>
    requires placed { ArePlaced from end attrs.now }
    requires room { HaveRoom attrs.now }
    requires within { end ≤ length change.now.info.now }
    ensures put { IfOk result (λ to. (s : Sections) (m : Moves) (u : Unit) (e : Entry) (ps : List Patch) →
        IsChangeOf s m change.now →
        own ≡ option_map own_places (own_entry u) → e.place ≡ head.now.place →
        e.declaration ≡ told_declaration head.now.declaration.now →
        e.attrs ≡ attrs.now →
        out.new.items ++ patched to ps (drop to change.now.info.now)
        ≡ out.old.items ++ patched from (entry_patches s m u e ++ ps) (drop from change.now.info.now)) }
    ensures to { IfOk result (λ to. to ≤ end) }
{
    let entry = changed_entry(change, own, head);
    put_attrs(out, change.info, from, end, change.moves, entry, attrs)
}

// Writes the changes of a unit's entries, in a second walk over them.
fn put_entries(
    alloc: Global,
    out: &mut Vec<u8>,
    from: usize,
    change: &UnitChange<'_>,
    own: Option<OwnEntry>,
    unit: UnitEntries<'_, '_>,
) -> Result<usize, NoMemory>
    requires behind { from + length unit.cursor.left ≤ unit.end }
    requires within { unit.end ≤ length change.now.info.now }
    requires fine { list_any has_bad_high (told_at unit.table).list ≡ false }
    requires read { (es : List Entry)
        × (entries_at (unit_bounds unit.place unit.end (told_at unit.table)) 0 unit.cursor.left ≡ Ok es) }
    ensures put { IfOk result (λ to. (s : Sections) (m : Moves) (u : Unit) (ps : List Patch) →
        IsChangeOf s m change.now →
        own ≡ option_map own_places (own_entry u) →
        entries_at (unit_bounds unit.entry.place unit.entry.end (told_at unit.entry.table)) 0 unit.entry.cursor.left
        ≡ Ok u.entries →
        out.new.items ++ patched to ps (drop to change.now.info.now)
        ≡ out.old.items ++ patched from (flat_map (entry_patches s m u) u.entries ++ ps)
        (drop from change.now.info.now)) }
    ensures to { IfOk result (λ to. to ≤ unit.entry.end) }
{
    let UnitEntries {
        mut cursor,
        place,
        end,
        abbrev_offset: _,
        table,
    } = unit;
    let mut attrs = Vec::new(alloc);
    let mut depth = 0;
    let mut to = from;
    'entries: loop {
        match next_entry(&mut cursor, place, end, &mut depth, table, &mut attrs) {
            Ok(Some(head)) => {
                let behind = end as usize - cursor.left();
                to = put_entry(out, to, behind, change, own, &head, &attrs)?;
            }
            Ok(None) => return Ok(to),
            Err(Stop::Memory) => return Err(NoMemory),
            Err(Stop::Trouble(_)) => unreachable!(),
        }
    }
}

// Writes the changes of a unit that can be read: its abbreviation offset, and its entries.
fn put_unit(
    alloc: Global,
    out: &mut Vec<u8>,
    from: usize,
    change: &UnitChange<'_>,
    unit: &DebugUnit<'_>,
) -> Result<usize, NoMemory>
    requires behind { from ≤ unit.now.place }
    requires within { end_of unit.now ≤ length change.now.info.now }
    requires read { (u : Unit) × (unit_of change.now.tables.now.section.now unit.now ≡ Ok u) }
    requires fine { list_any has_bad_high (declarations_of change.now.tables.now.section.now unit.now) ≡ false }
    requires named { HasOffset change.now.tables.now.starts unit.now }
    requires written { HasOffset change.now.new_tables.now.offsets unit.now }
    ensures put { IfOk result (λ to. (s : Sections) (m : Moves) (u : Unit) (ps : List Patch) →
        IsChangeOf s m change.now →
        unit_of s.abbrevs unit.now ≡ Ok u →
        out.new.items ++ patched to ps (drop to change.now.info.now)
        ≡ out.old.items ++ patched from (unit_patches s m u ++ ps) (drop from change.now.info.now)) }
    ensures to { IfOk result (λ to. to ≤ end_of unit.now) }
{
    let own = own_entry(alloc, change.tables, unit)?;
    let entries = unit_entries(change.tables, unit);
    let offset = change.new_tables.offset(entries.abbrev_offset);
    // The abbreviation offset follows the length (4 bytes), version (2), type (1) and address size (1).
    let to = put_number(
        out,
        change.info,
        from,
        entries.place as usize + 8,
        offset,
        4,
    )?;
    put_entries(alloc, out, to, change, own, entries)
}

/// The new `.debug_info`. All its units can be read.
pub fn changed_units(
    alloc: Global,
    change: &UnitChange<'_>,
    units: &[DebugUnit<'_>],
) -> Result<Vec<u8>, NoMemory>
    requires behind { AreBehind 0 (length change.now.info.now) units.now }
    requires read { AllRead change.now.tables.now.section.now units.now }
    requires fine { list_any has_bad_high (flat_map (declarations_of change.now.tables.now.section.now) units.now) ≡
        false }
    requires named { HasOffsets change.now.tables.now.starts units.now }
    requires written { HasOffsets change.now.new_tables.now.offsets units.now }
    ensures { IfOk result (λ w. (s : Sections) (m : Moves) → IsChangeOf s m change.now →
        w.items ≡ patched 0 (flat_map (unit_patches s m) (oks (map (unit_of s.abbrevs) units.now)))
        change.now.info.now) }
{
    let mut out = Vec::new(alloc);
    let mut to = 0;
    for unit in units {
        to = put_unit(alloc, &mut out, to, change, unit)?;
    }
    let (_, rest) = change.info.split_at(to);
    out.extend_from_slice(rest)?;
    Ok(out)
}
