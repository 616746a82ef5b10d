// `.debug_info` with its entries changed in place. It is written front to back. Each function here copies `info` from
// the offset `from` up to its last change, with its changes, and returns the offset after that change. The next call
// goes on from there.
ghost use Rattle.std.specs.Prelude.{◌≡◌, ◌≤◌, ◌+◌, ◌++◌, List, IfOk, length, drop, flat_map, map};
ghost use Rattle.dw_unit.specs.Changes as spec;
ghost use Rattle.dw_unit.specs.Changes.{Patch, patched};
ghost use Rattle.dw_unit.specs.CompUnits.{Entry};
ghost use Rattle.dw_unit.specs.EntryChanges.{ArePlaced, HasRoom, HaveRoom, IsOf, IsPlaced};
ghost use Rattle.dw_unit.specs.EntryMoves.{Moves};
ghost use Rattle.dw_unit.specs.MovesOf.{AreMovesIn};

use crate::attribute::{DW_AT_high_pc, DW_AT_ranges};
use crate::changed_entry::ChangedEntry;
use crate::entry::Attr;
use crate::entry_moves::EntryMoves;
use crate::new_value::new_value;
use crate::patch::put_number;
use rb_bytes::fault::NoMemory;

// Writes the offset of the entry's range list over its DW_AT_high_pc, `attr`. If that has eight bytes, the last four
// become an unused attribute, and are zeros.
fn put_ranges(
    out: &mut Vec<u8>,
    info: &[u8],
    from: usize,
    moves: &EntryMoves<'_>,
    entry: ChangedEntry,
    attr: &Attr,
) -> Result<usize, NoMemory>
    requires behind { from ≤ attr.now.place }
    requires some { 4 ≤ attr.now.len }
    requires within { attr.now.place + attr.now.len ≤ length info.now }
    ensures put { IfOk result (λ to. (m : Moves) (e : Entry) (ps : List Patch) → AreMovesIn m moves.now → IsOf e entry →
        out.new.items ++ patched to ps (drop to info.now)
        ≡ out.old.items ++ patched from (map spec.number_patch (spec.ranges_attrs m e attr.now) ++ ps)
        (drop from info.now)) }
    ensures to { IfOk result (λ to. to ≤ attr.now.place + attr.now.len) }
{
    let place = attr.place as usize;
    let offset = moves.list(entry.place, DW_AT_ranges).unwrap_or(0);
    let to = put_number(out, info, from, place, offset, 4)?;
    if attr.len == 8 {
        put_number(out, info, to, place + 4, 0, 4)
    } else {
        Ok(to)
    }
}

// Writes an attribute's new value, if it gets one.
fn put_attr(
    out: &mut Vec<u8>,
    info: &[u8],
    from: usize,
    moves: &EntryMoves<'_>,
    entry: ChangedEntry,
    attr: &Attr,
) -> Result<usize, NoMemory>
    requires placed { IsPlaced from attr.now }
    requires room { HasRoom attr.now }
    requires within { attr.now.place + attr.now.len ≤ length info.now }
    ensures put { IfOk result (λ to. (m : Moves) (e : Entry) (ps : List Patch) → AreMovesIn m moves.now → IsOf e entry →
        out.new.items ++ patched to ps (drop to info.now)
        ≡ out.old.items ++ patched from (spec.attr_patches m entry.is_own entry.is_first e attr.now ++ ps)
        (drop from info.now)) }
    ensures to { IfOk result (λ to. to ≤ attr.now.place + attr.now.len) }
{
    if attr.name == DW_AT_high_pc {
        return put_ranges(out, info, from, moves, entry, attr);
    }
    match new_value(moves, entry, attr) {
        Some(value) => {
            put_number(
                out,
                info,
                from,
                attr.place as usize,
                value,
                attr.len as usize,
            )
        }
        None => Ok(from),
    }
}

/// Writes the changed attributes of an entry, which are between the offsets `from` and `end`. Returns the offset after
/// the last change, or `from` if there is none.
pub fn put_attrs(
    out: &mut Vec<u8>,
    info: &[u8],
    from: usize,
    end: usize,
    moves: &EntryMoves<'_>,
    entry: ChangedEntry,
    attrs: &[Attr],
) -> Result<usize, NoMemory>
    requires placed { ArePlaced from end attrs.now }
    requires room { HaveRoom attrs.now }
    requires within { end ≤ length info.now }
    ensures put { IfOk result (λ to. (m : Moves) (e : Entry) (ps : List Patch) → AreMovesIn m moves.now → IsOf e entry →
        out.new.items ++ patched to ps (drop to info.now)
        ≡ out.old.items ++ patched from (flat_map (spec.attr_patches m entry.is_own entry.is_first e) attrs.now ++ ps)
        (drop from info.now)) }
    ensures to { IfOk result (λ to. to ≤ end) }
{
    let mut to = from;
    for attr in attrs {
        to = put_attr(out, info, to, moves, entry, attr)?;
    }
    Ok(to)
}
