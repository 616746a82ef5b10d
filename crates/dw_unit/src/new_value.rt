// The new values of attributes that are numbers in an entry.
ghost use Rattle.std.specs.Prelude.{◌≡◌, ◌⊎◌, IfSome};
ghost use Rattle.table_core.specs.declared.form.TheConstants.{DW_FORM_addr, DW_FORM_sec_offset};
ghost use Rattle.dw_unit.specs.Changes as spec;
ghost use Rattle.dw_unit.specs.CompUnits.{Entry};
ghost use Rattle.dw_unit.specs.EntryChanges.{IsOf};
ghost use Rattle.dw_unit.specs.EntryMoves.{Moves};
ghost use Rattle.dw_unit.specs.MovesOf.{AreMovesIn};

use crate::attribute::{
    DW_AT_addr_base, DW_AT_call_return_pc, DW_AT_loclists_base, DW_AT_low_pc, DW_AT_ranges,
    DW_AT_rnglists_base, DW_AT_str_offsets_base,
};
use crate::changed_entry::ChangedEntry;
use crate::entry::Attr;
use crate::entry_moves::EntryMoves;
use crate::soundness::is_located;
use table_core::form::{DW_FORM_addr, DW_FORM_sec_offset};
use table_core::written::DW_AT_stmt_list;

// The DW_AT_stmt_list of an entry without a line number program: no section is so large.
const NO_LINE_UNIT: u64 = 0xffff_ffff;

// The new value of an address in an entry.
fn new_address(moves: &EntryMoves<'_>, entry: ChangedEntry, attr: &Attr) -> Option<u64>
    ensures { (m : Moves) (e : Entry) → AreMovesIn m moves.now → IsOf e entry →
        result ≡ spec.new_address m entry.is_own e attr.now }
{
    if attr.name == DW_AT_low_pc && entry.is_own && entry.has_high {
        // The base address of a unit's lists becomes 0, as the new lists have whole addresses.
        return Some(0);
    }
    if attr.name == DW_AT_addr_base || attr.name == DW_AT_str_offsets_base {
        return None;
    }
    let moved = moves.address(attr.value);
    if attr.name == DW_AT_call_return_pc {
        moves.call_end(attr.value).or(moved)
    } else {
        moved
    }
}

// The new value of an offset of a section.
fn new_list(moves: &EntryMoves<'_>, entry: ChangedEntry, attr: &Attr) -> Option<u64>
    ensures { (m : Moves) (e : Entry) → AreMovesIn m moves.now → IsOf e entry →
        result ≡ spec.new_list m entry.is_first e attr.now }
{
    if attr.name == DW_AT_stmt_list {
        let line_unit = moves.list(attr.value, DW_AT_stmt_list);
        return Some(line_unit.unwrap_or(NO_LINE_UNIT));
    }
    let is_base = attr.name == DW_AT_rnglists_base || attr.name == DW_AT_loclists_base;
    if attr.name == DW_AT_ranges || is_located(attr.name) || is_base && entry.is_first {
        moves.list(entry.place, attr.name)
    } else {
        None
    }
}

/// The new value of an attribute other than DW_AT_high_pc, if it gets one.
pub fn new_value(moves: &EntryMoves<'_>, entry: ChangedEntry, attr: &Attr) -> Option<u64>
    ensures value { (m : Moves) (e : Entry) → AreMovesIn m moves.now → IsOf e entry →
        result ≡ spec.new_value m entry.is_own entry.is_first e attr.now }
    ensures form { IfSome result (λ _. (attr.now.form ≡ DW_FORM_addr) ⊎ (attr.now.form ≡ DW_FORM_sec_offset)) }
{
    if attr.form == DW_FORM_addr {
        return new_address(moves, entry, attr);
    }
    if attr.form == DW_FORM_sec_offset {
        return new_list(moves, entry, attr);
    }
    None
}
