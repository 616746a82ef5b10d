// The fields that are kept of the entries of functions. DWARF 5, section 3.3.8.
ghost use Rattle.std.specs.Prelude.{◌≡◌, option_map};
ghost use Rattle.table_core.specs.AttributeForms.{is_address_index};
ghost use Rattle.inline_frames.specs.Links as spec;

use crate::naming::{Naming, attr_named, naming_of};
use dw_unit::attribute::{
    DW_AT_call_column, DW_AT_call_file, DW_AT_call_line, DW_AT_str_offsets_base,
};
use dw_unit::{Attr, Entry, is_address_index};
use table_core::form::{DW_FORM_addr, DW_FORM_sec_offset};
use table_core::written::DW_AT_stmt_list;

/// What a unit's own entry, its first, gives for all of its entries.
#[derive(Clone, Copy)]
pub struct OwnSays {
    /// The offset in `.debug_str_offsets` of the unit's string offsets (DW_AT_str_offsets_base).
    pub text_base: Option<u64>,
    /// The offset of the unit's line number program in `.debug_line` (DW_AT_stmt_list).
    pub line_unit: Option<u64>,
}

/// An entry of a function: the fields that frames need.
#[derive(Clone, Copy)]
pub struct Link {
    pub naming: Naming,
    /// Of the call, if the function is inlined: the number of its file in the unit's line number program.
    pub file: Option<u64>,
    /// The line of this call.
    pub line: Option<u64>,
    /// The column of this call.
    pub column: Option<u64>,
    /// The offset of the unit's line number program in `.debug_line`.
    pub line_unit: Option<u64>,
}

// The number that the attribute `name` has, unless it is an address.
fn unsigned_of(name: u64, attrs: &[Attr]) -> Option<u64>
    ensures { result ≡ spec.unsigned_in name attrs.now }
{
    let attr = attr_named(name, attrs)?;
    if attr.form == DW_FORM_addr || is_address_index(attr.form) {
        None
    } else {
        Some(attr.value)
    }
}

fn value_of(name: u64, attrs: &[Attr]) -> Option<u64>
    ensures { result ≡ spec.value_in name attrs.now }
{
    let attr = attr_named(name, attrs)?;
    Some(attr.value)
}

fn line_unit_of(attrs: &[Attr]) -> Option<u64>
    ensures { result ≡ spec.line_unit_in attrs.now }
{
    let attr = attr_named(DW_AT_stmt_list, attrs)?;
    if attr.form == DW_FORM_sec_offset {
        Some(attr.value)
    } else {
        None
    }
}

/// The fields of the first of a unit's entries, for all of them.
pub fn own_says(entries: &[Entry]) -> OwnSays
    ensures { result ≡ spec.own_says entries.now }
{
    match entries.first() {
        Some(own) => OwnSays {
            text_base: value_of(DW_AT_str_offsets_base, &own.attrs),
            line_unit: line_unit_of(&own.attrs),
        },
        None => OwnSays {
            text_base: None,
            line_unit: None,
        },
    }
}

/// The fields that are kept of an entry of a unit.
pub fn link_of(str_offsets: &[u8], own: OwnSays, entry: &Entry) -> Link
    ensures { result ≡ spec.listed_link str_offsets.now own entry.now }
{
    Link {
        naming: naming_of(str_offsets, own.text_base, entry.unit, &entry.attrs),
        file: unsigned_of(DW_AT_call_file, &entry.attrs),
        line: unsigned_of(DW_AT_call_line, &entry.attrs),
        column: unsigned_of(DW_AT_call_column, &entry.attrs),
        line_unit: own.line_unit,
    }
}
