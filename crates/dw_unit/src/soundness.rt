// Whether the attributes of a unit can be read.
ghost use Rattle.std.specs.Prelude.{◌≡◌, ◌==◌, option_map, is_some};
ghost use Rattle.std.specs.List.{find, list_all};
ghost use Rattle.dw_unit.specs.CompUnits as spec;
ghost use Rattle.dw_unit.specs.CompUnits.{Unit, address_at};
ghost use Rattle.dw_unit.specs.Faults.{is_located, is_sound_attr, is_sound_unit};
ghost use Rattle.dw_unit.specs.ListedUnits.{plain_unit};
ghost use Rattle.dw_unit.specs.UnitBases.{bases_of, has_table, has_form};
ghost use Rattle.dw_unit.specs.declared.attribute.TheConstants.{DW_AT_addr_base};

use crate::attribute::{
    DW_AT_addr_base, DW_AT_frame_base, DW_AT_location, DW_AT_loclists_base, DW_AT_ranges,
    DW_AT_rnglists_base, DW_AT_str_offsets_base,
};
use crate::bases::Bases;
use crate::declaration_tests::is_address_index;
use crate::entry::{Attr, Entry};
use table_core::form::{DW_FORM_loclistx, DW_FORM_rnglistx, DW_FORM_sec_offset};
use table_core::shape::{is_block, is_text_index};

fn attr_value(name: u64, attrs: &[Attr]) -> Option<u64>
    ensures { result ≡ option_map (λ a. a.value) (find (λ a. a.name == name) attrs.now) }
{
    let attr = attrs.iter().find(|attr| attr.name == name)?;
    Some(attr.value)
}

// The value of an attribute of the unit's own entry, if it has the attribute.
fn base(name: u64, entries: &[Entry]) -> Option<u64>
    ensures { result ≡ spec.base name (plain_unit entries.now) }
{
    let own = entries.first()?;
    attr_value(name, &own.attrs)
}

/// The bases of a unit.
pub fn bases(entries: &[Entry]) -> Bases
    ensures { result ≡ bases_of (plain_unit entries.now) }
{
    Bases {
        addr: base(DW_AT_addr_base, entries),
        str_offsets: base(DW_AT_str_offsets_base, entries),
        rnglists: base(DW_AT_rnglists_base, entries),
        loclists: base(DW_AT_loclists_base, entries),
    }
}

/// Whether an attribute is a location: its value is an expression or refers to a location list.
pub(crate) fn is_located(name: u64) -> bool
    ensures { result ≡ is_located name }
{
    name == DW_AT_location || name == DW_AT_frame_base
}

// Whether the address table that begins at `base` has a whole address at `index`.
fn has_address(addr: &[u8], base: Option<u64>, index: u64) -> bool
    ensures { (u : Unit) → base ≡ spec.base DW_AT_addr_base u → result ≡ is_some (address_at addr.now u index) }
{
    match base {
        Some(base) => base as u128 + 8 * index as u128 + 8 <= addr.len() as u128,
        None => false,
    }
}

// Whether an attribute whose form is an index has what it needs: the base of the table, and for an address index the
// address.
fn has_table(addr: &[u8], bases: &Bases, attr: &Attr) -> bool
    ensures { (u : Unit) → bases.now ≡ bases_of u → result ≡ has_table addr.now u attr.now }
{
    if is_text_index(attr.form) && bases.str_offsets.is_none() {
        return false;
    }
    if is_address_index(attr.form) && !has_address(addr, bases.addr, attr.value) {
        return false;
    }
    if attr.form == DW_FORM_loclistx && bases.loclists.is_none() {
        return false;
    }
    attr.form != DW_FORM_rnglistx || bases.rnglists.is_some()
}

// Whether ranges, expressions and bases have the forms that are read.
fn has_form(attr: &Attr) -> bool
    ensures { result ≡ has_form attr.now }
{
    let form = attr.form;
    if is_located(attr.name)
        && !(is_block(form) || form == DW_FORM_sec_offset || form == DW_FORM_loclistx)
    {
        return false;
    }
    if attr.name == DW_AT_ranges && !(form == DW_FORM_sec_offset || form == DW_FORM_rnglistx) {
        return false;
    }
    let is_base = attr.name == DW_AT_rnglists_base || attr.name == DW_AT_loclists_base;
    !is_base || form == DW_FORM_sec_offset
}

fn is_sound_attr(addr: &[u8], bases: &Bases, attr: &Attr) -> bool
    ensures { (u : Unit) → bases.now ≡ bases_of u → result ≡ is_sound_attr addr.now u attr.now }
{
    has_table(addr, bases, attr) && has_form(attr)
}

fn are_sound_attrs(addr: &[u8], bases: &Bases, attrs: &[Attr]) -> bool
    ensures { (u : Unit) → bases.now ≡ bases_of u → result ≡ list_all (is_sound_attr addr.now u) attrs.now }
{
    for attr in attrs {
        if !is_sound_attr(addr, bases, attr) {
            return false;
        }
    }
    true
}

/// Whether all attributes of a unit have the forms that are read, and the tables that their indexes need. `addr` is
/// `.debug_addr`.
pub fn is_sound_unit(addr: &[u8], entries: &[Entry]) -> bool
    ensures { result ≡ is_sound_unit addr.now (plain_unit entries.now) }
{
    let bases = bases(entries);
    for entry in entries {
        if !are_sound_attrs(addr, &bases, &entry.attrs) {
            return false;
        }
    }
    true
}
