// How names of entries are found. DWARF 5, sections 2.15, 3.3.8, 7.5.5 and 7.26.
ghost use Rattle.std.specs.Prelude.{◌≡◌, ◌==◌, option_and_then};
ghost use Rattle.std.specs.List.{find};
ghost use Rattle.inline_frames.specs.Naming as spec;

use byteorder::{ByteOrder, LittleEndian};
use dw_unit::Attr;
use dw_unit::attribute::{DW_AT_abstract_origin, DW_AT_name, DW_AT_specification};
use table_core::form::{
    DW_FORM_line_strp, DW_FORM_ref_addr, DW_FORM_ref_udata, DW_FORM_string, DW_FORM_strp,
};
use table_core::shape::is_text_index;

/// Where a text is, by offsets in its section.
#[derive(Clone, Copy)]
pub enum TextPlace {
    /// In `.debug_info`: the text's offset and its number of bytes.
    InInfo(u64, u64),
    /// In `.debug_str`, up to a zero byte.
    InStr(u64),
    /// In `.debug_line_str`, up to a zero byte.
    InLineStr(u64),
}

/// How the name of an entry is found.
#[derive(Clone, Copy)]
pub enum Naming {
    /// It is this text; `None` if the entry has no name.
    Named(Option<TextPlace>),
    /// It is the name of the entry at this offset in `.debug_info`. The offset is a sum that may pass 2^64.
    Refers(u128),
}

/// The first attribute called `name`.
pub fn attr_named(name: u64, attrs: &[Attr]) -> Option<Attr>
    ensures { result ≡ find (λ a. a.name == name) attrs.now }
{
    dw_unit::attr_named(name, attrs).copied()
}

// Where the text with index `index` is. The unit's offsets, of four bytes each, begin at `base` in
// `.debug_str_offsets`. DWARF 5, section 7.26.
fn index_place(str_offsets: &[u8], base: Option<u64>, index: u64) -> Option<TextPlace>
    ensures { result ≡ spec.index_place str_offsets.now base index }
{
    let base = base?;
    let place = base as u128 + 4 * index as u128;
    if place + 4 > str_offsets.len() as u128 {
        return None;
    }
    let offset = LittleEndian::read_u32(&str_offsets[place as usize..]);
    Some(TextPlace::InStr(offset as u64))
}

fn text_place(str_offsets: &[u8], base: Option<u64>, attr: Attr) -> Option<TextPlace>
    ensures { result ≡ spec.text_place str_offsets.now base attr }
{
    if attr.form == DW_FORM_string {
        return Some(TextPlace::InInfo(attr.place, attr.len.saturating_sub(1)));
    }
    if attr.form == DW_FORM_strp {
        return Some(TextPlace::InStr(attr.value));
    }
    if attr.form == DW_FORM_line_strp {
        return Some(TextPlace::InLineStr(attr.value));
    }
    if is_text_index(attr.form) {
        return index_place(str_offsets, base, attr.value);
    }
    None
}

// The offset of the entry to which the attribute `attr` refers: an offset in the section, or from `unit`, the offset of
// the unit. DWARF 5, section 7.5.5.
fn target_of(unit: u64, attr: Attr) -> Option<u128>
    ensures { result ≡ spec.target_by unit attr }
{
    if attr.form == DW_FORM_ref_addr {
        return Some(attr.value as u128);
    }
    if DW_FORM_ref_addr <= attr.form && attr.form <= DW_FORM_ref_udata {
        return Some(unit as u128 + attr.value as u128);
    }
    None
}

// The reference to the entry of which this one is an instance (DW_AT_abstract_origin); without one, the reference to
// the entry that this one completes (DW_AT_specification).
fn reference(attrs: &[Attr]) -> Option<Attr>
    ensures { result ≡ spec.reference_in attrs.now }
{
    let origin = attr_named(DW_AT_abstract_origin, attrs);
    let specification = attr_named(DW_AT_specification, attrs);
    origin.or(specification)
}

fn referred(unit: u64, attrs: &[Attr]) -> Option<u128>
    ensures { result ≡ option_and_then (spec.target_by unit) (spec.reference_in attrs.now) }
{
    let attr = reference(attrs)?;
    target_of(unit, attr)
}

/// How the name of an entry is found that has the attributes `attrs`, in the unit at offset `unit`. The unit's string
/// offsets begin at `base` in `str_offsets`.
pub fn naming_of(str_offsets: &[u8], base: Option<u64>, unit: u64, attrs: &[Attr]) -> Naming
    ensures { result ≡ spec.naming_in str_offsets.now base unit attrs.now }
{
    match attr_named(DW_AT_name, attrs) {
        Some(attr) => Naming::Named(text_place(str_offsets, base, attr)),
        None => match referred(unit, attrs) {
            Some(place) => Naming::Refers(place),
            None => Naming::Named(None),
        },
    }
}
