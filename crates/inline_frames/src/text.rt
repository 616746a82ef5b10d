// Texts of names, copied. DWARF 5, sections 7.5.5 and 7.26.
ghost use Rattle.std.specs.Prelude.{◌≡◌, IfOk, drop, option_map, take};
ghost use Rattle.table_core.specs.Texts.{text_in};
ghost use Rattle.inline_frames.specs.Naming as spec;
ghost use Rattle.inline_frames.specs.Names.{NameSections};

use crate::naming::{Naming, TextPlace};
use rb_bytes::cursor::Cursor;
use rb_bytes::fault::NoMemory;
use std::alloc::Global;

/// The sections that have names.
#[derive(Clone, Copy)]
pub struct Texts<'s> {
    /// `.debug_info`.
    pub info: &'s [u8],
    /// `.debug_str`.
    pub str: &'s [u8],
    /// `.debug_line_str`.
    pub line_str: &'s [u8],
}

// The bytes of `section` from `offset` on; none past the end.
fn from_offset(section: &[u8], offset: u64) -> &[u8]
    ensures { result.now ≡ drop offset section.now }
{
    let (_, rest) = section.split_at((section.len() as u64).min(offset) as usize);
    rest
}

fn piece(alloc: Global, section: &[u8], place: u64, len: u64) -> Result<Vec<u8>, NoMemory>
    ensures { IfOk result (λ bytes. bytes.items ≡ take len (drop place section.now)) }
{
    let rest = from_offset(section, place);
    let (bytes, _) = rest.split_at((rest.len() as u64).min(len) as usize);
    let copied = Vec::from_slice(alloc, bytes)?;
    Ok(copied)
}

fn text_in(alloc: Global, section: &[u8], offset: u64) -> Result<Option<Vec<u8>>, NoMemory>
    ensures { IfOk result (λ o. option_map (λ bytes. bytes.items) o ≡ text_in section.now offset) }
{
    let mut cursor = Cursor::new(from_offset(section, offset));
    match cursor.text() {
        Ok(text) => {
            let copied = Vec::from_slice(alloc, text)?;
            Ok(Some(copied))
        }
        Err(_) => Ok(None),
    }
}

fn text_at(alloc: Global, texts: Texts<'_>, place: TextPlace) -> Result<Option<Vec<u8>>, NoMemory>
    ensures { IfOk result (λ o. (s : NameSections) → s.units.info ≡ texts.entry.info.now → s.str ≡ texts.entry.str.now →
        s.line_str ≡ texts.entry.line_str.now → option_map (λ bytes. bytes.items) o ≡ spec.text_at_place s place) }
{
    match place {
        TextPlace::InInfo(place, len) => {
            let bytes = piece(alloc, texts.info, place, len)?;
            Ok(Some(bytes))
        }
        TextPlace::InStr(offset) => text_in(alloc, texts.str, offset),
        TextPlace::InLineStr(offset) => text_in(alloc, texts.line_str, offset),
    }
}

/// The text of `naming`; `None` if there is none, or if it refers to another entry.
pub fn text_named(
    alloc: Global,
    texts: Texts<'_>,
    naming: Naming,
) -> Result<Option<Vec<u8>>, NoMemory>
    ensures { IfOk result (λ o. (s : NameSections) → s.units.info ≡ texts.entry.info.now → s.str ≡ texts.entry.str.now →
        s.line_str ≡ texts.entry.line_str.now → option_map (λ bytes. bytes.items) o ≡ spec.text_named s naming) }
{
    match naming {
        Naming::Named(Some(place)) => text_at(alloc, texts, place),
        Naming::Named(None) => Ok(None),
        Naming::Refers(_) => Ok(None),
    }
}
