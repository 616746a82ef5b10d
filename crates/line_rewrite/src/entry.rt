// The directories and files of a line unit. DWARF 5, sections 6.2.4 and 6.2.4.1.
ghost use Rattle.std.specs.Prelude.{◌≡◌, Some, None, IfOk};
ghost use Rattle.table_core.specs.Texts.{text_in};
ghost use Rattle.line_rewrite.specs.Entries.{text_of, entries_at, table_at};
ghost use Rattle.line_rewrite.specs.KeptEntries.{or_empty, strings_held, texts_strings, told_value, told_name};
ghost use Rattle.line_rewrite.specs.KeptEntries.{told_entry, told_entries, told_format};
ghost use Rattle.line_rewrite.specs.EntrySteps.{entry_at, told_found, found_more, found_at, nothing_found};
ghost use Rattle.line_rewrite.specs.Troubles.{IfMalformed};

use crate::content::{DW_LNCT_directory_index, DW_LNCT_path};
use crate::field::{Field, read_format};
use crate::text::Texts;
use crate::trouble::Trouble;
use crate::value::{Value, form_here, read_value};
use rb_bytes::cursor::Cursor;
use std::alloc::Global;

// The text at an offset of a section; empty, if no text ends there.
fn text_from(section: &[u8], offset: u64) -> &[u8]
    ensures { result.now ≡ or_empty (text_in section.now offset) }
{
    let (_, left) = section.split_at((section.len() as u64).min(offset) as usize);
    let mut cursor = Cursor::new(left);
    match cursor.text() {
        Ok(text) => text,
        Err(_) => &[],
    }
}

/// A text, or its offset. Texts of sections aren't copied.
#[derive(Drop)]
pub enum Text {
    Own(Vec<u8>),
    /// An offset of `.debug_str`.
    Str(u64),
    /// An offset of `.debug_line_str`.
    LineStr(u64),
}

impl Text {
    /// Its bytes, from `.debug_str` and `.debug_line_str`; none if no text is at its offset.
    pub fn bytes<'t>(&'t self, str: &'t [u8], line_str: &'t [u8]) -> &'t [u8]
        ensures { result.now ≡ told_name (strings_held str.now line_str.now) self.now }
    {
        match self {
            Text::Own(text) => text,
            Text::Str(offset) => text_from(str, *offset),
            Text::LineStr(offset) => text_from(line_str, *offset),
        }
    }
}

/// A directory or a file: its path, and the index of the directory that a file is in (0 if none is given).
#[derive(Drop)]
pub struct Entry {
    pub text: Text,
    pub directory: u64,
}

/// The path and the directory in the contents of an entry that were read so far.
#[derive(Drop)]
pub struct Found {
    pub path: Option<Text>,
    pub directory: u64,
}

// The text of a value. Numbers, and offsets without a text, are malformed.
fn text_of<'a>(alloc: Global, texts: &Texts, value: Value<'a>) -> Result<Text, Trouble>
    ensures read { IfOk result (λ t. text_of (texts_strings texts.now) (told_value value.entry)
        ≡ Some (told_name (texts_strings texts.now) t)) }
    ensures malformed { IfMalformed result
        (text_of (texts_strings texts.now) (told_value value.entry) ≡ None) }
{
    match value {
        Value::Text(text) => Ok(Text::Own(Vec::from_slice(alloc, text)?)),
        Value::AtStr(offset) => {
            if !texts.has_str(offset) {
                return Err(Trouble::Malformed);
            }
            Ok(Text::Str(offset))
        }
        Value::AtLineStr(offset) => {
            if !texts.has_line_str(offset) {
                return Err(Trouble::Malformed);
            }
            Ok(Text::LineStr(offset))
        }
        Value::Number(_) | Value::Other => Err(Trouble::Malformed),
    }
}

// Takes one more content: a path, a directory index, or something that is skipped.
fn take_content<'a>(
    alloc: Global,
    texts: &Texts,
    content: u64,
    value: Value<'a>,
    found: Found,
) -> Result<Found, Trouble>
    ensures read { IfOk result (λ new. found_more (texts_strings texts.now) content (told_value value.entry)
        (told_found (texts_strings texts.now) found)
        ≡ Some (told_found (texts_strings texts.now) new)) }
    ensures malformed { IfMalformed result
        (found_more (texts_strings texts.now) content (told_value value.entry)
        (told_found (texts_strings texts.now) found) ≡ None) }
{
    if content == DW_LNCT_path {
        let text = text_of(alloc, texts, value)?;
        return Ok(Found {
            path: Some(text),
            directory: found.directory,
        });
    }
    if content == DW_LNCT_directory_index {
        return match value {
            Value::Number(directory) => Ok(Found {
                path: found.path,
                directory,
            }),
            Value::Text(_) | Value::AtStr(_) | Value::AtLineStr(_) | Value::Other => {
                Err(Trouble::Malformed)
            }
        };
    }
    Ok(found)
}

// Reads the contents of an entry.
fn read_contents<'a>(
    alloc: Global,
    texts: &Texts,
    format: &[Field],
    cursor: &mut Cursor<'a>,
) -> Result<Found, Trouble>
    ensures read { IfOk result (λ f. found_at (texts_strings texts.now)
        (told_format format.now) nothing_found cursor.old.left
        ≡ Some (told_found (texts_strings texts.now) f, cursor.new.left)) }
    ensures malformed { IfMalformed result
        (found_at (texts_strings texts.now) (told_format format.now) nothing_found cursor.old.left ≡ None) }
{
    let mut found = Found {
        path: None,
        directory: 0,
    };
    for field in format {
        let form = form_here(cursor, field.form)?;
        let value = read_value(cursor, form)?;
        found = take_content(alloc, texts, field.content, value, found)?;
    }
    Ok(found)
}

fn read_entry<'a>(
    alloc: Global,
    texts: &Texts,
    format: &[Field],
    cursor: &mut Cursor<'a>,
) -> Result<Entry, Trouble>
    ensures read { IfOk result (λ e. entry_at (texts_strings texts.now) (told_format format.now) cursor.old.left
        ≡ Some (told_entry (texts_strings texts.now) e, cursor.new.left)) }
    ensures malformed { IfMalformed result (entry_at (texts_strings texts.now)
        (told_format format.now) cursor.old.left ≡ None) }
{
    let Found { path, directory } = read_contents(alloc, texts, format, cursor)?;
    match path {
        Some(text) => Ok(Entry { text, directory }),
        None => Err(Trouble::Malformed),
    }
}

// Reads `count` entries of a format.
fn read_entries<'a>(
    alloc: Global,
    texts: &Texts,
    format: &[Field],
    count: u64,
    cursor: &mut Cursor<'a>,
) -> Result<Vec<Entry>, Trouble>
    ensures read { IfOk result (λ es. entries_at (texts_strings texts.now)
        (told_format format.now) count cursor.old.left
        ≡ Some (told_entries (texts_strings texts.now) es.items, cursor.new.left)) }
    ensures malformed { IfMalformed result
        (entries_at (texts_strings texts.now) (told_format format.now) count cursor.old.left ≡ None) }
{
    let mut entries = Vec::new(alloc);
    // Each entry needs a path of at least one byte, so a false count ends with the bytes.
    for _ in 0..count {
        let entry = read_entry(alloc, texts, format, cursor)?;
        entries.push(entry)?;
    }
    Ok(entries)
}

/// Reads a table of directories, or of files: the format of its entries, their count, and the entries.
pub fn read_table<'a>(
    alloc: Global,
    texts: &Texts,
    cursor: &mut Cursor<'a>,
) -> Result<Vec<Entry>, Trouble>
    ensures read { IfOk result (λ es. table_at (texts_strings texts.now) cursor.old.left
        ≡ Some (told_entries (texts_strings texts.now) es.items, cursor.new.left)) }
    ensures malformed { IfMalformed result (table_at (texts_strings texts.now) cursor.old.left ≡ None) }
{
    let fields = cursor.u8()?;
    let format = read_format(alloc, cursor, fields)?;
    let count = cursor.uleb()?;
    read_entries(alloc, texts, &format, count, cursor)
}
