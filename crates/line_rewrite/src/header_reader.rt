// The headers of line units. DWARF 5, section 6.2.4.
ghost use Rattle.std.specs.Prelude.{◌≡◌, ◌≤◌, ◌+◌, Some, None, IfOk, OnOk, length};
ghost use Rattle.line_rewrite.specs.KeptEntries.{texts_strings};
ghost use Rattle.line_rewrite.specs.LineUnits.{header_in, coding_at};
ghost use Rattle.line_rewrite.specs.KeptUnits.{told_header, are_filed, HasTables};
ghost use Rattle.line_rewrite.specs.Troubles.{IfMalformed};

use crate::coding::Coding;
use crate::entry::{Entry, read_table};
use crate::header::Header;
use crate::text::Texts;
use crate::trouble::Trouble;
use rb_bytes::cursor::Cursor;
use std::alloc::Global;

// The numbers that operations depend on, and the greatest number of operations in an instruction, which is 1 except on
// VLIW machines.
fn read_coding<'a>(cursor: &mut Cursor<'a>) -> Result<(Coding, u8), Trouble>
    ensures read { IfOk result (λ c. coding_at cursor.old.left ≡ Some ((c.0, c.1), cursor.new.left)) }
    ensures size { OnOk result (length cursor.new.left + 6 ≡ length cursor.old.left) }
    ensures malformed { IfMalformed result (coding_at cursor.old.left ≡ None) }
{
    let minimum_instruction_length = cursor.u8()?;
    let maximum = cursor.u8()?;
    let stmt = cursor.u8()?;
    let base = cursor.u8()?;
    let line_range = cursor.u8()?;
    let opcode_base = cursor.u8()?;
    let coding = Coding {
        minimum_instruction_length,
        default_is_stmt: stmt > 0,
        line_base: base.cast_signed(),
        line_range,
        opcode_base,
    };
    Ok((coding, maximum))
}

// Whether each file's directory index is below `directories`.
fn are_filed(files: &[Entry], directories: usize) -> bool
    ensures { result ≡ are_filed directories files.now }
{
    for file in files {
        if file.directory >= directories as u64 {
            return false;
        }
    }
    true
}

/// Reads a header in the bytes after its length.
pub fn read_header(alloc: Global, texts: &Texts, bytes: &[u8]) -> Result<Header, Trouble>
    ensures read { IfOk result (λ h. header_in (texts_strings texts.now) bytes.now
        ≡ Some (told_header (texts_strings texts.now) h)) }
    ensures tables { IfOk result (λ h. HasTables (texts_strings texts.now) h) }
    ensures size { IfOk result (λ h. length h.rest.items + 6 ≤ length bytes.now) }
    ensures malformed { IfMalformed result (header_in (texts_strings texts.now) bytes.now ≡ None) }
{
    let mut cursor = Cursor::new(bytes);
    let (coding, maximum) = read_coding(&mut cursor)?;
    if maximum != 1 || coding.line_range == 0 || coding.opcode_base == 0 {
        return Err(Trouble::Malformed);
    }
    let lengths = cursor.take(coding.opcode_base as usize - 1)?;
    let size = cursor.left();
    let rest = cursor.take(size)?;
    let mut tables = Cursor::new(rest);
    let directories = read_table(alloc, texts, &mut tables)?;
    let files = read_table(alloc, texts, &mut tables)?;
    if !are_filed(&files, directories.len()) {
        return Err(Trouble::Malformed);
    }
    let table_size = size.saturating_sub(tables.left());
    Ok(Header {
        coding,
        lengths: Vec::from_slice(alloc, lengths)?,
        rest: Vec::from_slice(alloc, rest)?,
        table_size,
        directories,
        files,
    })
}
