// The lines of the report on the rows of line tables.
ghost use Rattle.std.specs.Prelude.{◌≡◌, ◌++◌, OnOk, flat_map};
ghost use Rattle.lookup_core.specs.Report.{flags_text, line_lines, position_text, row_line};

use crate::texts::{put_if, put_number};
use line_rewrite::{LineAt, LineRow};
use rb_bytes::fault::NoMemory;
use rb_bytes::text::put_decimal;

// Appends the flags of `row` that are set, and its numbers `isa` and `disc` (the discriminator) unless they are 0.
// DWARF 5, section 6.2.2.
fn put_flags(text: &mut Vec<u8>, row: &LineRow) -> Result<(), NoMemory>
    ensures { OnOk result (text.new.items ≡ text.old.items ++ flags_text row.now) }
{
    put_if(text, row.stmt, b" stmt")?;
    put_if(text, row.block, b" block")?;
    put_if(text, row.prologue, b" prologue")?;
    put_if(text, row.epilogue, b" epilogue")?;
    put_number(text, b" isa ", row.isa)?;
    put_number(text, b" disc ", row.disc)?;
    Ok(())
}

// Appends the position of a row in its source: `line PATH:LINE:COLUMN`.
fn put_position(text: &mut Vec<u8>, path: &[u8], line: u64, column: u64) -> Result<(), NoMemory>
    ensures { OnOk result (text.new.items ≡ text.old.items ++ position_text path.now line column) }
{
    text.extend_from_slice(b"line ")?;
    text.extend_from_slice(path)?;
    text.push(b':')?;
    put_decimal(text, line)?;
    text.push(b':')?;
    put_decimal(text, column)?;
    Ok(())
}

// Appends the line of `row`.
fn put_row(text: &mut Vec<u8>, row: &LineRow) -> Result<(), NoMemory>
    ensures { OnOk result (text.new.items ≡ text.old.items ++ row_line row.now) }
{
    put_position(text, &row.path, row.line, row.column)?;
    put_flags(text, row)?;
    text.push(b'\n')?;
    Ok(())
}

// Appends the lines of rows.
fn put_rows(text: &mut Vec<u8>, rows: &[LineRow]) -> Result<(), NoMemory>
    ensures { OnOk result (text.new.items ≡ text.old.items ++ flat_map row_line rows.now) }
{
    for row in rows {
        put_row(text, row)?;
    }
    Ok(())
}

/// Appends the lines of the rows in force, if the line table has an answer.
pub fn put_line(text: &mut Vec<u8>, said: &Option<LineAt>) -> Result<(), NoMemory>
    ensures { OnOk result (text.new.items ≡ text.old.items ++ line_lines said.now) }
{
    match said {
        Some(at) => put_rows(text, &at.rows),
        None => Ok(()),
    }
}
