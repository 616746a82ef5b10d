// The current position in a function.
ghost use Rattle.std.specs.Prelude.{◌≡◌, IfOk, option_map};
ghost use Rattle.inline_frames.specs.Frames.{last_row, or_unknown};
ghost use Rattle.inline_frames.specs.Positions as spec;

use crate::link::Link;
use line_rewrite::{LineRow, Lines};
use rb_bytes::fault::NoMemory;
use std::alloc::Global;
use std::marker::Model;
use table_core::ByAddress;

/// A file, a line and a column.
#[derive(Drop)]
pub struct Position {
    /// The path of the file, or `?`.
    pub path: Vec<u8>,
    /// The line, or 0 if none is known.
    pub line: u64,
    /// The column, or 0 if none is known.
    pub column: u64,
}

impl Model for Position {
    ghost use Rattle.inline_frames.specs.Positions.{Position};

    ghost Value = { Position };

    ghost view = { λ p. record { path = p.path.items; line = p.line; column = p.column } };
}

/// `text`, or `?` if it is `None`.
pub fn or_unknown(alloc: Global, text: Option<Vec<u8>>) -> Result<Vec<u8>, NoMemory>
    ensures { IfOk result (λ bytes. bytes.items ≡ or_unknown (option_map (λ t. t.items) text)) }
{
    match text {
        Some(bytes) => Ok(bytes),
        None => {
            let unknown = Vec::from_slice(alloc, b"?")?;
            Ok(unknown)
        }
    }
}

fn last_row(rows: &[LineRow]) -> Option<&LineRow>
    ensures { option_map (λ r. r.now) result ≡ last_row rows.now }
{
    rows.last()
}

fn no_position(alloc: Global) -> Result<Position, NoMemory>
    ensures { IfOk result (λ p. p ≡ spec.no_position) }
{
    let path = or_unknown(alloc, None)?;
    Ok(Position {
        path,
        line: 0,
        column: 0,
    })
}

fn position_of(alloc: Global, row: &LineRow) -> Result<Position, NoMemory>
    ensures { IfOk result (λ p. p ≡ spec.position_of row.now) }
{
    let path = Vec::from_slice(alloc, &row.path)?;
    Ok(Position {
        path,
        line: row.line,
        column: row.column,
    })
}

/// The position in the innermost function of the address `a`: the last of the rows in force there.
pub fn row_position(alloc: Global, lines: &Lines, a: u64) -> Result<Position, NoMemory>
    ensures { IfOk result (λ p. p ≡ spec.row_position lines.now a) }
{
    let Some(said) = lines.at(alloc, a)? else {
        return no_position(alloc);
    };
    let Some(row) = last_row(&said.rows) else {
        return no_position(alloc);
    };
    position_of(alloc, row)
}

fn call_path(alloc: Global, lines: &Lines, link: Link) -> Result<Option<Vec<u8>>, NoMemory>
    ensures { IfOk result (λ o. option_map (λ path. path.items) o ≡ spec.call_path lines.now link) }
{
    let Some(unit) = link.line_unit else {
        return Ok(None);
    };
    let Some(file) = link.file else {
        return Ok(None);
    };
    lines.path(alloc, unit, file)
}

/// The position in the function around the inlined one `link`: the call.
pub fn call_position(alloc: Global, lines: &Lines, link: Link) -> Result<Position, NoMemory>
    ensures { IfOk result (λ p. p ≡ spec.call_position lines.now link) }
{
    let said = call_path(alloc, lines, link)?;
    let path = or_unknown(alloc, said)?;
    Ok(Position {
        path,
        line: link.line.unwrap_or(0),
        column: link.column.unwrap_or(0),
    })
}
