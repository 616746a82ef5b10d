// The paths of files, and rows with them. DWARF 5, sections 6.2.2 and 6.2.4.
ghost use Rattle.std.specs.Prelude.{◌≡◌, ◌++◌, IfOk, OnOk, option_map, filter_map};
ghost use Rattle.std.specs.Option.{option_to_list};
ghost use Rattle.line_rewrite.specs.Entries.{is_absolute, directory_path, path_of};
ghost use Rattle.line_rewrite.specs.FilePaths.{file_path};
ghost use Rattle.line_rewrite.specs.LineAnswers.{row_said};
ghost use Rattle.line_rewrite.specs.KeptEntries.{strings_held, told_name, told_entry, told_entries};
ghost use Rattle.line_rewrite.specs.KeptUnits.{told_unit};

use crate::answer::LineRow;
use crate::entry::{Entry, Text};
use crate::registers::Registers;
use crate::unit::Unit;
use file_bounds::PATH_BYTES;
use rb_bytes::fault::NoMemory;
use std::alloc::Global;

const SLASH: u8 = b'/';

fn is_absolute(name: &[u8]) -> bool
    ensures { result ≡ is_absolute name.now }
{
    match name.first() {
        Some(byte) => *byte == SLASH,
        None => false,
    }
}

// The path of a directory, from its name, its index, and the directory of the compilation, entry 0. The text of entry 0
// may be long, and is only looked up if the path begins with it.
fn directory_path(
    alloc: Global,
    str: &[u8],
    line_str: &[u8],
    compiled_in: &Text,
    index: u64,
    name: &[u8],
) -> Result<Vec<u8>, NoMemory>
    ensures { IfOk result (λ path. path.items
        ≡ directory_path (told_name (strings_held str.now line_str.now) compiled_in.now) index name.now) }
{
    if is_absolute(name) || index == 0 {
        return Ok(Vec::from_slice(alloc, name)?);
    }
    let compiled_in = compiled_in.bytes(str, line_str);
    let mut path = Vec::from_slice(alloc, compiled_in)?;
    path.push(SLASH)?;
    path.extend_from_slice(name)?;
    Ok(path)
}

// The path of a file, with its directory's path; none if the directory is missing.
fn path_of(
    alloc: Global,
    str: &[u8],
    line_str: &[u8],
    directories: &[Entry],
    file: &Entry,
) -> Result<Option<Vec<u8>>, NoMemory>
    ensures { IfOk result (λ o. option_map (λ path. path.items) o
        ≡ path_of (told_entries (strings_held str.now line_str.now) directories.now)
        (told_entry (strings_held str.now line_str.now) file.now)) }
{
    let name = file.text.bytes(str, line_str);
    if is_absolute(name) {
        let path = Vec::from_slice(alloc, name)?;
        return Ok(Some(path));
    }
    let Some(compiled_in) = directories.get(0) else {
        return Ok(None);
    };
    let Some(directory) = directories.get(file.directory as usize) else {
        return Ok(None);
    };
    let directory = directory.text.bytes(str, line_str);
    let mut path = directory_path(
        alloc,
        str,
        line_str,
        &compiled_in.text,
        file.directory,
        directory,
    )?;
    path.push(SLASH)?;
    path.extend_from_slice(name)?;
    Ok(Some(path))
}

/// The path of a file of a unit, by its index, if there is one. Indexes count from 0, as in version 5.
pub fn file_path(
    alloc: Global,
    str: &[u8],
    line_str: &[u8],
    unit: &Unit,
    file: u64,
) -> Result<Option<Vec<u8>>, NoMemory>
    ensures { IfOk result (λ o. option_map (λ path. path.items) o
        ≡ file_path (told_unit (strings_held str.now line_str.now) unit.now) file) }
{
    match unit.header.files.get(file as usize) {
        Some(file) => path_of(alloc, str, line_str, &unit.header.directories, file),
        None => Ok(None),
    }
}

// A row with its path, if it has one.
fn row_said(
    alloc: Global,
    str: &[u8],
    line_str: &[u8],
    unit: &Unit,
    row: Registers,
) -> Result<Option<LineRow>, NoMemory>
    ensures { IfOk result (λ o. o ≡ row_said (told_unit (strings_held str.now line_str.now) unit.now) row) }
{
    match file_path(alloc, str, line_str, unit, row.file)? {
        Some(path) => Ok(Some(LineRow {
            path,
            line: row.line,
            column: row.column,
            stmt: row.is_stmt,
            block: row.basic_block,
            prologue: row.prologue_end,
            epilogue: row.epilogue_begin,
            isa: row.isa,
            disc: row.discriminator,
        })),
        None => Ok(None),
    }
}

// Adds a row, if there is one. `bytes` is the sum of the lengths of all paths, which is limited.
fn push_row(
    said: &mut Vec<LineRow>,
    row: Option<LineRow>,
    bytes: &mut usize,
) -> Result<(), NoMemory>
    ensures { OnOk result (said.new.items ≡ said.old.items ++ option_to_list row) }
{
    let Some(row) = row else {
        return Ok(());
    };
    *bytes = bytes.saturating_add(row.path.len());
    if *bytes > PATH_BYTES {
        return Err(NoMemory);
    }
    said.push(row)?;
    Ok(())
}

/// The rows whose files have paths, with these. Gives `NoMemory` also if the paths have more than 2^27 bytes together.
pub fn rows_said(
    alloc: Global,
    str: &[u8],
    line_str: &[u8],
    unit: &Unit,
    rows: &[Registers],
) -> Result<Vec<LineRow>, NoMemory>
    ensures { IfOk result (λ said. said.items ≡ filter_map (row_said (told_unit
        (strings_held str.now line_str.now) unit.now)) rows.now) }
{
    let mut said = Vec::with_capacity(alloc, rows.len())?;
    let mut bytes = 0;
    for row in rows {
        let row = row_said(alloc, str, line_str, unit, *row)?;
        push_row(&mut said, row, &mut bytes)?;
    }
    Ok(said)
}
