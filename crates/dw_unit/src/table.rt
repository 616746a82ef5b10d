// Tables of abbreviations. DWARF 5, section 7.5.3.
ghost use Rattle.std.specs.Prelude.{◌≡◌, ◌≤◌, ◌<◌, ◌-◌, IfOk, OnOk, Ok, Err, length, option_map};
ghost use Rattle.dw_unit.specs.Declarations.{next_declaration, table_at};
ghost use Rattle.dw_unit.specs.Stops.{IfTrouble};
ghost use Rattle.dw_unit.specs.Told.{told_declaration, told_table};

use crate::declaration::{Declaration, read_declaration, unsigned};
use crate::trouble::Stop;
use rb_bytes::cursor::Cursor;
use rb_bytes::fault::NoMemory;
use std::alloc::Global;

/// The declarations from an offset up to the closing zero, or up to one that can't be read.
#[derive(Drop)]
pub struct Table {
    pub list: Vec<Declaration>,
    /// The offset after the closing zero, if it was reached. A unit needs it.
    pub end: Option<u64>,
}

// The next declaration, or none at the closing zero. The bytes left end a section of `size` bytes.
fn next_declaration<'a>(
    alloc: Global,
    cursor: &mut Cursor<'a>,
    size: u64,
) -> Result<Option<Declaration>, Stop>
    requires { length cursor.old.left ≤ size }
    ensures read { IfOk result (λ o. next_declaration (size - length cursor.old.left) cursor.old.left
        ≡ Ok (option_map told_declaration o, cursor.new.left)) }
    ensures trouble { IfTrouble result (λ e. next_declaration (size - length cursor.old.left) cursor.old.left ≡ Err e) }
    ensures on { OnOk result (length cursor.new.left < length cursor.old.left) }
{
    let place = size - cursor.left() as u64;
    let code = unsigned(cursor)?;
    if code == 0 {
        return Ok(None);
    }
    let declaration = read_declaration(alloc, cursor, place, code)?;
    Ok(Some(declaration))
}

/// The table that begins at an offset of a section.
pub fn read_table(alloc: Global, section: &[u8], offset: usize) -> Result<Table, NoMemory>
    requires { offset ≤ length section.now }
    ensures { IfOk result (λ t. told_table t ≡ table_at section.now offset) }
{
    let (_, left) = section.split_at(offset);
    let size = section.len() as u64;
    let mut cursor = Cursor::new(left);
    let mut list = Vec::new(alloc);
    'table: loop {
        match next_declaration(alloc, &mut cursor, size) {
            Ok(Some(declaration)) => list.push(declaration)?,
            Ok(None) => {
                let end = size - cursor.left() as u64;
                return Ok(Table {
                    list,
                    end: Some(end),
                });
            }
            Err(Stop::Trouble(_)) => return Ok(Table { list, end: None }),
            Err(Stop::Memory) => return Err(NoMemory),
        }
    }
}
