// Tables of `.debug_aranges`. DWARF 5, section 6.1.2.
ghost use Rattle.std.specs.Prelude.{◌≡◌, IfErr, IfOk, Ok, Err};
ghost use Rattle.rb_bytes.specs.Readers.{bytes_at};
ghost use Rattle.dw_unit.specs.Trouble.{whole};
ghost use Rattle.dw_unit.specs.Stops.{IfTrouble};
ghost use Rattle.addr_rewrite.specs.Aranges.{table_in};
ghost use Rattle.addr_rewrite.specs.ArangesReading.{table_header};

use crate::address_pairs::read_pairs;
use answer_runs::Range;
use dw_unit::numbers::{half, word};
use dw_unit::trouble::{Stop, Trouble};
use rb_bytes::cursor::Cursor;
use std::alloc::Global;

/// A table: a unit, and its ranges of addresses.
#[derive(Drop)]
pub struct Table {
    /// The offset of the unit in `.debug_info`.
    pub unit: u64,
    pub ranges: Vec<Range>,
}

// Skips the four bytes after the header: the first pair is at a multiple of 16 bytes from the table's start.
fn padding<'a>(cursor: &mut Cursor<'a>) -> Result<&'a [u8], Trouble>
    ensures read { IfOk result (λ x. whole (bytes_at 4 cursor.old.left) ≡ Ok (x.now, cursor.new.left)) }
    ensures trouble { IfErr result (λ e. whole (bytes_at 4 cursor.old.left) ≡ Err e) }
{
    let bytes = cursor.take(4)?;
    Ok(bytes)
}

// Reads a table's header after its length, and returns the unit's offset. The version isn't tested here: another
// version is a fault of its own.
fn header<'a>(cursor: &mut Cursor<'a>) -> Result<u64, Trouble>
    ensures read { IfOk result (λ x. table_header cursor.old.left ≡ Ok (x, cursor.new.left)) }
    ensures trouble { IfErr result (λ e. table_header cursor.old.left ≡ Err e) }
{
    half(cursor)?;
    let unit = word(cursor)?;
    let sizes = half(cursor)?;
    padding(cursor)?;
    // Addresses of 8 bytes, and no segment selectors.
    if sizes == 8 {
        Ok(unit as u64)
    } else {
        Err(Trouble::Unsound)
    }
}

/// Reads the table in the bytes after its length.
pub fn read_table(alloc: Global, bytes: &[u8]) -> Result<Table, Stop>
    ensures read { IfOk result (λ t. table_in bytes.now ≡ Ok (record { unit = t.unit; ranges = t.ranges.items })) }
    ensures trouble { IfTrouble result (λ e. table_in bytes.now ≡ Err e) }
{
    let mut cursor = Cursor::new(bytes);
    let unit = header(&mut cursor)?;
    let ranges = read_pairs(alloc, &mut cursor)?;
    Ok(Table { unit, ranges })
}
