// Headers of units. DWARF 5, section 7.5.1.
ghost use Rattle.std.specs.Prelude.{◌≡◌, ◌≤◌, IfOk, IfErr, OnOk, Ok, Err, length};
ghost use Rattle.rb_bytes.specs.Readers.{bytes_at};
ghost use Rattle.dw_unit.specs.CompUnits.{header_at, is_type, type_fields};
ghost use Rattle.dw_unit.specs.Trouble.{whole};

use crate::declaration::byte;
use crate::numbers::{half, word};
use crate::trouble::Trouble;
use crate::unit_type::{DW_UT_compile, DW_UT_partial, DW_UT_type};
use rb_bytes::cursor::Cursor;

// The size of an address in all units that are read.
const ADDRESS_SIZE: u8 = 8;

// Skips the fields that only type units have: a signature of eight bytes, and the offset of the type. DWARF 5, section
// 7.5.1.3.
fn pass_fields<'a>(cursor: &mut Cursor<'a>, kind: u8) -> Result<&'a [u8], Trouble>
    ensures read { IfOk result (λ x. whole (bytes_at (type_fields kind) cursor.old.left) ≡ Ok
        (x.now, cursor.new.left)) }
    ensures trouble { IfErr result (λ e. whole (bytes_at (type_fields kind) cursor.old.left) ≡ Err e) }
    ensures on { OnOk result (length cursor.new.left ≤ length cursor.old.left) }
{
    let fields = if kind as u64 == DW_UT_type { 12 } else { 0 };
    let bytes = cursor.take(fields)?;
    Ok(bytes)
}

// Whether units of a type are read. Skeleton and split units aren't.
fn is_type(kind: u8) -> bool
    ensures { result ≡ is_type kind }
{
    let kind = kind as u64;
    kind == DW_UT_compile || kind == DW_UT_type || kind == DW_UT_partial
}

/// Reads a unit's header after its length, and returns the abbreviation offset. The version isn't tested here: another
/// version is a fault of its own (`other_version`).
pub fn header<'a>(cursor: &mut Cursor<'a>) -> Result<u64, Trouble>
    ensures read { IfOk result (λ x. header_at cursor.old.left ≡ Ok (x, cursor.new.left)) }
    ensures trouble { IfErr result (λ e. header_at cursor.old.left ≡ Err e) }
    ensures on { OnOk result (length cursor.new.left ≤ length cursor.old.left) }
{
    half(cursor)?;
    let kind = byte(cursor)?;
    let address_size = byte(cursor)?;
    let offset = word(cursor)?;
    pass_fields(cursor, kind)?;
    if is_type(kind) && address_size == ADDRESS_SIZE {
        Ok(offset as u64)
    } else {
        Err(Trouble::Unsound)
    }
}
