// Numbers in headers.
ghost use Rattle.std.specs.Prelude.{◌≡◌, ◌≤◌, IfOk, IfErr, OnOk, Ok, Err, length};
ghost use Rattle.rb_bytes.specs.Readers.{number_read};
ghost use Rattle.dw_unit.specs.Trouble.{whole};

use crate::trouble::Trouble;
use rb_bytes::cursor::Cursor;

/// The number of two bytes at the front.
pub fn half<'a>(cursor: &mut Cursor<'a>) -> Result<u16, Trouble>
    ensures read { IfOk result (λ x. whole (number_read 2 cursor.old.left) ≡ Ok (x, cursor.new.left)) }
    ensures trouble { IfErr result (λ e. whole (number_read 2 cursor.old.left) ≡ Err e) }
    ensures on { OnOk result (length cursor.new.left ≤ length cursor.old.left) }
{
    let number = cursor.u16()?;
    Ok(number)
}

/// The number of four bytes at the front.
pub fn word<'a>(cursor: &mut Cursor<'a>) -> Result<u32, Trouble>
    ensures read { IfOk result (λ x. whole (number_read 4 cursor.old.left) ≡ Ok (x, cursor.new.left)) }
    ensures trouble { IfErr result (λ e. whole (number_read 4 cursor.old.left) ≡ Err e) }
    ensures on { OnOk result (length cursor.new.left ≤ length cursor.old.left) }
{
    let number = cursor.u32()?;
    Ok(number)
}
