// The values of attributes. DWARF 5, section 7.5.5.
ghost use Rattle.std.specs.Prelude.{◌≡◌, ◌≤◌, IsTrue, IfOk, IfErr, OnOk, Ok, Err, length};
ghost use Rattle.std.specs.Int.{cast_unsigned};
ghost use Rattle.rb_bytes.specs.Readers.{number_read};
ghost use Rattle.rb_bytes.specs.declared.gap.Gap.TheVariants.{Short};
ghost use Rattle.table_core.specs.AttributeForms.{is_readable, is_size, gap_value_at, block_at, leb_block_at};
ghost use Rattle.table_core.specs.AttributeForms.{signed_at};

use crate::shape::Shape;
use byteorder::{ByteOrder, LittleEndian};
use rb_bytes::cursor::Cursor;
use rb_bytes::gap::Gap;

/// A number of `size` bytes.
pub fn number<'a>(cursor: &mut Cursor<'a>, size: u8) -> Result<u64, Gap>
    requires { IsTrue (is_size size) }
    ensures read { IfOk result (λ x. number_read size cursor.old.left ≡ Ok (x, cursor.new.left)) }
    ensures gap { IfErr result (λ gap. number_read size cursor.old.left ≡ Err gap) }
    ensures on { OnOk result (length cursor.new.left ≤ length cursor.old.left) }
{
    let bytes = cursor.take(size as usize)?;
    Ok(LittleEndian::read_uint(bytes, size as usize))
}

// A signed number, modulo 2^64.
fn signed<'a>(cursor: &mut Cursor<'a>) -> Result<u64, Gap>
    ensures read { IfOk result (λ x. signed_at cursor.old.left ≡ Ok (x, cursor.new.left)) }
    ensures gap { IfErr result (λ gap. signed_at cursor.old.left ≡ Err gap) }
    ensures on { OnOk result (length cursor.new.left ≤ length cursor.old.left) }
{
    let number = cursor.sleb()?;
    Ok(number.cast_unsigned())
}

// Skips bytes after their length, a number of `size` bytes.
fn block<'a>(cursor: &mut Cursor<'a>, size: u8) -> Result<u64, Gap>
    requires { IsTrue (is_size size) }
    ensures read { IfOk result (λ x. block_at size cursor.old.left ≡ Ok (x, cursor.new.left)) }
    ensures gap { IfErr result (λ gap. block_at size cursor.old.left ≡ Err gap) }
    ensures on { OnOk result (length cursor.new.left ≤ length cursor.old.left) }
{
    let count = number(cursor, size)?;
    cursor.take(count as usize)?;
    Ok(0)
}

// Skips bytes after their length in LEB128.
fn leb_block<'a>(cursor: &mut Cursor<'a>) -> Result<u64, Gap>
    ensures read { IfOk result (λ x. leb_block_at cursor.old.left ≡ Ok (x, cursor.new.left)) }
    ensures gap { IfErr result (λ gap. leb_block_at cursor.old.left ≡ Err gap) }
    ensures on { OnOk result (length cursor.new.left ≤ length cursor.old.left) }
{
    let count = cursor.uleb()?;
    cursor.take(count as usize)?;
    Ok(0)
}

/// Reads the value of a shape at the front. Text, blocks and bytes that are no number are skipped, and give 0. A signed
/// number is taken modulo 2^64. `implicit` is the value in the declaration.
pub fn value<'a>(cursor: &mut Cursor<'a>, implicit: u64, shape: Shape) -> Result<u64, Gap>
    requires { IsTrue (is_readable shape) }
    ensures read { IfOk result (λ x. gap_value_at implicit shape cursor.old.left ≡ Ok (x, cursor.new.left)) }
    ensures gap { IfErr result (λ gap. gap_value_at implicit shape cursor.old.left ≡ Err gap) }
    ensures on { OnOk result (length cursor.new.left ≤ length cursor.old.left) }
{
    match shape {
        Shape::Number(size) => number(cursor, size),
        Shape::Leb => cursor.uleb(),
        Shape::SignedLeb => signed(cursor),
        Shape::Opaque(size) => {
            cursor.take(size as usize)?;
            Ok(0)
        }
        Shape::Text => {
            cursor.text()?;
            Ok(0)
        }
        Shape::Block(size) => block(cursor, size),
        Shape::LebBlock => leb_block(cursor),
        Shape::Implicit => Ok(implicit),
        // The form precedes the value, and has to be read first.
        Shape::Indirect => Err(Gap::Short),
    }
}
