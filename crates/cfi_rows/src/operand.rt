// Operands: numbers and blocks at the front of the bytes left.
ghost use Rattle.std.specs.Prelude.{◌≡◌, ◌+◌, ◌≤◌, length, IfOk, IfErr, OnOk, Ok, Err};
ghost use Rattle.rb_bytes.specs.Readers.{number_read, text_at};
ghost use Rattle.rb_bytes.specs.Leb.{uleb_at, sleb_at};
ghost use Rattle.cfi_rows.specs.FrameInstructions.{whole, block_at};
ghost use Rattle.cfi_rows.specs.Reads.{Fails};
ghost use Rattle.cfi_rows.specs.declared.instruction.Malformed.TheVariants.{Entry};

use crate::failed::Failed;
use crate::row::Expression;
use rb_bytes::cursor::Cursor;
use std::alloc::Global;

pub(crate) fn byte(cursor: &mut Cursor<'_>) -> Result<u8, Failed>
    ensures ok { IfOk result (λ n. whole (number_read 1 cursor.old.left) ≡ Ok (n, cursor.new.left)) }
    ensures err { IfErr result (λ e. Fails e (whole (number_read 1 cursor.old.left) ≡ Err Entry)) }
    ensures on { OnOk result (length cursor.new.left ≤ length cursor.old.left) }
{
    Ok(cursor.u8()?)
}

pub(crate) fn half(cursor: &mut Cursor<'_>) -> Result<u16, Failed>
    ensures ok { IfOk result (λ n. whole (number_read 2 cursor.old.left) ≡ Ok (n, cursor.new.left)) }
    ensures err { IfErr result (λ e. Fails e (whole (number_read 2 cursor.old.left) ≡ Err Entry)) }
    ensures on { OnOk result (length cursor.new.left ≤ length cursor.old.left) }
{
    Ok(cursor.u16()?)
}

pub(crate) fn word(cursor: &mut Cursor<'_>) -> Result<u32, Failed>
    ensures ok { IfOk result (λ n. whole (number_read 4 cursor.old.left) ≡ Ok (n, cursor.new.left)) }
    ensures err { IfErr result (λ e. Fails e (whole (number_read 4 cursor.old.left) ≡ Err Entry)) }
    ensures on { OnOk result (length cursor.new.left ≤ length cursor.old.left) }
{
    Ok(cursor.u32()?)
}

pub(crate) fn unsigned(cursor: &mut Cursor<'_>) -> Result<u64, Failed>
    ensures ok { IfOk result (λ n. whole (uleb_at cursor.old.left) ≡ Ok (n, cursor.new.left)) }
    ensures err { IfErr result (λ e. Fails e (whole (uleb_at cursor.old.left) ≡ Err Entry)) }
    ensures on { OnOk result (length cursor.new.left ≤ length cursor.old.left) }
{
    Ok(cursor.uleb()?)
}

pub(crate) fn signed(cursor: &mut Cursor<'_>) -> Result<i64, Failed>
    ensures ok { IfOk result (λ n. whole (sleb_at cursor.old.left) ≡ Ok (n, cursor.new.left)) }
    ensures err { IfErr result (λ e. Fails e (whole (sleb_at cursor.old.left) ≡ Err Entry)) }
    ensures on { OnOk result (length cursor.new.left ≤ length cursor.old.left) }
{
    Ok(cursor.sleb()?)
}

/// An expression, after its length.
pub(crate) fn block(alloc: Global, cursor: &mut Cursor<'_>) -> Result<Expression, Failed>
    ensures ok { IfOk result (λ b. block_at cursor.old.left ≡ Ok (b, cursor.new.left)) }
    ensures err { IfErr result (λ e. Fails e (block_at cursor.old.left ≡ Err Entry)) }
    ensures room { IfOk result (λ b. length b + length cursor.new.left ≤ length cursor.old.left) }
{
    let length = unsigned(cursor)?;
    let from = cursor.take(length as usize)?;
    let bytes = Vec::from_slice(alloc, from)?;
    Ok(Expression { bytes })
}
