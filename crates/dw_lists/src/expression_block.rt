// Expressions in attributes. DWARF 5, section 7.5.5.
ghost use Rattle.std.specs.Prelude.{◌≡◌, Ok, Err, IfOk, IfErr, IsTrue};
ghost use Rattle.table_core.specs.AttributeForms as forms;
ghost use Rattle.table_core.specs.AttributeForms.{is_size, is_readable};
ghost use Rattle.table_core.specs.declared.shape.Shape.TheVariants as shape;
ghost use Rattle.dw_lists.specs.Locations.{block_of, content_at};

use crate::list_item::block;
use crate::list_section::bytes_between;
use dw_unit::Attr;
use dw_unit::trouble::Trouble;
use rb_bytes::cursor::Cursor;
use table_core::shape::{Shape, shape_of};
use table_core::value::number;

// A block of bytes, after its length, a number of `size` bytes.
fn counted<'a>(cursor: &mut Cursor<'a>, size: u8) -> Result<&'a [u8], Trouble>
    requires { IsTrue (is_size size) }
    ensures read { IfOk result (λ x. content_at (shape.Block size) cursor.old.left ≡ Ok (x.now, cursor.new.left)) }
    ensures trouble { IfErr result (λ e. content_at (shape.Block size) cursor.old.left ≡ Err e) }
{
    let count = number(cursor, size)?;
    let bytes = cursor.take(count as usize)?;
    Ok(bytes)
}

// The bytes of a block, after its length. Other shapes have none.
fn content<'a>(cursor: &mut Cursor<'a>, shape: Shape) -> Result<&'a [u8], Trouble>
    requires { IsTrue (is_readable shape) }
    ensures read { IfOk result (λ x. content_at shape cursor.old.left ≡ Ok (x.now, cursor.new.left)) }
    ensures trouble { IfErr result (λ e. content_at shape cursor.old.left ≡ Err e) }
{
    match shape {
        Shape::Block(size) => counted(cursor, size),
        Shape::LebBlock => block(cursor),
        _ => Err(Trouble::Unsound),
    }
}

/// The expression in an attribute, from `.debug_info`; empty if the form is no block.
pub fn expression_in<'a>(info: &'a [u8], attr: Attr) -> &'a [u8]
    ensures { result.now ≡ block_of info.now attr }
{
    let bytes = bytes_between(info, attr.place, attr.place as u128 + attr.len as u128);
    match shape_of(attr.form) {
        Some(shape) => {
            let mut cursor = Cursor::new(bytes);
            match content(&mut cursor, shape) {
                Ok(content) => content,
                Err(_) => &[],
            }
        }
        None => &[],
    }
}
