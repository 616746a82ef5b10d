// The values of entries. DWARF 5, sections 6.2.4.1 and 7.5.5.
ghost use Rattle.std.specs.Prelude.{◌≡◌, ◌==◌, ℕ, List, false, Some, None, IfOk};
ghost use Rattle.table_core.specs.declared.form.TheConstants.{DW_FORM_string};
ghost use Rattle.line_rewrite.specs.Entries.{form_here, form_value, read_value};
ghost use Rattle.line_rewrite.specs.KeptEntries.{told_value};
ghost use Rattle.line_rewrite.specs.Troubles.{IfMalformed};

use crate::trouble::Trouble;
use rb_bytes::cursor::Cursor;
use table_core::form::*;
use table_core::shape::{Shape, shape_of};
use table_core::value::value;

/// A value of an entry's contents.
#[derive(Clone, Copy)]
pub enum Value<'a> {
    /// An unsigned number.
    Number(u64),
    /// A text in the entry.
    Text(&'a [u8]),
    /// A text at an offset of `.debug_str`.
    AtStr(u64),
    /// A text at an offset of `.debug_line_str`.
    AtLineStr(u64),
    /// Anything else, such as a checksum, which is skipped.
    Other,
}

/// The form of the value at the front: `form`, or if that is DW_FORM_indirect, the form before the value.
pub fn form_here<'a>(cursor: &mut Cursor<'a>, form: u64) -> Result<u64, Trouble>
    ensures read { IfOk result (λ x. form_here form cursor.old.left ≡ Some (x, cursor.new.left)) }
    ensures malformed { IfMalformed result (form_here form cursor.old.left ≡ None) }
{
    if form != DW_FORM_indirect {
        return Ok(form);
    }
    let form = cursor.uleb()?;
    Ok(form)
}

// The value of a form, other than a text in the entry, by the number that was read for it.
fn value_of<'a>(form: u64, number: u64) -> Value<'a>
    requires { (form == DW_FORM_string) ≡ false }
    ensures { (left : List ℕ) → told_value result ≡ form_value form number left }
{
    match form {
        DW_FORM_data1 | DW_FORM_data2 | DW_FORM_data4 | DW_FORM_data8 | DW_FORM_udata => {
            Value::Number(number)
        }
        DW_FORM_strp => Value::AtStr(number),
        DW_FORM_line_strp => Value::AtLineStr(number),
        _ => Value::Other,
    }
}

/// Reads the value of a form at the front. A form whose value is in a declaration, or after another form, is malformed.
pub fn read_value<'a>(cursor: &mut Cursor<'a>, form: u64) -> Result<Value<'a>, Trouble>
    ensures read { IfOk result (λ v. read_value form cursor.old.left ≡ Some (told_value v, cursor.new.left)) }
    ensures malformed { IfMalformed result (read_value form cursor.old.left ≡ None) }
{
    if form == DW_FORM_string {
        let text = cursor.text()?;
        return Ok(Value::Text(text));
    }
    match shape_of(form) {
        None | Some(Shape::Implicit) => Err(Trouble::Malformed),
        Some(shape) => {
            let number = value(cursor, 0, shape)?;
            Ok(value_of(form, number))
        }
    }
}
