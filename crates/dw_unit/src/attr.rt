// Attributes read. DWARF 5, sections 7.5.3 and 7.5.5.
ghost use Rattle.std.specs.Prelude.{◌≡◌, ◌≤◌, IfOk, IfErr, OnOk, Ok, Err, length};
ghost use Rattle.table_core.specs.AttributeForms.{is_form};
ghost use Rattle.dw_unit.specs.CompUnits.{form_at, attr_at};

use crate::declaration::Spec;
use crate::entry::Attr;
use crate::trouble::Trouble;
use rb_bytes::cursor::Cursor;
use table_core::form::{DW_FORM_addr, DW_FORM_addrx4, DW_FORM_implicit_const, DW_FORM_indirect};
use table_core::shape::shape_of;
use table_core::value::value;

pub(crate) fn is_form(form: u64) -> bool
    ensures { result ≡ is_form form }
{
    DW_FORM_addr <= form && form <= DW_FORM_addrx4 && form != 2
}

// The form of the value at the front. It is `form`, from the declaration at offset `declaration`, unless that is
// DW_FORM_indirect: then the form precedes the value. DWARF 5, section 7.5.3.
fn form<'a>(cursor: &mut Cursor<'a>, declaration: u64, form: u64) -> Result<u64, Trouble>
    ensures read { IfOk result (λ x. form_at declaration form cursor.old.left ≡ Ok (x, cursor.new.left)) }
    ensures trouble { IfErr result (λ e. form_at declaration form cursor.old.left ≡ Err e) }
    ensures on { OnOk result (length cursor.new.left ≤ length cursor.old.left) }
{
    let mut found = form;
    'forms: while found == DW_FORM_indirect {
        found = cursor.uleb()?;
        if found == DW_FORM_implicit_const {
            return Err(Trouble::Unsound);
        }
    }
    if is_form(found) {
        Ok(found)
    } else {
        Err(Trouble::NoForm(declaration))
    }
}

/// Reads the attribute at the front of a unit's bytes, which end at offset `end` of `.debug_info`. `spec` is the
/// attribute's pair in the declaration at offset `declaration` of `.debug_abbrev`.
pub fn attr<'a>(
    cursor: &mut Cursor<'a>,
    end: u64,
    declaration: u64,
    spec: Spec,
) -> Result<Attr, Trouble>
    requires { length cursor.old.left ≤ end }
    ensures read { IfOk result (λ a. attr_at end declaration spec cursor.old.left ≡ Ok (a, cursor.new.left)) }
    ensures trouble { IfErr result (λ e. attr_at end declaration spec cursor.old.left ≡ Err e) }
    ensures on { OnOk result (length cursor.new.left ≤ length cursor.old.left) }
{
    let form = form(cursor, declaration, spec.form)?;
    let Some(shape) = shape_of(form) else {
        return Err(Trouble::Unsound);
    };
    let before = cursor.left();
    let value = value(cursor, spec.implicit, shape)?;
    Ok(Attr {
        name: spec.name,
        form,
        place: end - before as u64,
        len: (before - cursor.left()) as u64,
        value,
    })
}
