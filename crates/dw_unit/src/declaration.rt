// Abbreviation declarations. DWARF 5, section 7.5.3.
ghost use Rattle.std.specs.Prelude.{◌≡◌, ◌≤◌, ◌<◌, IfOk, IfErr, OnOk, Ok, Err, Some, None, length};
ghost use Rattle.dw_unit.specs.Declarations.{implicit_at, spec_at, specs_at, declaration_at};
ghost use Rattle.dw_unit.specs.declared.trouble.Stop.TheVariants as stop;
ghost use Rattle.rb_bytes.specs.Readers.{number_read};
ghost use Rattle.rb_bytes.specs.Leb.{uleb_at};
ghost use Rattle.dw_unit.specs.Trouble.{whole};
ghost use Rattle.dw_unit.specs.Stops.{IfTrouble};
ghost use Rattle.dw_unit.specs.Told.{told_declaration};

use crate::trouble::{Stop, Trouble};
use file_bounds::ATTRIBUTES;
use rb_bytes::cursor::Cursor;
use std::alloc::Global;
use table_core::form::DW_FORM_implicit_const;
use table_core::shape::Shape;
use table_core::value::value;

/// A pair of a declaration: an attribute's number, such as `DW_AT_low_pc`, and the form of its value.
#[derive(Clone, Copy)]
pub struct Spec {
    pub name: u64,
    pub form: u64,
    /// The value of a DW_FORM_implicit_const, modulo 2^64; 0 for other forms.
    pub implicit: u64,
}

/// An abbreviation declaration.
#[derive(Drop)]
pub struct Declaration {
    /// Its offset in `.debug_abbrev`.
    pub place: u64,
    pub code: u64,
    pub tag: u64,
    pub children: bool,
    pub specs: Vec<Spec>,
}

// The value of a DW_FORM_implicit_const, which is in the declaration; 0 for other forms.
fn read_implicit<'a>(cursor: &mut Cursor<'a>, form: u64) -> Result<u64, Trouble>
    ensures read { IfOk result (λ x. implicit_at form cursor.old.left ≡ Ok (x, cursor.new.left)) }
    ensures trouble { IfErr result (λ e. implicit_at form cursor.old.left ≡ Err e) }
    ensures on { OnOk result (length cursor.new.left ≤ length cursor.old.left) }
{
    if form != DW_FORM_implicit_const {
        return Ok(0);
    }
    let number = value(cursor, 0, Shape::SignedLeb)?;
    Ok(number)
}

// The next pair of a name and a form, or none at the two zeros that end them.
fn next_spec<'a>(cursor: &mut Cursor<'a>) -> Result<Option<Spec>, Trouble>
    ensures read { IfOk result (λ s. spec_at cursor.old.left ≡ Ok (s, cursor.new.left)) }
    ensures trouble { IfErr result (λ e. spec_at cursor.old.left ≡ Err e) }
    ensures on { OnOk result (length cursor.new.left < length cursor.old.left) }
{
    let name = cursor.uleb()?;
    let form = cursor.uleb()?;
    if name == 0 && form == 0 {
        return Ok(None);
    }
    let implicit = read_implicit(cursor, form)?;
    Ok(Some(Spec {
        name,
        form,
        implicit,
    }))
}

// The pairs of a declaration. More than `ATTRIBUTES` give `Stop::Memory`.
fn read_specs<'a>(alloc: Global, cursor: &mut Cursor<'a>) -> Result<Vec<Spec>, Stop>
    ensures read { IfOk result (λ specs. specs_at cursor.old.left ≡ Ok (specs.items, cursor.new.left)) }
    ensures trouble { IfTrouble result (λ e. specs_at cursor.old.left ≡ Err e) }
    ensures on { OnOk result (length cursor.new.left ≤ length cursor.old.left) }
{
    let mut specs = Vec::new(alloc);
    'specs: loop {
        match next_spec(cursor)? {
            Some(spec) => {
                specs.push(spec)?;
                if specs.len() > ATTRIBUTES {
                    return Err(Stop::Memory);
                }
            }
            None => return Ok(specs),
        }
    }
}

/// Reads a declaration after its code, which is at offset `place`.
pub fn read_declaration<'a>(
    alloc: Global,
    cursor: &mut Cursor<'a>,
    place: u64,
    code: u64,
) -> Result<Declaration, Stop>
    ensures read { IfOk result (λ d. declaration_at place code cursor.old.left ≡ Ok
        (told_declaration d, cursor.new.left)) }
    ensures trouble { IfTrouble result (λ e. declaration_at place code cursor.old.left ≡ Err e) }
    ensures on { OnOk result (length cursor.new.left ≤ length cursor.old.left) }
{
    let tag = unsigned(cursor)?;
    let children = byte(cursor)?;
    let specs = read_specs(alloc, cursor)?;
    Ok(Declaration {
        place,
        code,
        tag,
        children: children > 0,
        specs,
    })
}

/// Reads an unsigned number in LEB128.
pub fn unsigned<'a>(cursor: &mut Cursor<'a>) -> Result<u64, Trouble>
    ensures read { IfOk result (λ x. whole (uleb_at cursor.old.left) ≡ Ok (x, cursor.new.left)) }
    ensures trouble { IfErr result (λ e. whole (uleb_at cursor.old.left) ≡ Err e) }
    ensures on { OnOk result (length cursor.new.left < length cursor.old.left) }
{
    let number = cursor.uleb()?;
    Ok(number)
}

/// Reads a byte.
pub fn byte<'a>(cursor: &mut Cursor<'a>) -> Result<u8, Trouble>
    ensures read { IfOk result (λ x. whole (number_read 1 cursor.old.left) ≡ Ok (x, cursor.new.left)) }
    ensures trouble { IfErr result (λ e. whole (number_read 1 cursor.old.left) ≡ Err e) }
    ensures on { OnOk result (length cursor.new.left < length cursor.old.left) }
{
    let byte = cursor.u8()?;
    Ok(byte)
}
