// Tests of declarations.
ghost use Rattle.std.specs.Prelude.{◌≡◌, ◌==◌, ◌&&◌, ◌||◌, not, IfOk};
ghost use Rattle.std.specs.List.{list_any};
ghost use Rattle.table_core.specs.AttributeForms.{is_address_index};
ghost use Rattle.dw_unit.specs.CompUnits.{are_named_once, may_repeat};
ghost use Rattle.dw_unit.specs.Declarations.{is_named, is_low, is_high_form, has_bad_form, has_bad_high};
ghost use Rattle.dw_unit.specs.Told.{told_declaration};
ghost use Rattle.dw_unit.specs.declared.attribute.TheConstants.{DW_AT_high_pc};

use crate::attr::is_form;
use crate::attribute::{
    DW_AT_high_pc, DW_AT_low_pc, DW_AT_ranges, DW_AT_unused_high, DW_AT_unused_table,
};
use crate::declaration::{Declaration, Spec};
use rb_bytes::fault::NoMemory;
use std::alloc::Global;
use std::collections::BTreeSet;
use table_core::form::{
    DW_FORM_addr, DW_FORM_addrx, DW_FORM_addrx1, DW_FORM_addrx4, DW_FORM_data4, DW_FORM_data8,
};

fn may_repeat(name: u64) -> bool
    ensures { result ≡ may_repeat name }
{
    DW_AT_unused_high <= name && name <= DW_AT_unused_table
}

/// Whether no attribute is named twice, except this project's own.
#[tactic(auto, using(crate::proofs::Named::named_step, crate::proofs::Named::named_end, crate::proofs::Named::names_step))]
pub fn are_named_once(alloc: Global, specs: &[Spec]) -> Result<bool, NoMemory>
    ensures { IfOk result (λ b. b ≡ are_named_once specs.now) }
{
    let mut later = BTreeSet::new(alloc);
    'specs: for index in (0..specs.len()).rev() {
        let name = specs[index].name;
        let again = later.contains(&name);
        if again && !may_repeat(name) {
            return Ok(false);
        }
        later.insert(name)?;
    }
    Ok(true)
}

/// Whether some attribute has an unknown form.
pub fn has_bad_form(declaration: &Declaration) -> bool
    ensures { result ≡ has_bad_form (told_declaration declaration.now) }
{
    declaration.specs.iter().any(|spec| !is_form(spec.form))
}

pub(crate) fn names(name: u64, specs: &[Spec]) -> bool
    ensures { result ≡ list_any (is_named name) specs.now }
{
    specs.iter().any(|spec| spec.name == name)
}

/// Whether a form's values are indexes into the table of addresses.
pub fn is_address_index(form: u64) -> bool
    ensures { result ≡ is_address_index form }
{
    form == DW_FORM_addrx || DW_FORM_addrx1 <= form && form <= DW_FORM_addrx4
}

// Whether it is a DW_AT_low_pc whose address is in the entry or in the address table.
fn is_low(spec: &Spec) -> bool
    ensures { result ≡ is_low spec.now }
{
    spec.name == DW_AT_low_pc && (spec.form == DW_FORM_addr || is_address_index(spec.form))
}

fn has_low(specs: &[Spec]) -> bool
    ensures { result ≡ list_any is_low specs.now }
{
    specs.iter().any(|spec| is_low(spec))
}

fn is_high_form(form: u64) -> bool
    ensures { result ≡ is_high_form form }
{
    form == DW_FORM_data4 || form == DW_FORM_data8 || form == DW_FORM_addr
}

// Whether it is a DW_AT_high_pc whose form has no room for the offset of a list, or an entry with it has DW_AT_ranges,
// or no low address.
fn is_bad_high(spec: &Spec, ranged: bool, low: bool) -> bool
    ensures { result ≡ (spec.now.name == DW_AT_high_pc && (not (is_high_form spec.now.form) || ranged || not low)) }
{
    spec.name == DW_AT_high_pc && (!is_high_form(spec.form) || ranged || !low)
}

/// Whether a declaration has a DW_AT_high_pc that can't become the offset of a range list in place.
pub fn has_bad_high(declaration: &Declaration) -> bool
    ensures { result ≡ has_bad_high (told_declaration declaration.now) }
{
    let ranged = names(DW_AT_ranges, &declaration.specs);
    let low = has_low(&declaration.specs);
    declaration
        .specs
        .iter()
        .any(|spec| is_bad_high(spec, ranged, low))
}
