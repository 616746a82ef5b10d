// The declarations of the written `.debug_abbrev`.
ghost use Rattle.std.specs.Prelude.{◌≡◌, ◌++◌, ◌&&◌, Bool, OnOk, flat_map};
ghost use Rattle.std.specs.List.{list_any};
ghost use Rattle.dw_unit.specs.Changes.{is_whole_low, new_name, spec_bytes, changed_spec, ranges_specs};
ghost use Rattle.dw_unit.specs.Changes.{declaration_bytes};
ghost use Rattle.dw_unit.specs.Declarations as declared;
ghost use Rattle.dw_unit.specs.NewNames.{IsNaming};
ghost use Rattle.dw_unit.specs.Told.{told_declaration};

use crate::attribute::{
    DW_AT_GNU_locviews, DW_AT_entry_pc, DW_AT_high_pc, DW_AT_low_pc, DW_AT_macros, DW_AT_ranges,
    DW_AT_unused_high, DW_AT_unused_low, DW_AT_unused_table,
};
use crate::declaration::{Declaration, Spec};
use crate::declaration_tests::names;
use crate::naming::Naming;
use rb_bytes::fault::NoMemory;
use rb_bytes::leb::{put_sleb, put_uleb};
use table_core::form::{DW_FORM_addr, DW_FORM_data4, DW_FORM_implicit_const, DW_FORM_sec_offset};

// Whether it is a DW_AT_low_pc whose address is in the entry.
fn is_whole_low(spec: &Spec) -> bool
    ensures { result ≡ is_whole_low spec.now }
{
    spec.name == DW_AT_low_pc && spec.form == DW_FORM_addr
}

fn has_whole_low(specs: &[Spec]) -> bool
    ensures { result ≡ list_any is_whole_low specs.now }
{
    specs.iter().any(|spec| is_whole_low(spec))
}

// Whether DW_AT_low_pc keeps its name. It does in a unit's own entry, as the base address of the unit's lists; `is_own`
// is set if an own entry has the declaration.
fn keeps_low(is_own: bool, specs: &[Spec]) -> bool
    ensures { result ≡ (is_own && list_any is_whole_low specs.now) }
{
    if is_own { has_whole_low(specs) } else { false }
}

// What the new names of a declaration's attributes depend on.
fn naming(is_own: bool, declaration: &Declaration) -> Naming
    ensures { IsNaming is_own (told_declaration declaration.now) result }
{
    Naming {
        keeps_low: keeps_low(is_own, &declaration.specs),
        has_high: names(DW_AT_high_pc, &declaration.specs),
        has_entry: names(DW_AT_entry_pc, &declaration.specs),
    }
}

// The new name of an attribute other than DW_AT_high_pc. If that becomes DW_AT_ranges, DW_AT_low_pc is no bound any
// more: it becomes DW_AT_entry_pc, or an unused name if the declaration has DW_AT_entry_pc already.
fn new_name(naming: Naming, name: u64) -> u64
    ensures { (is_own : Bool) (d : declared.Declaration) → IsNaming is_own d naming → result ≡ new_name is_own d name }
{
    if name == DW_AT_low_pc && naming.has_high && !naming.keeps_low {
        return if naming.has_entry {
            DW_AT_unused_low
        } else {
            DW_AT_entry_pc
        };
    }
    if name == DW_AT_macros || name == DW_AT_GNU_locviews {
        DW_AT_unused_table
    } else {
        name
    }
}

fn put_spec(out: &mut Vec<u8>, spec: Spec) -> Result<(), NoMemory>
    ensures { OnOk result (out.new.items ≡ out.old.items ++ spec_bytes spec) }
{
    put_uleb(out, spec.name)?;
    put_uleb(out, spec.form)?;
    if spec.form == DW_FORM_implicit_const {
        put_sleb(out, spec.implicit.cast_signed())?;
    }
    Ok(())
}

// Appends what replaces a DW_AT_high_pc: DW_AT_ranges with an offset of four bytes, and an unused name for the other
// four if it had eight.
fn put_ranges(out: &mut Vec<u8>, form: u64) -> Result<(), NoMemory>
    ensures { OnOk result (out.new.items ≡ out.old.items ++ flat_map spec_bytes (ranges_specs form)) }
{
    put_spec(
        out,
        Spec {
            name: DW_AT_ranges,
            form: DW_FORM_sec_offset,
            implicit: 0,
        },
    )?;
    if form == DW_FORM_data4 {
        return Ok(());
    }
    put_spec(
        out,
        Spec {
            name: DW_AT_unused_high,
            form: DW_FORM_data4,
            implicit: 0,
        },
    )
}

// Appends a pair of a declaration with its changes.
fn put_changed(out: &mut Vec<u8>, naming: Naming, spec: Spec) -> Result<(), NoMemory>
    ensures { OnOk result ((is_own : Bool) (d : declared.Declaration) → IsNaming is_own d naming →
        out.new.items ≡ out.old.items ++ flat_map spec_bytes (changed_spec is_own d spec)) }
{
    if spec.name == DW_AT_high_pc {
        return put_ranges(out, spec.form);
    }
    put_spec(
        out,
        Spec {
            name: new_name(naming, spec.name),
            form: spec.form,
            implicit: spec.implicit,
        },
    )
}

// Appends the pairs of a declaration with their changes.
fn put_specs(out: &mut Vec<u8>, naming: Naming, specs: &[Spec]) -> Result<(), NoMemory>
    ensures { OnOk result ((is_own : Bool) (d : declared.Declaration) → IsNaming is_own d naming →
        out.new.items ≡ out.old.items ++ flat_map spec_bytes (flat_map (changed_spec is_own d) specs.now)) }
{
    for spec in specs {
        put_changed(out, naming, *spec)?;
    }
    Ok(())
}

/// Appends a declaration with its changes.
pub fn put_declaration(
    out: &mut Vec<u8>,
    is_own: bool,
    declaration: &Declaration,
) -> Result<(), NoMemory>
    ensures { OnOk result (out.new.items ≡ out.old.items
        ++ declaration_bytes is_own (told_declaration declaration.now)) }
{
    let naming = naming(is_own, declaration);
    put_uleb(out, declaration.code)?;
    put_uleb(out, declaration.tag)?;
    out.push(declaration.children as u8)?;
    put_specs(out, naming, &declaration.specs)?;
    out.extend_from_slice(&[0, 0])?;
    Ok(())
}
