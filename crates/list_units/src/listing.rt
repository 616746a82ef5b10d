// The attributes of entries that refer to location lists. DWARF 5, section 7.29.
ghost use Rattle.std.specs.Prelude.{◌≡◌, ◌++◌, OnOk, option_and_then};
ghost use Rattle.dw_unit.specs.CompUnits as units;
ghost use Rattle.list_units.specs.Listing as spec;
ghost use Rattle.list_units.specs.UnitLocations.{number_in};

use crate::located_attr::Source;
use dw_lists::named_list::NamedList;
use dw_unit::{Attr, attr_named};
use rb_bytes::fault::NoMemory;
use table_core::form::DW_FORM_loclistx;

// The index by which an attribute refers to its list, if it does so.
fn list_index(attr: Attr) -> Option<u64>
    ensures { result ≡ spec.list_index attr }
{
    if attr.form == DW_FORM_loclistx {
        Some(attr.value)
    } else {
        None
    }
}

/// The index by which the attribute `name` refers to its list, if it is present and does so.
pub fn index_of(attrs: &[Attr], name: u64) -> Option<u64>
    ensures { (e : units.Entry) → e.attrs ≡ attrs.now → result ≡ spec.index_found name e }
{
    let attr = attr_named(name, attrs)?;
    list_index(*attr)
}

/// The number of the list with an attribute's expressions, if they are in a list.
pub fn number_of(source: &Option<Source>) -> Option<usize>
    ensures { result ≡ option_and_then number_in source.now }
{
    match source {
        Some(Source::Listed(number)) => Some(*number),
        Some(Source::Direct(_)) | None => None,
    }
}

/// Adds an attribute of the entry at `place` to those that refer to lists, if the list that it refers to was read:
/// `number`.
pub fn put_name(
    named: &mut Vec<NamedList>,
    place: u64,
    attr: u64,
    own: u64,
    index: Option<u64>,
    number: Option<usize>,
) -> Result<(), NoMemory>
    ensures { OnOk result (named.new.items ≡ named.old.items ++ spec.name_of place attr own index number) }
{
    match number {
        Some(list) => {
            named.push(NamedList {
                place,
                attr,
                own,
                index,
                list,
            })?;
            Ok(())
        }
        None => Ok(()),
    }
}
