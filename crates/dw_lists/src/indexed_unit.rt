// The list indexes that units use, and the weight of the offset tables that they need. DWARF 5, sections 7.28 and 7.29.
ghost use Rattle.std.specs.Prelude.{◌≡◌, ◌++◌, ◌∷◌, [], ◌-◌, ◌+◌, ◌*◌, ◌^◌, ℕ, List, OnOk, min, sum_by};
ghost use Rattle.dw_unit.specs.ListedUnits.{plain_unit};
ghost use Rattle.dw_lists.specs.IndexedUnits as indexed;
ghost use Rattle.dw_lists.specs.ListReading.{kind_of};
ghost use Rattle.dw_lists.specs.Weights as spec;

use crate::list_kind::ListKind;
use crate::list_section::index_form;
use crate::unit_lists::lists_base;
use dw_unit::{Attr, Entry};
use rb_bytes::fault::NoMemory;

/// The list indexes of a kind that a unit uses.
#[derive(Clone, Copy)]
pub struct IndexedUnit {
    /// The offset of its own entry in `.debug_info`.
    pub own: u64,
    /// The base of its list offsets, if it has one.
    pub base: Option<u64>,
    /// The greatest of its indexes, in any attribute.
    pub greatest: Option<u64>,
}

// The weight of a table without its offsets and lists.
const TABLE_WEIGHT: u64 = 32;

// The weight of an offset.
const OFFSET_WEIGHT: u64 = 4;

// The greatest of some indexes and `index`, by the greatest of the others.
fn greater(greatest: Option<u64>, index: u64) -> Option<u64>
    ensures { (before : List ℕ) → greatest ≡ spec.greatest before → result ≡ spec.greatest (before ++ index ∷ []) }
{
    match greatest {
        Some(other) => {
            if other < index {
                Some(index)
            } else {
                Some(other)
            }
        }
        None => Some(index),
    }
}

// The greatest of some indexes and that of an attribute, if it has the form.
fn noted(form: u64, attr: Attr, greatest: Option<u64>) -> Option<u64>
    ensures { (before : List ℕ) → greatest ≡ spec.greatest before →
        result ≡ spec.greatest (before ++ spec.indexes_in form (attr ∷ [])) }
{
    if attr.form == form {
        greater(greatest, attr.value)
    } else {
        greatest
    }
}

// The greatest of some indexes, `others`, and those of the attributes with the form.
fn greatest_in(form: u64, attrs: &[Attr], others: Option<u64>) -> Option<u64>
    ensures { (before : List ℕ) → others ≡ spec.greatest before →
        result ≡ spec.greatest (before ++ spec.indexes_in form attrs.now) }
{
    let mut greatest = others;
    for attr in attrs {
        greatest = noted(form, *attr, greatest);
    }
    greatest
}

// The greatest of some indexes, `others`, and those of an entry.
fn greatest_of(form: u64, entry: &Entry, others: Option<u64>) -> Option<u64>
    ensures { (before : List ℕ) → others ≡ spec.greatest before →
        result ≡ spec.greatest (before ++ spec.indexes_in form entry.now.attrs) }
{
    greatest_in(form, &entry.attrs, others)
}

// The greatest index in attributes of a unit's entries with the form, if one has the form.
fn greatest_index(form: u64, entries: &[Entry]) -> Option<u64>
    ensures { result ≡ spec.greatest (spec.indexes form (plain_unit entries.now)) }
{
    let mut greatest = None;
    for entry in entries {
        greatest = greatest_of(form, entry, greatest);
    }
    greatest
}

/// Adds the list indexes of a kind that the unit of some entries uses, if it has an entry.
pub fn put_indexed(
    units: &mut Vec<IndexedUnit>,
    kind: ListKind,
    entries: &[Entry],
) -> Result<(), NoMemory>
    ensures { OnOk result (units.new.items
        ≡ units.old.items ++ indexed.indexed_of (kind_of kind) (plain_unit entries.now)) }
{
    let base = lists_base(kind, entries);
    let greatest = greatest_index(index_form(kind), entries);
    match entries.first() {
        Some(own) => {
            units.push(IndexedUnit {
                own: own.place,
                base,
                greatest,
            })?;
            Ok(())
        }
        None => Ok(()),
    }
}

// The weight of a table with an offset for each index up to the greatest, without its lists; 0 if there is no index.
fn table_weight(unit: IndexedUnit) -> u64
    ensures { result ≡ min (indexed.table_weight unit) (2 ^ 64 - 1) }
{
    match unit.greatest {
        Some(index) => {
            let offsets = index.saturating_add(1).saturating_mul(OFFSET_WEIGHT);
            offsets.saturating_add(TABLE_WEIGHT)
        }
        None => 0,
    }
}

/// The weight of the offset tables that units need for their indexes, saturated at 2^64 - 1.
pub fn tables_weight(units: &[IndexedUnit]) -> u64
    ensures { result ≡ min (sum_by indexed.table_weight units.now) (2 ^ 64 - 1) }
{
    let mut weight: u64 = 0;
    for unit in units {
        weight = weight.saturating_add(table_weight(*unit));
    }
    weight
}
