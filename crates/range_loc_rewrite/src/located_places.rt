// The locations of entries at an address, by the attributes and lists that are kept.
ghost use Rattle.std.specs.Prelude.{◌≡◌, ◌++◌, ◌∷◌, [], IfOk, OnOk, flat_map, map, option_map, slice_get};
ghost use Rattle.std.specs.Option.{option_copied};
ghost use Rattle.answer_runs.specs.Choices as choices;
ghost use Rattle.cover_lists.specs.KeptLists.{items_in};
ghost use Rattle.range_loc_rewrite.specs.KeptPlaces.{said_by_number, ranged_of};
ghost use Rattle.dw_lists.specs.Locations.{all_said, attr_says};
ghost use Rattle.list_units.specs.UnitLocations.{source_says};

use crate::place_answer::PlaceAt;
use cover_lists::groups::RangedEntry;
use cover_lists::kept_list::KeptList;
use cover_lists::kept_lists::in_force;
use list_units::located_attr::{LocatedAttr, Locations, Source};
use rb_bytes::fault::NoMemory;
use std::alloc::Global;

fn only(alloc: Global, expression: &[u8]) -> Result<Vec<Vec<u8>>, NoMemory>
    ensures { IfOk result (λ xs. items_in xs.items ≡ expression.now ∷ []) }
{
    let copy = Vec::from_slice(alloc, expression)?;
    let mut only = Vec::new(alloc);
    only.push(copy)?;
    Ok(only)
}

/// Copies of the expressions of an attribute that are in force at an address, from their source.
pub fn expressions_at(
    alloc: Global,
    lists: &[KeptList],
    source: &Source,
    a: u64,
) -> Result<Vec<Vec<u8>>, NoMemory>
    ensures { IfOk result (λ xs. items_in xs.items ≡ source_says lists.now a source.now) }
{
    match source {
        Source::Direct(expression) => only(alloc, expression.as_slice()),
        Source::Listed(number) => match lists.get(*number) {
            Some(list) => in_force(alloc, list, a),
            None => Ok(Vec::new(alloc)),
        },
    }
}

/// Adds the answer of an attribute of the entry at `place`, unless it has no expressions in force.
pub fn put_place(
    places: &mut Vec<PlaceAt>,
    place: u64,
    attr: u64,
    expressions: Vec<Vec<u8>>,
) -> Result<(), NoMemory>
    ensures { OnOk result (all_said places.new
        ≡ all_said places.old ++ attr_says place attr (items_in expressions.items)) }
{
    match expressions.first() {
        Some(_) => {
            places.push((place, attr, expressions))?;
            Ok(())
        }
        None => Ok(()),
    }
}

fn attr_of(kept: &Locations, number: usize) -> Option<&LocatedAttr>
    ensures { option_copied result ≡ slice_get kept.now.located.items number }
{
    kept.located.get(number)
}

// Adds the answer of the attribute with a number at an address.
fn put_number(
    alloc: Global,
    kept: &Locations,
    number: usize,
    a: u64,
    places: &mut Vec<PlaceAt>,
) -> Result<(), NoMemory>
    ensures { OnOk result (all_said places.new ≡ all_said places.old ++ said_by_number kept.now a number) }
{
    match attr_of(kept, number) {
        Some(located) => {
            let expressions = expressions_at(alloc, &kept.lists, &located.source, a)?;
            put_place(places, located.place, located.attr, expressions)?;
            Ok(())
        }
        None => Ok(()),
    }
}

/// The answers of the attributes with some numbers at an address, in the order of the numbers.
pub fn places_at(
    alloc: Global,
    kept: &Locations,
    numbers: &[usize],
    a: u64,
) -> Result<Vec<PlaceAt>, NoMemory>
    ensures { IfOk result (λ ps. all_said ps ≡ flat_map (said_by_number kept.now a) numbers.now) }
{
    let mut places = Vec::new(alloc);
    for number in numbers {
        put_number(alloc, kept, *number, a, &mut places)?;
    }
    Ok(places)
}

/// The answers, or none if the list is empty.
pub fn unless_empty(places: Vec<PlaceAt>) -> Option<Vec<PlaceAt>>
    ensures { option_map all_said result ≡ choices.unless_empty (all_said places) }
{
    if places.is_empty() {
        None
    } else {
        Some(places)
    }
}

/// For each attribute its entry, with the group of the entry's nearest ranges. They are for an index by address, which
/// needs no other fields of an entry: these are left empty.
pub fn ranged_of(alloc: Global, located: &[LocatedAttr]) -> Result<Vec<RangedEntry>, NoMemory>
    ensures { IfOk result (λ rs. rs.items ≡ map ranged_of located.now) }
{
    let mut ranged = Vec::new(alloc);
    for attr in located {
        ranged.push(RangedEntry {
            place: attr.place,
            group: attr.group,
            own: 0,
            index: None,
            entry: None,
            first: None,
        })?;
    }
    Ok(ranged)
}
