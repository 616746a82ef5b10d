// Location lists that are kept.
ghost use Rattle.std.specs.Prelude.{◌≡◌, ◌++◌, ◌∷◌, [], ℕ, IfOk, OnOk, IsTrue, Some, length, map, filter, filter_map};
ghost use Rattle.std.specs.Prelude.{option_map};
ghost use Rattle.std.specs.List.{cons_option};
ghost use Rattle.answer_runs.specs.Choices.{unless_empty};
ghost use Rattle.cover_lists.specs.Groups.{covers_for};
ghost use Rattle.cover_lists.specs.KeptLists.{items_in, numbered_covers, expression_of, bounded_numbers, unless_none};
ghost use Rattle.cover_lists.specs.KeptLists.{list_says, said_by, Says};
ghost use Rattle.cover_lists.specs.ListPlaces.{located_of};
ghost use Rattle.cover_lists.specs.Located.{expressions, is_default};

use crate::cover_index::sorted;
use crate::cover_tree::{Cover, CoverTree};
use crate::expressions::{same_bytes, same_expressions};
use crate::kept_list::KeptList;
use crate::list_place::Place;
use file_bounds::EXPRESSION_BYTES;
use rb_bytes::fault::NoMemory;
use std::alloc::Global;

fn put_copy(alloc: Global, copies: &mut Vec<Vec<u8>>, x: &[u8]) -> Result<(), NoMemory>
    ensures { OnOk result (items_in copies.new.items ≡ items_in copies.old.items ++ x.now ∷ []) }
{
    let copy = Vec::from_slice(alloc, x)?;
    copies.push(copy)?;
    Ok(())
}

fn copies_of(alloc: Global, expressions: &[Vec<u8>]) -> Result<Vec<Vec<u8>>, NoMemory>
    ensures { IfOk result (λ xs. items_in xs.items ≡ items_in expressions.now) }
{
    let mut copies = Vec::new(alloc);
    for expression in expressions {
        put_copy(alloc, &mut copies, expression.as_slice())?;
    }
    Ok(copies)
}

fn expression_of(expressions: &[Vec<u8>], number: usize) -> Option<&[u8]>
    ensures { option_map (λ x. x.now) result ≡ expression_of expressions.now number }
{
    let expression = expressions.get(number)?;
    Some(expression.as_slice())
}

fn put_option(
    alloc: Global,
    copies: &mut Vec<Vec<u8>>,
    expression: Option<&[u8]>,
) -> Result<(), NoMemory>
    ensures { OnOk result (items_in copies.new.items
        ≡ items_in copies.old.items ++ cons_option (option_map (λ x. x.now) expression.entry) []) }
{
    match expression {
        Some(x) => put_copy(alloc, copies, x),
        None => Ok(()),
    }
}

// Copies of the expressions of the items with some numbers.
fn numbered_copies(
    alloc: Global,
    expressions: &[Vec<u8>],
    numbers: &[usize],
) -> Result<Vec<Vec<u8>>, NoMemory>
    ensures { IfOk result (λ xs. items_in xs.items ≡ filter_map (expression_of expressions.now) numbers.now) }
{
    let mut copies = Vec::new(alloc);
    for number in numbers {
        put_option(alloc, &mut copies, expression_of(expressions, *number))?;
    }
    Ok(copies)
}

fn put_cover(covers: &mut Vec<Cover>, number: usize, place: Place<'_>) -> Result<(), NoMemory>
    ensures { OnOk result (covers.new.items
        ≡ covers.old.items ++ covers_for number (located_of place.entry).range) }
{
    match place.bounds {
        Some(bounds) => {
            covers.push(Cover {
                low: bounds.low,
                high: bounds.high,
                group: number,
            })?;
            Ok(())
        }
        None => Ok(()),
    }
}

// The bounds of items, each with its item's number. Items without bounds have none.
fn covers_of(alloc: Global, places: &[Place<'_>]) -> Result<Vec<Cover>, NoMemory>
    ensures { IfOk result (λ cs. cs.items ≡ numbered_covers 0 (map located_of places.now)) }
{
    let mut covers = Vec::new(alloc);
    for (number, place) in places.iter().enumerate() {
        put_cover(&mut covers, number, *place)?;
    }
    Ok(covers)
}

fn expressions_of(alloc: Global, places: &[Place<'_>]) -> Result<Vec<Vec<u8>>, NoMemory>
    ensures { IfOk result (λ xs. items_in xs.items ≡ expressions (map located_of places.now)) }
{
    let mut copies = Vec::new(alloc);
    for place in places {
        put_copy(alloc, &mut copies, place.expression)?;
    }
    Ok(copies)
}

fn put_default(alloc: Global, copies: &mut Vec<Vec<u8>>, place: Place<'_>) -> Result<(), NoMemory>
    ensures { OnOk result (items_in copies.new.items
        ≡ items_in copies.old.items ++ expressions (filter is_default (located_of place.entry ∷ []))) }
{
    match place.bounds {
        Some(_) => Ok(()),
        None => put_copy(alloc, copies, place.expression),
    }
}

fn defaults_of(alloc: Global, places: &[Place<'_>]) -> Result<Vec<Vec<u8>>, NoMemory>
    ensures { IfOk result (λ xs. items_in xs.items ≡ expressions (filter is_default (map located_of places.now))) }
{
    let mut copies = Vec::new(alloc);
    for place in places {
        put_default(alloc, &mut copies, *place)?;
    }
    Ok(copies)
}

// The size of the lists before, with that of a list's items.
fn size_with(places: &[Place<'_>], before: usize) -> usize {
    let mut size = before;
    for place in places {
        size = size
            .saturating_add(place.expression.len() / EXPRESSION_BYTES)
            .saturating_add(1);
    }
    size
}

/// Keeps a location list. `before` is the size of the lists that were kept before, to which its own is added.
pub fn keep_list(alloc: Global, places: &[Place<'_>], before: usize) -> Result<KeptList, NoMemory>
    ensures { IfOk result (λ l. Says l (map located_of places.now)) }
{
    let numbered = covers_of(alloc, places)?;
    let covers = sorted(alloc, &numbered)?;
    let tree = CoverTree::new(alloc, &covers)?;
    let expressions = expressions_of(alloc, places)?;
    let defaults = defaults_of(alloc, places)?;
    Ok(KeptList {
        tree,
        expressions,
        defaults,
        size: size_with(places, before),
    })
}

/// The numbers of the items whose ranges contain an address, ascending, in place of the numbers that were there.
pub(crate) fn numbers_at(list: &KeptList, a: u64, numbers: &mut Vec<usize>) -> Result<(), NoMemory>
    ensures { OnOk result (numbers.new.items ≡ bounded_numbers list.now.tree (length list.now.expressions.items) a) }
{
    numbers.clear();
    list.tree.find(a, numbers)?;
    numbers.sort_unstable();
    numbers.dedup();
    Ok(())
}

/// Copies of the expressions of the items with some numbers, or of the defaults if there are none.
pub(crate) fn copies_at(
    alloc: Global,
    list: &KeptList,
    numbers: &[usize],
) -> Result<Vec<Vec<u8>>, NoMemory>
    ensures { IfOk result (λ xs. items_in xs.items ≡ said_by list.now numbers.now) }
{
    let found = numbered_copies(alloc, &list.expressions, numbers)?;
    or_defaults(alloc, found, &list.defaults)
}

// The expressions that were found, or copies of the defaults if none were.
fn or_defaults(
    alloc: Global,
    found: Vec<Vec<u8>>,
    defaults: &[Vec<u8>],
) -> Result<Vec<Vec<u8>>, NoMemory>
    ensures { IfOk result (λ xs. items_in xs.items ≡ unless_none (items_in found.items) (items_in defaults.now)) }
{
    match found.first() {
        Some(_) => Ok(found),
        None => copies_of(alloc, defaults),
    }
}

/// The expressions of a list that are in force at an address, in its order.
pub fn in_force(alloc: Global, list: &KeptList, a: u64) -> Result<Vec<Vec<u8>>, NoMemory>
    ensures { IfOk result (λ xs. items_in xs.items ≡ list_says list.now a) }
{
    let mut numbers = Vec::new(alloc);
    numbers_at(list, a, &mut numbers)?;
    copies_at(alloc, list, &numbers)
}

// Whether an expression is that of the item with a number.
fn is_expression(expressions: &[Vec<u8>], number: usize, x: &[u8]) -> bool
    ensures { IsTrue result → expression_of expressions.now number ≡ Some x.now }
{
    match expression_of(expressions, number) {
        Some(y) => same_bytes(y, x),
        None => false,
    }
}

// Whether some expressions are those of the items with some numbers.
fn are_expressions(expressions: &[Vec<u8>], numbers: &[usize], xs: &[Vec<u8>]) -> bool
    ensures { IsTrue result → items_in xs.now ≡ filter_map (expression_of expressions.now) numbers.now }
{
    if xs.len() != numbers.len() {
        return false;
    }
    for i in 0..xs.len() {
        if !is_expression(expressions, numbers[i], xs[i].as_slice()) {
            return false;
        }
    }
    true
}

/// Whether `copies_at` would give these expressions, at least one. No copy is made.
pub(crate) fn is_said(list: &KeptList, numbers: &[usize], xs: &[Vec<u8>]) -> bool
    ensures { IsTrue result → unless_empty (said_by list.now numbers.now) ≡ Some (items_in xs.now) }
{
    if xs.is_empty() {
        return false;
    }
    if numbers.is_empty() {
        return same_expressions(&list.defaults, xs);
    }
    are_expressions(&list.expressions, numbers, xs)
}

// The cost of each expression after the first one, in answers. Each is copied, and usually there is one.
const COST_OF_MORE: usize = 16;

// The number of bytes of an expression that cost as much as an answer.
const BYTES_OF_COST: usize = 16;

/// The cost of the expressions of the items with some numbers, or of the defaults if there are none.
pub(crate) fn cost_at(list: &KeptList, numbers: &[usize]) -> usize {
    if numbers.is_empty() {
        let mut cost = cost_of(list.defaults.len());
        for expression in &list.defaults {
            cost = cost.saturating_add(expression.len() / BYTES_OF_COST);
        }
        return cost;
    }
    let mut cost = cost_of(numbers.len());
    for number in numbers {
        if let Some(expression) = expression_of(&list.expressions, *number) {
            cost = cost.saturating_add(expression.len() / BYTES_OF_COST);
        }
    }
    cost
}

// The cost of some expressions without their bytes.
fn cost_of(count: usize) -> usize {
    count
        .saturating_sub(1)
        .saturating_mul(COST_OF_MORE)
        .saturating_add(1)
}
