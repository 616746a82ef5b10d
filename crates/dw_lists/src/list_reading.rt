// Whole lists. DWARF 5, sections 2.6.2 and 2.17.3.
ghost use Rattle.std.specs.Prelude.{◌≡◌, ◌∷◌, ℕ, List, Option, Some, IfOk, length, map, option_map};
ghost use Rattle.dw_lists.specs.ListEntries.{items_within};
ghost use Rattle.dw_lists.specs.Lists.{bound_says};
ghost use Rattle.cover_lists.specs.Located.{Located};
ghost use Rattle.dw_lists.specs.ListReading.{looked_up, step_says, StepSays, FlowSays, item_of};
ghost use Rattle.cover_lists.specs.ListPlaces.{located_of};
ghost use Rattle.dw_lists.specs.ListReading.{said_from};

use crate::addresses::Addresses;
use crate::list_bound::Bound;
use crate::list_item::{ListItem, item};
use crate::list_kind::ListKind;
use cover_lists::list_place::{Bounds, Place};
use file_bounds::{BAD_LIST_BYTES, ENTRIES_A_PLACE, LIST_ENTRY_BYTES, LIST_PLACES};
use rb_bytes::cursor::Cursor;
use rb_bytes::fault::NoMemory;
use std::alloc::Global;

// The effect of an entry: the end of its list, a new base address, or a range with its expression.
#[derive(Clone, Copy)]
enum Step<'a> {
    End,
    Base(u64),
    Placed(Place<'a>),
}

fn placed(low: u128, high: u128, expression: &[u8]) -> Step<'_>
    ensures { (more : ℕ → Option (List Located)) (base : ℕ) → step_says more base (Some result)
        ≡ option_map (λ ls. record { range = Some (record { low = low; high = high }); expression = expression.now } ∷
        ls) (more base) }
{
    Step::Placed(Place {
        bounds: Some(Bounds { low, high }),
        expression,
    })
}

// The effect of an entry, by the base address; none if it uses an index without an address.
fn step_of<'a>(item: ListItem<'a>, base: u64, addresses: &Addresses) -> Option<Step<'a>>
    ensures { (more : ℕ → Option (List Located)) →
        bound_says (looked_up addresses.now.section.now addresses.now.base) more base item.entry.expression.now
        item.entry.bound
        ≡ step_says more base result }
{
    match item.bound {
        Bound::Base(a) => {
            let base = addresses.resolve(a)?;
            Some(Step::Base(base))
        }
        Bound::Between(a, b) => {
            let low = addresses.resolve(a)?;
            let high = addresses.resolve(b)?;
            Some(placed(low as u128, high as u128, item.expression))
        }
        Bound::Onward(a, len) => {
            let low = addresses.resolve(a)? as u128;
            Some(placed(low, low + len as u128, item.expression))
        }
        Bound::Offsets(m, n) => Some(placed(
            base as u128 + m as u128,
            base as u128 + n as u128,
            item.expression,
        )),
        Bound::Default => Some(Step::Placed(Place {
            bounds: None,
            expression: item.expression,
        })),
    }
}

// Reads the next entry; none if it can't be read.
fn read_step<'a>(
    list: ListKind,
    base: u64,
    addresses: &Addresses,
    cursor: &mut Cursor<'a>,
) -> Option<Step<'a>>
    ensures { StepSays list (looked_up addresses.now.section.now addresses.now.base) base cursor.old.left
        cursor.new.left result }
{
    let kind = match cursor.u8() {
        Ok(kind) => kind,
        Err(_) => return None,
    };
    if kind == 0 {
        return Some(Step::End);
    }
    match item(cursor, list, kind as u64) {
        Ok(item) => step_of(item, base, addresses),
        Err(_) => None,
    }
}

// Whether a list goes on after an entry, ends with it, or can't be read.
#[derive(Clone, Copy)]
enum Flow {
    More,
    End,
    Bad,
}

// Reads the next entry of a list, and changes the base address or adds a place.
fn take_step<'a>(
    list: ListKind,
    addresses: &Addresses,
    base: &mut u64,
    places: &mut Vec<Place<'a>>,
    cursor: &mut Cursor<'a>,
) -> Result<Flow, NoMemory>
    ensures { IfOk result (λ flow. FlowSays list (looked_up addresses.now.section.now addresses.now.base) base.old
        base.new
        cursor.old.left cursor.new.left (map located_of places.old.items) (map located_of places.new.items) flow) }
{
    match read_step(list, *base, addresses, cursor) {
        None => Ok(Flow::Bad),
        Some(step) => match step {
            Step::End => Ok(Flow::End),
            Step::Base(next) => {
                *base = next;
                Ok(Flow::More)
            }
            Step::Placed(place) => {
                places.push(place)?;
                Ok(Flow::More)
            }
        },
    }
}

// The most bytes below 0x80 in an entry without its expression: its kind, two addresses of eight bytes, and the last
// byte of each of three LEB128 numbers.
const MOST_ENDS: usize = 20;

// The bytes of an entry of `size` bytes without its expression. An entry without a place has no expression: then there
// are still `before` places.
fn own_size(places: &[Place<'_>], before: usize, size: usize) -> usize {
    if places.len() == before {
        return size;
    }
    match places.last() {
        Some(place) => size.saturating_sub(place.expression.len()),
        None => size,
    }
}

// Whether a list has too many entries without a place, or an entry has too many bytes without its expression.
fn is_dear(entries: usize, places: &[Place<'_>], own: usize) -> bool {
    entries / ENTRIES_A_PLACE > places.len().saturating_add(LIST_PLACES) || own > LIST_ENTRY_BYTES
}

// Whether a number of the entry at the front may have more than `BAD_LIST_BYTES` bytes: few of these are below 0x80, as
// only the last byte of a LEB128 number is.
fn may_be_long(bytes: &[u8]) -> bool {
    if bytes.len() <= BAD_LIST_BYTES {
        return false;
    }
    let (front, _) = bytes.split_at(BAD_LIST_BYTES);
    let mut ends: usize = 0;
    for byte in front {
        if *byte < 0x80 {
            ends = ends.saturating_add(1);
        }
    }
    ends < MOST_ENDS
}

// Whether finding that a list is bad may have taken long. `left` bytes are left from the bad entry on.
fn was_dear(bytes: &[u8], left: usize) -> bool {
    let read = bytes.len().saturating_sub(left).min(bytes.len());
    let (_, rest) = bytes.split_at(read);
    read > BAD_LIST_BYTES || may_be_long(rest)
}

/// The contents of the list at the front of some bytes, by a unit's base address and addresses; none if the list is
/// malformed, doesn't end in these bytes, or uses an index without an address.
///
/// Gives `NoMemory` also for a list that is long and has few places or can't be read: compilers make none, and each of
/// many entries could refer to it.
pub fn read_list<'a>(
    alloc: Global,
    list: ListKind,
    bytes: &'a [u8],
    base: u64,
    addresses: &Addresses,
) -> Result<Option<Vec<Place<'a>>>, NoMemory>
    ensures { IfOk result (λ r. option_map (λ v. map located_of v.items) r
        ≡ said_from (looked_up addresses.now.section.now addresses.now.base) base (items_within (item_of list) (length
        bytes.now) bytes.now)) }
{
    let mut cursor = Cursor::new(bytes);
    let mut base = base;
    let mut places = Vec::new(alloc);
    for i in 0..bytes.len() {
        let left = cursor.left();
        let before = places.len();
        match take_step(list, addresses, &mut base, &mut places, &mut cursor)? {
            Flow::More => {}
            Flow::End => return Ok(Some(places)),
            Flow::Bad => {
                if was_dear(bytes, left) {
                    return Err(NoMemory);
                }
                return Ok(None);
            }
        }
        let size = left.saturating_sub(cursor.left());
        if is_dear(i, &places, own_size(&places, before, size)) {
            return Err(NoMemory);
        }
    }
    Ok(None)
}
