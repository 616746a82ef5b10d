// Groups of ranges of entries.
ghost use Rattle.std.specs.Prelude.{◌≡◌, ◌++◌, ◌+◌, ◌<◌, ◌^◌, ◌∷◌, [], IfOk, OnOk, map, option_and_then};
ghost use Rattle.cover_lists.specs.EntryAddresses as entries;
ghost use Rattle.cover_lists.specs.Groups as spec;
ghost use Rattle.cover_lists.specs.Groups.{covers_in};
ghost use Rattle.cover_lists.specs.Located.{ranges_in};
ghost use Rattle.cover_lists.specs.ListPlaces.{located_of};

use crate::cover_tree::Cover;
use crate::list_place::Place;
use rb_bytes::fault::NoMemory;

/// Groups of ranges, numbered from 0. Entries that refer to the same list share its group.
#[derive(Drop)]
pub struct Groups {
    /// The ranges of all groups, each with its group's number.
    pub covers: Vec<Cover>,
    /// The number of groups.
    pub count: usize,
    /// The start of the first range of each group that has bytes.
    pub firsts: Vec<Option<u64>>,
}

/// An entry with ranges, and their group.
#[derive(Clone, Copy)]
pub struct RangedEntry {
    /// The entry's offset in `.debug_info`.
    pub place: u64,
    pub group: usize,
    /// The offset of the own entry of its unit.
    pub own: u64,
    /// The index by which it refers to its list, if it does so.
    pub index: Option<u64>,
    /// Its DW_AT_entry_pc, or else its DW_AT_low_pc, if it has one.
    pub entry: Option<u64>,
    /// The start of the first of its ranges that has bytes.
    pub first: Option<u64>,
}

// Appends the ranges of a list, as ranges of group `group`. Expressions without bounds have none.
fn put_covers(covers: &mut Vec<Cover>, group: usize, places: &[Place<'_>]) -> Result<(), NoMemory>
    ensures { OnOk result (covers.new.items ≡ covers.old.items ++ covers_in group (map located_of places.now)) }
{
    for place in places {
        if let Some(bounds) = place.bounds {
            covers.push(Cover {
                low: bounds.low,
                high: bounds.high,
                group,
            })?;
        }
    }
    Ok(())
}

// The start of a range, if it has bytes.
fn start_of(place: &Place<'_>) -> Option<u64>
    ensures { result ≡ entries.first_start (ranges_in (located_of place.now ∷ [])) }
{
    let bounds = place.bounds?;
    if bounds.low < bounds.high && bounds.low <= u64::MAX as u128 {
        Some(bounds.low as u64)
    } else {
        None
    }
}

// The start of the first range of a list that has bytes.
fn first_start(places: &[Place<'_>]) -> Option<u64>
    ensures { result ≡ entries.first_start (ranges_in (map located_of places.now)) }
{
    let mut first = None;
    for place in places {
        first = first.or(start_of(place));
    }
    first
}

/// The start of the first range of a group that has bytes.
pub fn first_in(groups: &Groups, group: Option<usize>) -> Option<u64>
    ensures { result ≡ option_and_then (spec.first_in groups.now) group }
{
    let number = group?;
    let first = groups.firsts.get(number)?;
    *first
}

/// Adds a group of the ranges of a list, and returns its number.
pub fn add_group(groups: &mut Groups, places: &[Place<'_>]) -> Result<usize, NoMemory>
    ensures number { IfOk result (λ n. n ≡ groups.old.count) }
    ensures count { OnOk result (groups.new.count ≡ groups.old.count + 1) }
    ensures covers { OnOk result (groups.new.covers.items
        ≡ groups.old.covers.items ++ covers_in groups.old.count (map located_of places.now)) }
    ensures firsts { OnOk result (groups.new.firsts.items
        ≡ groups.old.firsts.items ++ entries.first_start (ranges_in (map located_of places.now)) ∷ []) }
{
    let group = groups.count;
    let Some(count) = group.checked_add(1) else {
        return Err(NoMemory);
    };
    put_covers(&mut groups.covers, group, places)?;
    groups.firsts.push(first_start(places))?;
    groups.count = count;
    Ok(group)
}
