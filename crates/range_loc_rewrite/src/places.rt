// The offsets of entries by their numbers.
ghost use Rattle.std.specs.Prelude.{◌≡◌, IfOk, filter_map, option_map};
ghost use Rattle.answer_runs.specs.Choices.{unless_empty};
ghost use Rattle.cover_lists.specs.CoverIndex.{place_at};

use cover_lists::groups::RangedEntry;
use rb_bytes::fault::NoMemory;
use rb_bytes::lists::push_some;
use std::alloc::Global;

fn place_at(ranged: &[RangedEntry], number: usize) -> Option<u64>
    ensures { result ≡ place_at ranged.now number }
{
    let entry = ranged.get(number)?;
    Some(entry.place)
}

/// The offsets of the entries with some numbers, in their order.
pub fn places_of(
    alloc: Global,
    ranged: &[RangedEntry],
    numbers: &[usize],
) -> Result<Vec<u64>, NoMemory>
    ensures { IfOk result (λ ps. ps.items ≡ filter_map (place_at ranged.now) numbers.now) }
{
    let mut places = Vec::new(alloc);
    for number in numbers {
        push_some(&mut places, place_at(ranged, *number))?;
    }
    Ok(places)
}

/// The offsets, or none if the list is empty.
pub fn unless_empty(places: Vec<u64>) -> Option<Vec<u64>>
    ensures { option_map (λ ps. ps.items) result ≡ unless_empty places.items }
{
    if places.is_empty() {
        None
    } else {
        Some(places)
    }
}
