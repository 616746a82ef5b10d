// The answers of units at one address. No table is kept in which to look up other addresses.
ghost use Rattle.std.specs.Prelude.{◌≡◌, ◌++◌, ◌||◌, ℕ, IfErr, IfOk, OnOk, flat_map};
ghost use Rattle.std.specs.BTreeSet.{contains};
ghost use Rattle.std.specs.Ordering.{nat_cmp};
ghost use Rattle.rb_bytes.specs.FirstFault.{IsFree, IsRefusalBy};
ghost use Rattle.dw_unit.specs.Faults.{HasDwarfFault};
ghost use Rattle.cover_lists.specs.Groups.{group_holds, is_in_group};
ghost use Rattle.dw_lists.specs.Faults.{location_places};
ghost use Rattle.dw_lists.specs.Locations.{all_said, places_said};
ghost use Rattle.dw_lists.specs.Ranges as spec;
ghost use Rattle.dw_lists.specs.Tables.{list_sections};
ghost use Rattle.range_loc_rewrite.specs.OneAddress.{place_if, said_if};

use crate::located_places::{expressions_at, put_place};
use crate::place_answer::PlaceAt;
use crate::reading::read_entries;
use cover_lists::cover_tree::{Cover, holds};
use cover_lists::groups::RangedEntry;
use cover_lists::kept_list::KeptList;
use elf_image::Elf;
use file_bounds::PRINTED_BYTES;
use list_units::located_attr::LocatedAttr;
use rb_bytes::fault::{NoMemory, Refusal};
use std::alloc::Global;
use std::collections::BTreeSet;

/// The answers of a file's entries at an address.
#[derive(Drop)]
pub struct ListsAt {
    /// The offsets of the entries whose ranges contain the address, ascending.
    pub covers: Vec<u64>,
    /// The expressions in force at the address, by their entries and attributes.
    pub places: Vec<PlaceAt>,
}

// Adds the group of a range, if the range contains an address.
fn put_group(found: &mut BTreeSet<usize>, cover: &Cover, a: u64) -> Result<(), NoMemory>
    ensures { OnOk result ((g : ℕ) →
        contains nat_cmp found.new g ≡ (contains nat_cmp found.old g || is_in_group g a cover.now)) }
{
    if !holds(a, cover) {
        return Ok(());
    }
    found.insert(cover.group)?;
    Ok(())
}

// The groups of ranges that contain an address.
fn groups_at(alloc: Global, covers: &[Cover], a: u64) -> Result<BTreeSet<usize>, NoMemory>
    ensures { IfOk result (λ found. (g : ℕ) → contains nat_cmp found g ≡ group_holds covers.now g a) }
{
    let mut found = BTreeSet::new(alloc);
    for cover in covers {
        put_group(&mut found, cover, a)?;
    }
    Ok(found)
}

// Adds the offset of an entry, if its group was found.
fn put_covering(
    places: &mut Vec<u64>,
    entry: &RangedEntry,
    found: &BTreeSet<usize>,
) -> Result<(), NoMemory>
    ensures { OnOk result (places.new.items ≡ places.old.items ++ place_if found.now entry.now) }
{
    if !found.contains(&entry.group) {
        return Ok(());
    }
    places.push(entry.place)?;
    Ok(())
}

// The offsets of the entries whose groups were found.
fn covering(
    alloc: Global,
    ranged: &[RangedEntry],
    found: &BTreeSet<usize>,
) -> Result<Vec<u64>, NoMemory>
    ensures { IfOk result (λ places. places.items ≡ flat_map (place_if found.now) ranged.now) }
{
    let mut places = Vec::new(alloc);
    for entry in ranged {
        put_covering(&mut places, entry, found)?;
    }
    Ok(places)
}

// The memory of an expression without its bytes, in bytes, or a few more.
const EXPRESSION_SIZE: usize = 64;

// The memory of expressions, in bytes.
fn size_of(expressions: &[Vec<u8>]) -> usize {
    let mut size: usize = 0;
    for expression in expressions {
        size = size
            .saturating_add(EXPRESSION_SIZE)
            .saturating_add(expression.len());
    }
    size
}

// Adds the answer of an attribute at address `a`, if its group was found. `size` is the memory of all answers. Gives
// `NoMemory` also if that is over the limit.
fn put_said(
    alloc: Global,
    places: &mut Vec<PlaceAt>,
    lists: &[KeptList],
    located: &LocatedAttr,
    found: &BTreeSet<usize>,
    a: u64,
    size: &mut usize,
) -> Result<(), NoMemory>
    ensures { OnOk result (all_said places.new ≡ all_said places.old ++ said_if found.now lists.now a located.now) }
{
    if !found.contains(&located.group) {
        return Ok(());
    }
    let expressions = expressions_at(alloc, lists, &located.source, a)?;
    *size = size.saturating_add(size_of(&expressions));
    if *size > PRINTED_BYTES {
        return Err(NoMemory);
    }
    put_place(places, located.place, located.attr, expressions)?;
    Ok(())
}

// The answers at an address of the attributes whose groups were found.
fn said_at(
    alloc: Global,
    lists: &[KeptList],
    located: &[LocatedAttr],
    found: &BTreeSet<usize>,
    a: u64,
) -> Result<Vec<PlaceAt>, NoMemory>
    ensures { IfOk result (λ places. all_said places ≡ flat_map (said_if found.now lists.now a) located.now) }
{
    let mut places = Vec::new(alloc);
    let mut size = 0;
    for attr in located {
        put_said(alloc, &mut places, lists, attr, found, a, &mut size)?;
    }
    Ok(places)
}

/// The answers of a file's entries at an address, or the first fault of the sections that they are read from. Units are
/// walked once. Gives `NoMemory` also if the locations take more than 2^27 bytes of memory.
pub fn lists_at(alloc: Global, elf: &Elf, a: u64) -> Result<ListsAt, Refusal>
    ensures covers { IfOk result (λ t. t.covers.items ≡ spec.covering (list_sections elf.now) a) }
    ensures places { IfOk result (λ t. all_said t.places ≡ places_said (list_sections elf.now) a) }
    ensures free { OnOk result (IsFree (HasDwarfFault (location_places (list_sections elf.now)))) }
    ensures fault { IfErr result (IsRefusalBy (HasDwarfFault (location_places (list_sections elf.now)))) }
{
    let entries = read_entries(alloc, elf)?;
    let ranges = &entries.ranges;
    let found = groups_at(alloc, &ranges.groups.covers, a)?;
    let covers = covering(alloc, &ranges.ranged, &found)?;
    let places = &entries.places;
    let held = groups_at(alloc, &places.groups.covers, a)?;
    let said = said_at(alloc, &places.kept.lists, &places.kept.located, &held, a)?;
    Ok(ListsAt {
        covers,
        places: said,
    })
}
