// Names found by following references through a file. One walk over the units follows one reference of each naming.
ghost use Rattle.std.specs.Prelude.{◌≡◌, None, ℕ, IfOk, OnOk, if◌then◌else◌, is_some, map};
ghost use Rattle.std.specs.List.{list_any};
ghost use Rattle.std.specs.Option.{option_or};
ghost use Rattle.std.specs.Ordering.{nat_cmp};
ghost use Rattle.std.specs.BTreeMap.{get};
ghost use Rattle.std.specs.BTreeSet.{contains};
ghost use Rattle.inline_frames.specs.FileChains.{AreReadable, listed_units};
ghost use Rattle.inline_frames.specs.Following as spec;

use crate::holding::has_place;
use crate::link::own_says;
use crate::naming::{Naming, naming_of};
use dw_unit::{Entry, UnitReader};
use rb_bytes::fault::NoMemory;
use std::alloc::Global;
use std::collections::{BTreeMap, BTreeSet};

// The limit of references in a row. A naming that still refers to an entry after them, as in a cycle, has no name.
const REFERENCE_LIMIT: u8 = 16;

// The offset of the entry that `naming` refers to, if it does so.
fn target_of(naming: Naming) -> Option<u128>
    ensures { result ≡ spec.target_of naming }
{
    match naming {
        Naming::Named(_) => None,
        Naming::Refers(place) => Some(place),
    }
}

// Whether one of `namings` still refers to an entry.
fn is_any_left(namings: &[Naming]) -> bool
    ensures { result ≡ list_any (λ n. is_some (spec.target_of n)) namings.now }
{
    namings.iter().any(|naming| target_of(*naming).is_some())
}

// The offsets of the entries that `namings` refer to.
fn targets(alloc: Global, namings: &[Naming]) -> Result<BTreeSet<u128>, NoMemory>
    ensures { IfOk result (λ set. (q : ℕ) → contains nat_cmp set q ≡ list_any (spec.refers_to q) namings.now) }
{
    let mut set = BTreeSet::new(alloc);
    for naming in namings {
        if let Some(place) = target_of(*naming) {
            set.insert(place)?;
        }
    }
    Ok(set)
}

// Adds to `found` how the names of a unit's entries at the offsets `wanted` are found, except those that it has.
fn add_namings(
    str_offsets: &[u8],
    entries: &[Entry],
    wanted: &BTreeSet<u128>,
    found: &mut BTreeMap<u128, Naming>,
) -> Result<(), NoMemory>
    ensures { OnOk result ((q : ℕ) → get nat_cmp found.new q
        ≡ option_or (get nat_cmp found.old q) (if contains nat_cmp wanted.now q then spec.unit_naming str_offsets.now
        entries.now q else None)) }
{
    let own = own_says(entries);
    for entry in entries {
        let place = entry.place as u128;
        if !wanted.contains(&place) {
            continue;
        }
        if found.contains_key(&place) {
            continue;
        }
        found.insert(
            place,
            naming_of(str_offsets, own.text_base, entry.unit, &entry.attrs),
        )?;
    }
    Ok(())
}

// How the names of the entries at the offsets `wanted` are found. Units without any of them aren't read.
fn namings_at(
    alloc: Global,
    reader: &UnitReader<'_, '_>,
    str_offsets: &[u8],
    wanted: &BTreeSet<u128>,
) -> Result<BTreeMap<u128, Naming>, NoMemory>
    requires { AreReadable reader.now.abbrevs reader.now.addr reader.now.units }
    ensures { IfOk result (λ found. (q : ℕ) → get nat_cmp found q
        ≡ (if contains nat_cmp wanted.now q then spec.file_naming str_offsets.now
        (listed_units reader.now.abbrevs reader.now.units) q else None)) }
{
    let mut found = BTreeMap::new(alloc);
    let units = reader.units();
    for number in 0..units.len() {
        if !has_place(wanted, &units[number]) {
            continue;
        }
        let reading = reader.read(alloc, number)?;
        let Some(entries) = reading.entries else {
            // A file with a unit that can't be read was refused.
            unreachable!();
        };
        add_namings(str_offsets, &entries, wanted, &mut found)?;
    }
    Ok(found)
}

// `naming` with its reference followed, if it is one. An offset without an entry gives no name.
fn followed(naming: Naming, found: &BTreeMap<u128, Naming>) -> Naming
    ensures { result ≡ spec.followed_by (get nat_cmp found.now) naming }
{
    match naming {
        Naming::Named(text) => Naming::Named(text),
        Naming::Refers(place) => match found.get(&place) {
            Some(next) => *next,
            None => Naming::Named(None),
        },
    }
}

fn all_followed(
    alloc: Global,
    namings: &[Naming],
    found: &BTreeMap<u128, Naming>,
) -> Result<Vec<Naming>, NoMemory>
    ensures { IfOk result (λ ns. ns.items ≡ map (spec.followed_by (get nat_cmp found.now)) namings.now) }
{
    let mut next = Vec::new(alloc);
    for naming in namings {
        next.push(followed(*naming, found))?;
    }
    Ok(next)
}

/// `namings` with their references followed, at most `REFERENCE_LIMIT` in a row.
pub fn resolved(
    alloc: Global,
    reader: &UnitReader<'_, '_>,
    str_offsets: &[u8],
    namings: Vec<Naming>,
) -> Result<Vec<Naming>, NoMemory>
    requires { AreReadable reader.now.abbrevs reader.now.addr reader.now.units }
    ensures { IfOk result (λ ns. ns.items
        ≡ map (spec.followed_times str_offsets.now (listed_units reader.now.abbrevs reader.now.units) 16)
        namings.items) }
{
    let mut now = namings;
    for round in 0..REFERENCE_LIMIT {
        if !is_any_left(&now) {
            return Ok(now);
        }
        let wanted = targets(alloc, &now)?;
        let found = namings_at(alloc, reader, str_offsets, &wanted)?;
        now = all_followed(alloc, &now, &found)?;
    }
    Ok(now)
}
