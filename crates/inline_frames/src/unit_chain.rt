// The functions of a unit that contain an address. DWARF 5, sections 3.3.1 and 3.3.8.
ghost use Rattle.std.specs.Prelude.{◌≡◌, ◌<◌, ◌^◌, IfOk, IfSome, if◌then◌else◌, length, map, slice_index_or};
ghost use Rattle.dw_unit.specs.ListedEntries.{ListedEntry};
ghost use Rattle.inline_frames.specs.UnitChains as spec;

use crate::link::{Link, OwnSays, link_of, own_says};
use crate::tag::{DW_TAG_inlined_subroutine, DW_TAG_subprogram};
use dw_unit::Entry;
use rb_bytes::fault::NoMemory;
use std::alloc::Global;
use std::collections::BTreeSet;

// Whether an entry is a function, or an inlined instance of one, and its offset is among `covering`.
fn is_function(entry: &Entry, covering: &BTreeSet<u128>) -> bool
    ensures { result ≡ spec.is_function covering.now entry.now }
{
    (entry.tag == DW_TAG_subprogram || entry.tag == DW_TAG_inlined_subroutine)
        && covering.contains(&(entry.place as u128))
}

// `number` if it `counts`, and otherwise `before`.
fn later(counts: bool, number: usize, before: Option<usize>) -> Option<usize>
    ensures { result ≡ (if counts then Some number else before) }
{
    if counts { Some(number) } else { before }
}

// The index of the last function in `entries` with an offset among `covering`.
fn innermost(entries: &[Entry], covering: &BTreeSet<u128>) -> Option<usize>
    ensures chain { spec.chain_from covering.now entries.now result ≡ spec.unit_chain covering.now entries.now }
    ensures within { IfSome result (λ n. n < length entries.now) }
{
    let mut found = None;
    for number in 0..entries.len() {
        let counts = is_function(&entries[number], covering);
        found = later(counts, number, found);
    }
    found
}

fn depth_of(entries: &[Entry], number: usize) -> u64
    requires { number < length entries.now }
    ensures depth { (d : ListedEntry) → result ≡ (slice_index_or entries.now number d).depth }
    ensures below { result < 2 ^ 32 }
{
    let entry = &entries[number];
    entry.depth as u64
}

/// The functions of a unit that contain the address, from the last one out to one that isn't inlined. `covering` has
/// the offsets of the entries that cover the address.
pub fn links_in(
    alloc: Global,
    str_offsets: &[u8],
    entries: &[Entry],
    covering: &BTreeSet<u128>,
) -> Result<Vec<Link>, NoMemory>
    ensures { IfOk result (λ links. links.items ≡ map (spec.link_in str_offsets.now entries.now)
        (spec.unit_chain covering.now entries.now)) }
{
    let mut links = Vec::new(alloc);
    let Some(inner) = innermost(entries, covering) else {
        return Ok(links);
    };
    let own = own_says(entries);
    // Entries are in preorder: going back, each entry that is less deep than all before is the parent of the last such
    // one.
    let mut depth = depth_of(entries, inner) + 1;
    for number in (0..inner + 1).rev() {
        let entry = &entries[number];
        if entry.depth as u64 >= depth {
            continue;
        }
        depth = entry.depth as u64;
        if !is_function(entry, covering) {
            continue;
        }
        links.push(link_of(str_offsets, own, entry))?;
        if entry.tag == DW_TAG_subprogram {
            return Ok(links);
        }
    }
    Ok(links)
}
