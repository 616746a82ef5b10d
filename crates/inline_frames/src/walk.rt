// The functions of a file that contain an address.
ghost use Rattle.std.specs.Prelude.{◌≡◌, ◌==◌, [], ℕ, IfOk};
ghost use Rattle.std.specs.List.{list_any};
ghost use Rattle.std.specs.Ordering.{nat_cmp};
ghost use Rattle.std.specs.BTreeSet.{contains};
ghost use Rattle.inline_frames.specs.FileChains as spec;

use crate::holding::has_place;
use crate::link::Link;
use crate::unit_chain::links_in;
use dw_unit::UnitReader;
use rb_bytes::fault::NoMemory;
use std::alloc::Global;
use std::collections::BTreeSet;

/// `places` as a set.
pub fn place_set(alloc: Global, places: &[u64]) -> Result<BTreeSet<u128>, NoMemory>
    ensures { IfOk result (λ set. (q : ℕ) → contains nat_cmp set q ≡ list_any (λ m. m == q) places.now) }
{
    let mut set = BTreeSet::new(alloc);
    for place in places {
        set.insert(*place as u128)?;
    }
    Ok(set)
}

// `links`, or `before` if there are none.
fn or_before(links: Vec<Link>, before: Vec<Link>) -> Vec<Link>
    ensures { result.items ≡ spec.or_before links.items before.items }
{
    if links.is_empty() { before } else { links }
}

/// The functions of a file that contain the address, from the innermost out to one that isn't inlined, in the last unit
/// that has any. `covering` has the offsets of the entries that cover the address.
pub fn file_links(
    alloc: Global,
    reader: &UnitReader<'_, '_>,
    str_offsets: &[u8],
    covering: &BTreeSet<u128>,
) -> Result<Vec<Link>, NoMemory>
    requires { spec.AreReadable reader.now.abbrevs reader.now.addr reader.now.units }
    ensures { IfOk result (λ links. links.items
        ≡ spec.file_links str_offsets.now covering.now [] (spec.listed_units reader.now.abbrevs reader.now.units)) }
{
    let mut found = Vec::new(alloc);
    let units = reader.units();
    for number in 0..units.len() {
        if !has_place(covering, &units[number]) {
            continue;
        }
        let reading = reader.read(alloc, number)?;
        let Some(entries) = reading.entries else {
            // A file with a unit that can't be read was refused.
            unreachable!();
        };
        let links = links_in(alloc, str_offsets, &entries, covering)?;
        found = or_before(links, found);
    }
    Ok(found)
}
