// Writing range lists. DWARF 5, sections 2.17.3, 2.18 and 7.28.
ghost use Rattle.std.specs.Prelude.{◌≡◌, ◌++◌, ◌+◌, ◌*◌, ◌^◌, ◌<◌, ◌∷◌, [], IfOk, OnOk, map};
ghost use Rattle.std.specs.BTreeMap.{get};
ghost use Rattle.std.specs.Ordering.{nat_cmp};
ghost use Rattle.dw_lists.specs.declared.list_kind.ListKind.TheVariants as kind;
ghost use Rattle.cover_lists.specs.KeptLists.{items_in};
ghost use Rattle.list_writer.specs.ListBytes.{list_bytes};
ghost use Rattle.list_writer.specs.WrittenRanges as spec;
ghost use Rattle.list_writer.specs.WrittenRanges.{AreKnownLists, AreNumberedLists, AreRangeLists, IsListPut};

use crate::list_writing::{put_end, put_entry};
use addr_map::AddrMap;
use answer_runs::Run;
use cover_lists::cost::is_too_much;
use cover_lists::entry_order::{entry_first, entry_place};
use cover_lists::group_runs::runs_in;
use cover_lists::groups::RangedEntry;
use dw_lists::list_kind::ListKind;
use dw_lists::named_list::NamedList;
use dw_unit::attribute::DW_AT_ranges;
use rb_bytes::fault::NoMemory;
use std::alloc::Global;
use std::collections::BTreeMap;

/// Range lists as they are written: the bytes of each, by its number, and the attributes that refer to them.
#[derive(Drop)]
pub struct RangeLists {
    pub lists: Vec<Vec<u8>>,
    /// DW_AT_ranges of each entry, also of those that had DW_AT_high_pc.
    pub named: Vec<NamedList>,
}

// Lists with their numbers, by the key of their group and of the address at which they begin.
#[derive(Drop)]
struct NumberedLists {
    lists: Vec<Vec<u8>>,
    known: BTreeMap<u128, usize>,
    /// How many runs were looked at for them.
    asked: usize,
}

fn put_run(out: &mut Vec<u8>, run: &Run<bool>) -> Result<(), NoMemory>
    ensures { OnOk result (out.new.items ≡ out.old.items ++ spec.run_bytes run.now) }
{
    put_entry(out, ListKind::Ranges, run.start, run.len, &[])
}

// Appends the list of some runs, and its end.
fn put_list(out: &mut Vec<u8>, runs: &[Run<bool>]) -> Result<(), NoMemory>
    ensures { OnOk result (out.new.items ≡ out.old.items ++ list_bytes kind.Ranges (map spec.bounded runs.now)) }
{
    for run in runs {
        put_run(out, run)?;
    }
    put_end(out)?;
    Ok(())
}

fn put_spelled(alloc: Global, all: &mut Vec<Vec<u8>>, runs: &[Run<bool>]) -> Result<(), NoMemory>
    ensures { OnOk result (items_in all.new.items
        ≡ items_in all.old.items ++ list_bytes kind.Ranges (map spec.bounded runs.now) ∷ []) }
{
    let mut bytes = Vec::new(alloc);
    put_list(&mut bytes, runs)?;
    all.push(bytes)?;
    Ok(())
}

fn key(group: usize, at: u64) -> u128
    ensures { result ≡ spec.key group at }
{
    ((group as u128) << 64) + at as u128
}

// The key of an entry's list.
fn key_of(map: &AddrMap, groups: &[Vec<Run<bool>>], entry: &RangedEntry) -> u128
    ensures { result ≡ spec.key_of map.now groups.now entry.now }
{
    let at = entry_place(map, runs_in(groups, entry.group), entry);
    key(entry.group, at)
}

fn known_number(known: &BTreeMap<u128, usize>, key: u128) -> Option<usize>
    ensures { result ≡ get nat_cmp known.now key }
{
    known.get(&key).copied()
}

// Adds the list of a group that begins at an address, unless there is one.
fn put_known(
    alloc: Global,
    lists: &mut Vec<Vec<u8>>,
    known: &mut BTreeMap<u128, usize>,
    groups: &[Vec<Run<bool>>],
    group: usize,
    at: u64,
) -> Result<(), NoMemory>
    requires { AreKnownLists groups.now lists.old.items known.old }
    ensures { OnOk result (IsListPut groups.now group at lists.old.items known.old lists.new.items known.new) }
{
    let key = key(group, at);
    if let Some(_) = known_number(known, key) {
        return Ok(());
    }
    let ordered = entry_first(alloc, runs_in(groups, group), at)?;
    let number = lists.len();
    put_spelled(alloc, lists, &ordered)?;
    known.insert(key, number)?;
    Ok(())
}

// Adds the list of an entry, one of `count`, unless there is one. Returns `NoMemory` also if too many runs would be
// looked at: a few bytes can give each of many entries a long list, or one that each enters at another address.
fn put_entry_list(
    alloc: Global,
    numbered: &mut NumberedLists,
    map: &AddrMap,
    groups: &[Vec<Run<bool>>],
    count: usize,
    entry: &RangedEntry,
) -> Result<(), NoMemory>
    requires { AreKnownLists groups.now numbered.old.lists.items numbered.old.known }
    ensures { OnOk result (spec.IsEntryPut map.now groups.now entry.now numbered.old.lists.items numbered.old.known
        numbered.new.lists.items numbered.new.known) }
{
    let runs = runs_in(groups, entry.group);
    numbered.asked = numbered.asked.saturating_add(runs.len());
    if is_too_much(numbered.asked, count) {
        return Err(NoMemory);
    }
    let at = entry_place(map, runs, entry);
    put_known(
        alloc,
        &mut numbered.lists,
        &mut numbered.known,
        groups,
        entry.group,
        at,
    )
}

// The lists of some entries, each once.
fn numbered_lists(
    alloc: Global,
    map: &AddrMap,
    groups: &[Vec<Run<bool>>],
    ranged: &[RangedEntry],
) -> Result<NumberedLists, NoMemory>
    ensures { IfOk result (λ n. AreNumberedLists map.now groups.now ranged.now n.lists.items n.known) }
{
    let mut numbered = NumberedLists {
        lists: Vec::new(alloc),
        known: BTreeMap::new(alloc),
        asked: 0,
    };
    for entry in ranged {
        put_entry_list(alloc, &mut numbered, map, groups, ranged.len(), entry)?;
    }
    Ok(numbered)
}

fn number_of(known: &BTreeMap<u128, usize>, key: u128) -> usize
    ensures { result ≡ spec.number_at known.now key }
{
    known.get(&key).copied().unwrap_or(0)
}

fn range_names(
    alloc: Global,
    map: &AddrMap,
    groups: &[Vec<Run<bool>>],
    known: &BTreeMap<u128, usize>,
    ranged: &[RangedEntry],
) -> Result<Vec<NamedList>, NoMemory>
    ensures { IfOk result (λ ns. ns.items ≡ spec.names_of map.now groups.now known.now ranged.now) }
{
    let mut named = Vec::new(alloc);
    for entry in ranged {
        let number = number_of(known, key_of(map, groups, entry));
        named.push(NamedList {
            place: entry.place,
            attr: DW_AT_ranges,
            own: entry.own,
            index: entry.index,
            list: number,
        })?;
    }
    Ok(named)
}

/// The range lists of entries, by the runs of new code whose owners are in the groups of their ranges. The range at
/// which an entry is entered comes first. Entries of one group that are entered at one address share a list.
pub fn range_lists(
    alloc: Global,
    ranged: &[RangedEntry],
    groups: &[Vec<Run<bool>>],
    map: &AddrMap,
) -> Result<RangeLists, NoMemory>
    ensures { IfOk result (λ l. AreRangeLists map.now groups.now ranged.now l.lists.items l.named.items) }
{
    let numbered = numbered_lists(alloc, map, groups, ranged)?;
    let named = range_names(alloc, map, groups, &numbered.known, ranged)?;
    Ok(RangeLists {
        lists: numbered.lists,
        named,
    })
}
