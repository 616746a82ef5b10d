// Which units share a table of lists. DWARF 5, sections 7.28 and 7.29.
ghost use Rattle.std.specs.Prelude.{◌≡◌, ◌≢◌, ◌<◌, ◌≤◌, ℕ, IfOk, drop, length, slice_index_or, take};
ghost use Rattle.dw_lists.specs.declared.list_kind.ListKind as kinds;
ghost use Rattle.dw_lists.specs.declared.named_list.NamedList as code;
ghost use Rattle.list_writer.specs.TableGroups.{IsClaim, AreClaimed, IsGroup};
ghost use Rattle.list_writer.specs.WrittenTables.{AreLeft};

use dw_lists::indexed_unit::IndexedUnit;
use dw_lists::named_list::NamedList;
use rb_bytes::fault::NoMemory;
use std::alloc::Global;
use std::collections::BTreeMap;

// The number of attributes at the front that are of the unit whose own entry is at offset `own`.
fn unit_len(entries: &[NamedList], own: u64) -> usize
    ensures within { result ≤ length entries.now }
    ensures same { (k : ℕ) (d : code.NamedList) → k < result → (slice_index_or entries.now k d).own ≡ own }
    ensures next { (d : code.NamedList) → result < length entries.now →
        (slice_index_or entries.now result d).own ≢ own }
{
    let mut count = 0;
    for entry in entries {
        if entry.own != own {
            return count;
        }
        count += 1;
    }
    count
}

// Whether a unit may share the table of one before it, which has a base: it must have the same base, or use no index.
// `claim` tests that no index is used by both. A reader finds lists alike in a table of its own and in a shared one.
fn may_share(first: IndexedUnit, unit: IndexedUnit) -> bool {
    match (first.base, unit.base) {
        (Some(one), Some(other)) => one == other || unit.greatest.is_none(),
        (Some(_), None) => unit.greatest.is_none(),
        (None, _) => false,
    }
}

// Claims an index for the unit whose own entry is at offset `own`. Returns whether no other unit has it. `used` has the
// unit of each index.
fn claim_index(
    used: &mut BTreeMap<u64, u64>,
    own: u64,
    index: Option<u64>,
) -> Result<bool, NoMemory>
    ensures { IfOk result (IsClaim own index used.old used.new) }
{
    let Some(index) = index else {
        return Ok(true);
    };
    if let Some(other) = used.get(&index).copied() {
        return Ok(other == own);
    }
    used.insert(index, own)?;
    Ok(true)
}

// Claims the indexes of the attributes of a unit. Returns whether no other unit has one of them.
fn claim(used: &mut BTreeMap<u64, u64>, own: u64, entries: &[NamedList]) -> Result<bool, NoMemory>
    ensures { IfOk result (AreClaimed own entries.now used.old used.new) }
{
    for entry in entries {
        if !claim_index(used, own, entry.index)? {
            return Ok(false);
        }
    }
    Ok(true)
}

/// The number of units at the front that share a table, and the number of attributes at the front that are of these
/// units. Units share a table if they had the same base, or use no index, as long as no index is used by attributes of
/// two of them.
pub fn shared_len(
    alloc: Global,
    units: &[IndexedUnit],
    entries: &[NamedList],
) -> Result<(usize, usize), NoMemory>
    ensures within { IfOk result (λ n. (n.0 ≤ length units.now) × (n.1 ≤ length entries.now)) }
    ensures some { 0 < length units.now → IfOk result (λ n. 0 < n.0) }
    ensures group { (kind : kinds.ListKind) (lo bound : ℕ) → AreLeft kind lo bound entries.now units.now →
        IfOk result (λ n. IsGroup (take n.1 entries.now) (drop n.1 entries.now) (take n.0 units.now)
        (drop n.0 units.now)) }
{
    let mut used = BTreeMap::new(alloc);
    let mut taken = 0;
    for number in 0..units.len() {
        let unit = units[number];
        if number > 0 && !may_share(units[0], unit) {
            return Ok((number, taken));
        }
        let (_, rest) = entries.split_at(taken);
        let (mine, _) = rest.split_at(unit_len(rest, unit.own));
        if !claim(&mut used, unit.own, mine)? {
            return Ok((number, taken));
        }
        taken += mine.len();
    }
    Ok((units.len(), taken))
}
