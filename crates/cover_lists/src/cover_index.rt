// The entries whose ranges contain an address.
ghost use Rattle.std.specs.Prelude.{◌≡◌, ◌++◌, ◌∷◌, [], ◌==◌, ◌<◌, ℕ, List, IfOk, OnOk};
ghost use Rattle.std.specs.Prelude.{if◌then◌else◌, flat_map, length, slice_get, Some};
ghost use Rattle.std.specs.List.{list_any};
ghost use Rattle.std.specs.List.Sorted.{IsPermutation};
ghost use Rattle.cover_lists.specs.Groups.{AreNumbered, AreWithin};
ghost use Rattle.cover_lists.specs.declared.cover_tree.Cover as spec;
ghost use Rattle.cover_lists.specs.declared.groups.RangedEntry as entry;
ghost use Rattle.cover_lists.specs.CoverIndex.{IsCoverIndex, members_in, held_numbers, is_member};

use crate::cover_tree::{Cover, CoverTree};
use crate::groups::{Groups, RangedEntry};
use rb_bytes::fault::NoMemory;
use std::alloc::Global;

/// Entries, numbered from 0, by the addresses in their ranges.
#[derive(Drop)]
pub struct CoverIndex {
    /// The ranges of all groups.
    tree: CoverTree,
    /// The numbers of the entries of each group, ascending.
    members: Vec<Vec<usize>>,
}

/// Ranges sorted by their first addresses, so that a search in their tree is fast.
pub fn sorted(alloc: Global, covers: &[Cover]) -> Result<Vec<Cover>, NoMemory>
    ensures { IfOk result (λ cs. IsPermutation covers.now cs.items) }
{
    let mut sorted = Vec::from_slice(alloc, covers)?;
    sorted.sort_unstable_by_key(|cover| cover.low);
    Ok(sorted)
}

fn no_members(alloc: Global, count: usize) -> Result<Vec<Vec<usize>>, NoMemory>
    ensures count { IfOk result (λ ms. length ms.items ≡ count) }
    ensures none { IfOk result (λ ms. (group : ℕ) → members_in ms.items group ≡ []) }
{
    let mut members = Vec::new(alloc);
    for number in 0..count {
        members.push(Vec::new(alloc))?;
    }
    Ok(members)
}

fn add_member(members: &mut Vec<Vec<usize>>, group: usize, number: usize) -> Result<(), NoMemory>
    requires { group < length members.old.items }
    ensures count { OnOk result (length members.new.items ≡ length members.old.items) }
    ensures more { OnOk result ((g : ℕ) → members_in members.new.items g
        ≡ (if g == group then members_in members.old.items g ++ number ∷ [] else members_in members.old.items g)) }
{
    members[group].push(number)?;
    Ok(())
}

fn group_of(ranged: &[RangedEntry], number: usize) -> usize
    requires { number < length ranged.now }
    ensures { (r : entry.RangedEntry) → slice_get ranged.now number ≡ Some r → result ≡ r.group }
{
    ranged[number].group
}

fn members_of(
    alloc: Global,
    count: usize,
    ranged: &[RangedEntry],
) -> Result<Vec<Vec<usize>>, NoMemory>
    requires { AreWithin count ranged.now }
    ensures count { IfOk result (λ ms. length ms.items ≡ count) }
    ensures each { IfOk result (λ ms. (g k : ℕ) →
        list_any (λ m. m == k) (members_in ms.items g) ≡ is_member ranged.now g k) }
{
    let mut members = no_members(alloc, count)?;
    for number in 0..ranged.len() {
        add_member(&mut members, group_of(ranged, number), number)?;
    }
    Ok(members)
}

impl CoverIndex {
    /// An index of entries by the ranges of their groups.
    pub fn new(
        alloc: Global,
        groups: &Groups,
        ranged: &[RangedEntry],
    ) -> Result<CoverIndex, NoMemory>
        requires numbered { AreNumbered groups.now }
        requires within { AreWithin groups.now.count ranged.now }
        ensures { IfOk result (λ index. IsCoverIndex groups.now.covers.items ranged.now index) }
    {
        let covers = sorted(alloc, &groups.covers)?;
        let tree = CoverTree::new(alloc, &covers)?;
        let members = members_of(alloc, groups.count, ranged)?;
        Ok(CoverIndex { tree, members })
    }

    /// The ranges of all groups.
    pub fn tree(&self) -> &CoverTree
        ensures { result.now ≡ self.now.tree }
    {
        &self.tree
    }

    fn members(&self, group: usize) -> &[usize]
        ensures { result.now ≡ members_in self.now.members.items group }
    {
        match self.members.get(group) {
            Some(members) => members,
            None => &[],
        }
    }

    // The numbers of the entries of groups, one group after another.
    fn all_members(&self, alloc: Global, groups: &[usize]) -> Result<Vec<usize>, NoMemory>
        ensures { IfOk result (λ ks. ks.items ≡ flat_map (members_in self.now.members.items) groups.now) }
    {
        let mut all = Vec::new(alloc);
        for group in groups {
            all.extend_from_slice(self.members(*group))?;
        }
        Ok(all)
    }

    /// The numbers of the entries whose ranges contain an address, ascending.
    pub fn find(&self, alloc: Global, a: u64) -> Result<Vec<usize>, NoMemory>
        ensures { (covers : List spec.Cover) (ranged : List entry.RangedEntry) → IsCoverIndex covers ranged self.now →
            IfOk result (λ ks. ks.items ≡ held_numbers covers ranged a) }
    {
        let mut groups = Vec::new(alloc);
        self.tree.find(a, &mut groups)?;
        let mut numbers = self.all_members(alloc, &groups)?;
        numbers.sort_unstable();
        numbers.dedup();
        Ok(numbers)
    }
}
