// The location lists that may have expressions in force at an address.
ghost use Rattle.std.specs.Prelude.{◌≡◌, ◌++◌, ℕ, List, IfOk, OnOk};
ghost use Rattle.cover_lists.specs.ListFinder.{IsFinder, numbered, list_covers, has_default, default_numbers};
ghost use Rattle.cover_lists.specs.ListRuns.{AreCandidates, is_among};
ghost use Rattle.cover_lists.specs.declared.kept_list.KeptList as kept;

use crate::cover_index::sorted;
use crate::cover_tree::{Cover, CoverTree};
use crate::kept_list::KeptList;
use rb_bytes::fault::NoMemory;
use std::alloc::Global;

/// Location lists by the addresses in the bounds of their items.
#[derive(Drop)]
pub struct ListFinder {
    /// The bounds of the items of all lists, each with the list's number as its group.
    tree: CoverTree,
    /// The numbers of the lists that have expressions without bounds.
    unbounded: Vec<usize>,
}

fn covers_of(alloc: Global, lists: &[KeptList]) -> Result<Vec<Cover>, NoMemory>
    ensures { IfOk result (λ cs. cs.items ≡ numbered list_covers 0 lists.now) }
{
    let mut covers = Vec::new(alloc);
    for (number, list) in lists.iter().enumerate() {
        list.tree.put_regrouped(number, &mut covers)?;
    }
    Ok(covers)
}

fn put_unbounded(numbers: &mut Vec<usize>, number: usize, list: &KeptList) -> Result<(), NoMemory>
    ensures { OnOk result (numbers.new.items ≡ numbers.old.items ++ default_numbers number list.now) }
{
    match list.defaults.first() {
        Some(_) => {
            numbers.push(number)?;
            Ok(())
        }
        None => Ok(()),
    }
}

fn unbounded_of(alloc: Global, lists: &[KeptList]) -> Result<Vec<usize>, NoMemory>
    ensures { IfOk result (λ ns. (n : ℕ) → is_among ns.items n ≡ has_default lists.now n) }
{
    let mut numbers = Vec::new(alloc);
    for (number, list) in lists.iter().enumerate() {
        put_unbounded(&mut numbers, number, list)?;
    }
    Ok(numbers)
}

impl ListFinder {
    /// A finder for lists, which are numbered from 0.
    pub fn new(alloc: Global, lists: &[KeptList]) -> Result<ListFinder, NoMemory>
        ensures { IfOk result (λ f. IsFinder lists.now f) }
    {
        let numbered = covers_of(alloc, lists)?;
        let covers = sorted(alloc, &numbered)?;
        let tree = CoverTree::new(alloc, &covers)?;
        let unbounded = unbounded_of(alloc, lists)?;
        Ok(ListFinder { tree, unbounded })
    }

    /// The numbers of the lists that may have expressions in force at an address, ascending.
    pub fn find(&self, alloc: Global, a: u64) -> Result<Vec<usize>, NoMemory>
        ensures { (lists : List kept.KeptList) → IsFinder lists self.now →
            IfOk result (λ ns. AreCandidates lists a ns.items) }
    {
        let mut numbers = Vec::from_slice(alloc, &self.unbounded)?;
        self.tree.find(a, &mut numbers)?;
        numbers.sort_unstable();
        numbers.dedup();
        Ok(numbers)
    }
}
