// The indices of pages by number.
ghost use Rattle.std.specs.Prelude.{◌≡◌, ◌<◌, ◌==◌, ℕ, None, Some, IfOk, IsOk, OnErr, length, slice_index};
ghost use Rattle.std.specs.Prelude.{if◌then◌else◌};

use crate::page_group::PageGroup;
use rb_bytes::fault::NoMemory;
use std::alloc::Global;
use std::collections::BTreeMap;

/// The indices of pages, by number. Numbers with the same quotient by 64 form a group, whose key is the quotient.
#[derive(Drop)]
pub struct PageIndex {
    groups: BTreeMap<u64, PageGroup>,
    alloc: Global,
}

impl PageIndex {
    ghost use Rattle.rv_memory.specs.PageIndex.{place_of};

    /// An index of no pages.
    pub fn new(alloc: Global) -> PageIndex
        ensures { (q : ℕ) → place_of result q ≡ None }
    {
        PageIndex {
            groups: BTreeMap::new(alloc),
            alloc,
        }
    }

    /// The index of the page with a number.
    pub fn place(&self, number: u64) -> Option<usize>
        ensures { result ≡ place_of self.now number }
    {
        self.groups.get(&(number / GROUP_SIZE))?.place(number)
    }

    /// Adds a page. Nothing is added if memory runs out.
    pub fn insert(&mut self, number: u64, place: usize) -> Result<(), NoMemory>
        requires { place_of self.old number ≡ None }
        ensures added { IsOk result → (q : ℕ) → place_of self.new q ≡
            (if q == number then Some place else place_of self.old q) }
        ensures kept { OnErr result ((q : ℕ) → place_of self.new q ≡ place_of self.old q) }
    {
        if let Some(group) = self.groups.get_mut(&(number / GROUP_SIZE)) {
            return group.insert(number, place);
        }
        let group = PageGroup::new(self.alloc, number, place)?;
        self.groups.insert(number / GROUP_SIZE, group)?;
        Ok(())
    }
}

// The most numbers in a group.
const GROUP_SIZE: u64 = 64;
