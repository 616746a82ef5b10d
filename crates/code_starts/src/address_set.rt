// Sets of addresses, most of which are near each other.
ghost use Rattle.std.specs.Prelude.{◌≡◌, ◌⊎◌, ◌↔◌, ◌+◌, ◌-◌, ◌<◌, ◌≤◌, ℕ, AllPairs, Contains, IsTrue};
ghost use Rattle.std.specs.Prelude.{IfNone, IfOk, IfSome, OnOk};
ghost use Rattle.code_starts.specs.AddressSets.{IsIn};

use elf_image::function_bounds::make_ascending;
use rb_bytes::fault::NoMemory;
use rb_lanes::is_member_from;
use std::alloc::Global;

/// A set of addresses: marks for a range of addresses, and a list of the members outside of it.
#[derive(Drop)]
pub struct AddressSet {
    /// The lowest address with a mark.
    low: u64,
    /// For each address from `low` on, whether it is a member.
    marks: Vec<bool>,
    /// The members without marks, ascending.
    others: Vec<u64>,
    ghost rises: { AllPairs (λ a b. a < b) others.items },
}

impl AddressSet {
    /// The set of these addresses, with `width` marks from the address `low` on.
    pub fn new(
        alloc: Global,
        addresses: &[u64],
        low: u64,
        width: usize,
    ) -> Result<AddressSet, NoMemory>
        ensures { IfOk result (λ set. (a : ℕ) →
            IsIn set.low set.marks.items set.others.items a ↔ Contains addresses.now a) }
    {
        let mut marks = vec![in alloc; false; width]?;
        let mut others = Vec::new(alloc);
        for address in addresses {
            put(&mut marks, &mut others, low, *address)?;
        }
        make_ascending(&mut others);
        Ok(AddressSet { low, marks, others })
    }

    /// Whether an address is a member.
    pub fn has(&self, address: u64) -> bool
        ensures { IsTrue result ↔ IsIn self.now.low self.now.marks.items self.now.others.items address }
    {
        match place_of(self.low, self.marks.len(), address) {
            Some(place) => self.marks[place],
            None => is_listed(&self.others, address),
        }
    }
}

// Marks an address, or adds it to the others.
fn put(marks: &mut Vec<bool>, others: &mut Vec<u64>, low: u64, address: u64) -> Result<(), NoMemory>
    ensures { OnOk result ((a : ℕ) → IsIn low marks.new.items others.new.items a
        ↔ (IsIn low marks.old.items others.old.items a ⊎ (address ≡ a))) }
{
    match place_of(low, marks.len(), address) {
        Some(place) => {
            marks[place] = true;
            Ok(())
        }
        None => {
            others.push(address)?;
            Ok(())
        }
    }
}

// The index of an address among `count` addresses from `low` on, if it is one of them.
fn place_of(low: u64, count: usize, address: u64) -> Option<usize>
    ensures is { IfSome result (λ k. (low + k ≡ address) × (k < count)) }
    ensures none { IfNone result (low ≤ address → count ≤ address - low) }
{
    if address < low || address - low >= count as u64 {
        return None;
    }
    Some((address - low) as usize)
}

// Whether an address is in an ascending list. No place in the list is nearer than another.
fn is_listed(addresses: &[u64], address: u64) -> bool
    requires { AllPairs (λ a b. a < b) addresses.now }
    ensures { IsTrue result ↔ Contains addresses.now address }
{
    let mut near = usize::MAX;
    is_member_from(addresses, &mut near, address)
}
