// Sets of addresses that are near each other.
ghost use Rattle.std.specs.Prelude.{◌≡◌, ◌==◌, ◌||◌, ℕ, false, length, IfOk};

use rb_bytes::fault::NoMemory;
use std::alloc::Global;

/// A set of addresses of one range, with a mark for each address of the range.
#[derive(Drop)]
pub struct AddressSet {
    pub(crate) low: u64,
    pub(crate) marks: Vec<bool>,
}

impl AddressSet {
    ghost use Rattle.std.specs.Prelude.{◌≡◌, ◌==◌, ◌||◌, ℕ, false, length, IfOk};
    ghost use Rattle.edge_record.specs.AddressSets.{in_set, HasRoomFor, HaveSameRoom};

    /// An empty set, with room for the `size` addresses from `low` on.
    pub fn new(alloc: Global, low: u64, size: usize) -> Result<AddressSet, NoMemory>
        ensures none { IfOk result (λ set. (a : ℕ) → in_set set a ≡ false) }
        ensures low { IfOk result (λ set. set.low ≡ low) }
        ensures size { IfOk result (λ set. length set.marks.items ≡ size) }
    {
        let marks = Vec::from_elem(alloc, false, size)?;
        Ok(AddressSet { low, marks })
    }

    /// Adds `address`, which is in the set's range.
    pub fn insert(&mut self, address: u64)
        requires { HasRoomFor self.old address }
        ensures added { (a : ℕ) → in_set self.new a ≡ (address == a || in_set self.old a) }
        ensures room { HaveSameRoom self.old self.new }
    {
        let place = (address - self.low) as usize;
        self.marks[place] = true;
    }

    /// Whether `address` is in the set.
    pub fn has(&self, address: u64) -> bool
        ensures { result ≡ in_set self.now address }
    {
        if address < self.low {
            return false;
        }
        let place = (address - self.low) as usize;
        place < self.marks.len() && self.marks[place]
    }
}
