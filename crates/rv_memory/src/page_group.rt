// A small group of pages with close numbers.
ghost use Rattle.std.specs.Prelude.{◌≡◌, ◌<◌, ◌≤◌, ◌==◌, ℕ, None, Some, IfOk, IsOk, OnErr, length, slice_index};
ghost use Rattle.std.specs.Prelude.{if◌then◌else◌};

use rb_bytes::fault::NoMemory;
use rb_lanes::rank;
use std::alloc::Global;

/// Pages by ascending number, with the index of each.
#[derive(Drop)]
pub struct PageGroup {
    pub numbers: Vec<u64>,
    pub places: Vec<usize>,
    pub ghost paired: { length places.items ≡ length numbers.items },
    pub ghost ascending: { (i j : ℕ) → i < j → j < length numbers.items →
        slice_index numbers.items i < slice_index numbers.items j },
}

impl PageGroup {
    ghost use Rattle.rv_memory.specs.PageIndex.{beside, place_in};

    /// A group of one page.
    pub fn new(alloc: Global, number: u64, place: usize) -> Result<PageGroup, NoMemory>
        ensures { IfOk result (λ group. (q : ℕ) → place_in group q ≡ (if q == number then Some place else None)) }
    {
        let numbers = vec![in alloc; number]?;
        let places = vec![in alloc; place]?;
        Ok(PageGroup { numbers, places })
    }

    /// The index of the page with a number.
    pub fn place(&self, number: u64) -> Option<usize>
        ensures { result ≡ place_in self.now number }
    {
        let numbers: &[u64] = &self.numbers;
        let above = rank(numbers, number);
        if above == 0 {
            return None;
        }
        if numbers[above - 1] != number {
            return None;
        }
        Some(self.places[above - 1])
    }

    /// Adds a page. Nothing is added if memory runs out.
    pub fn insert(&mut self, number: u64, place: usize) -> Result<(), NoMemory>
        requires { place_in self.old number ≡ None }
        ensures added { IsOk result → (q : ℕ) → place_in self.new q ≡
            (if q == number then Some place else place_in self.old q) }
        ensures kept { OnErr result ((q : ℕ) → place_in self.new q ≡ place_in self.old q) }
    {
        self.numbers.reserve(1)?;
        self.places.reserve(1)?;
        let above = rank(&self.numbers, number);
        self.numbers.insert(above, number).unwrap();
        self.places.insert(above, place).unwrap();
        Ok(())
    }
}
