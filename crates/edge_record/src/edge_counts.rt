// How often each move was made.
ghost use Rattle.std.specs.Prelude.{◌≡◌};

use indexmap::IndexMap;
use rb_bytes::fault::NoMemory;
use std::alloc::Global;

/// How often control went from one address to another, for each pair of addresses.
#[derive(Drop)]
pub struct EdgeCounts {
    pub(crate) counts: IndexMap<(u64, u64), u64>,
}

impl EdgeCounts {
    ghost use Rattle.std.specs.Prelude.{◌≡◌, ◌+◌, ◌<◌, ◌^◌, ◌-◌, ℕ, [], OnOk, IfOk, if◌then◌else◌};
    ghost use Rattle.edge_profile.specs.PairCounts.{count_among, is_pair};
    ghost use Rattle.edge_record.specs.EdgeCounts.{said_of};

    /// No counts.
    pub fn new(alloc: Global) -> EdgeCounts
        ensures { said_of result ≡ [] }
    {
        EdgeCounts {
            counts: IndexMap::new(alloc),
        }
    }

    /// Adds 1 to the count of moves from `from` to `to`.
    pub fn add(&mut self, from: u64, to: u64) -> Result<(), NoMemory>
        requires { count_among from to (said_of self.old) < 2 ^ 64 - 1 }
        ensures { OnOk result ((x y : ℕ) → count_among x y (said_of self.new)
            ≡ count_among x y (said_of self.old) + (if is_pair x y (from, to, 1) then 1 else 0)) }
    {
        match self.counts.get_mut(&(from, to)) {
            Some(count) => *count += 1,
            None => {
                self.counts.insert((from, to), 1)?;
            }
        }
        Ok(())
    }

    /// The pairs of addresses with their counts, in any order.
    pub fn said(&self, alloc: Global) -> Result<Vec<(u64, u64, u64)>, NoMemory>
        ensures { IfOk result (λ said. said.items ≡ said_of self.now) }
    {
        let mut said = Vec::new(alloc);
        for (pair, count) in &self.counts {
            said.push((pair.0, pair.1, *count))?;
        }
        Ok(said)
    }
}
