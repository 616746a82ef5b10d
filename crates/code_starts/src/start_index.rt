// The starts of instructions, prepared for searches.
ghost use Rattle.std.specs.Prelude.{◌≡◌, ◌↔◌, ◌<◌, ◌^◌, ℕ, IfOk, IfSome, IsTrue, Some, AllPairs, Contains, slice_index};
ghost use Rattle.code_starts.specs.Parts.{ArePartsApart, HoldsAddress};

use crate::address_set::AddressSet;
use crate::parts::{Part, part_near};
use rb_bytes::fault::NoMemory;
use rb_lanes::Hints;
use std::alloc::Global;
use std::marker::Model;

// The most marks of addresses for each start. Code without gaps has at most four bytes for each.
const MOST_MARKS: usize = 8;

/// The starts of a file's instructions, ascending, as a set, and hints for searches among its parts.
#[derive(Drop)]
pub struct Starts<'a> {
    starts: &'a [u64],
    set: AddressSet,
    parts: Hints,
}

impl<'a> Model for Starts<'a> {
    ghost use Rattle.std.specs.Prelude.{ℕ, List};
    ghost use Rattle.code_starts.specs.StartSets.{IsSetOf};

    ghost Value = { List ℕ };

    ghost view = { λ s. s.starts.now };

    ghost invariant = { λ s. IsSetOf s.set s.starts.now };
}

impl<'a> Starts<'a> {
    /// Prepares an ascending list of starts for searches, also for their parts. `parts` are those of the file.
    pub fn new(alloc: Global, starts: &'a [u64], parts: &[Part]) -> Result<Starts<'a>, NoMemory>
        ensures { IfOk result (λ s. s ≡ starts.now) }
    {
        let low = starts.first().copied().unwrap_or(0);
        let last = starts.last().copied().unwrap_or(0);
        let width = last.saturating_sub(low).saturating_add(1) as usize;
        let most = starts.len().saturating_mul(MOST_MARKS);
        let set = AddressSet::new(alloc, starts, low, width.min(most))?;
        let parts = hints_of(alloc, parts)?;
        Ok(Starts { starts, set, parts })
    }

    /// The list. The contract also says that its members fit 64 bits.
    pub fn list(&self) -> &'a [u64]
        ensures is { result.now ≡ self.now }
        ensures low { (k : ℕ) → slice_index self.now k < 2 ^ 64 }
    {
        self.starts
    }

    /// Whether an instruction starts at `address`.
    pub fn has(&self, address: u64) -> bool
        requires { AllPairs (λ a b. a < b) self.now }
        ensures { IsTrue result ↔ Contains self.now address }
    {
        self.set.has(address)
    }

    /// The part that contains an address. The hints serve for the file's parts, and for most of them.
    pub fn part_at(&self, parts: &[Part], address: u64) -> Option<Part>
        requires { ArePartsApart parts.now }
        ensures holds { IfSome result (HoldsAddress parts.now address) }
        ensures only { (p : Part) → HoldsAddress parts.now address p → result ≡ Some p }
    {
        part_near(parts, self.parts.near(address), address)
    }
}

// Hints for searches among parts, by their starts.
fn hints_of(alloc: Global, parts: &[Part]) -> Result<Hints, NoMemory> {
    let mut begins = Vec::new(alloc);
    for part in parts {
        begins.push(part.start)?;
    }
    Ok(Hints::new(alloc, &begins)?)
}
