// What is in a written file after all that it loads.
ghost use Rattle.std.specs.Prelude.{◌≡◌, ◌+◌, IfOk, length};

use elf_parts::patch::fill_to;
use elf_plan::round::{checked_rounded_up, sum};
use elf_plan::unwritable::Unwritable;
use file_bounds::OUTPUT_BYTES;
use std::alloc::Global;

/// `end`, or `TooLarge` if no file may have as many bytes.
pub fn limited(end: u64) -> Result<u64, Unwritable>
    ensures { IfOk result (λ e. e ≡ end) }
{
    if end > OUTPUT_BYTES {
        Err(Unwritable::TooLarge)
    } else {
        Ok(end)
    }
}

/// Where `size` bytes end that are at the first multiple of `align` at or after `end`. An alignment of 0 means none.
pub fn end_behind(end: u64, align: u64, size: usize) -> Result<u64, Unwritable> {
    let start = checked_rounded_up(align.max(1), end)?;
    limited(sum(start, size as u64)?)
}

/// The end of a file, from the offset `base` on, to which bytes are added.
#[derive(Drop)]
pub struct Tail {
    /// The offset at which its bytes begin.
    pub base: u64,
    bytes: Vec<u8>,
}

impl Tail {
    ghost use Rattle.std.specs.Prelude.{◌≡◌, ◌+◌, ◌-◌, ◌≤◌, ℕ, List, [], IfOk, OnOk, length, max};
    ghost use Rattle.elf_image.specs.memory.Break.{rounded_up};
    ghost use Rattle.elf_parts.specs.Patches.{Stands};

    /// No bytes, from the offset `base` on.
    pub fn new(alloc: Global, base: u64) -> Tail
        ensures base { result.base ≡ base }
        ensures empty { result.bytes.items ≡ [] }
    {
        Tail {
            base,
            bytes: Vec::new(alloc),
        }
    }

    /// Where the file ends now.
    pub fn end(&self) -> Result<u64, Unwritable>
        ensures { IfOk result (λ end. end ≡ self.now.base + length self.now.bytes.items) }
    {
        sum(self.base, self.bytes.len() as u64)
    }

    /// Adds zeros up to a multiple of `align` (0 means none), and gives the offset at which the file ends then.
    pub fn align_to(&mut self, align: u64) -> Result<u64, Unwritable>
        ensures base { self.new.base ≡ self.old.base }
        ensures behind { IfOk result (λ place. self.old.base ≤ place) }
        ensures place { IfOk result (λ place.
            place ≡ rounded_up (max 1 align) (self.old.base + length self.old.bytes.items)) }
        ensures end { IfOk result (λ place. self.new.base + length self.new.bytes.items ≡ place) }
        ensures keeps { OnOk result
            ((o : ℕ) (xs : List ℕ) → Stands self.old.bytes.items o xs → Stands self.new.bytes.items o xs) }
    {
        let end = self.end()?;
        let place = limited(checked_rounded_up(align.max(1), end)?)?;
        let size = (place - self.base) as usize;
        fill_to(&mut self.bytes, size)?;
        Ok(place)
    }

    /// Adds `bytes` at a multiple of `align`, and gives their offset.
    pub fn add(&mut self, align: u64, bytes: &[u8]) -> Result<u64, Unwritable>
        ensures base { self.new.base ≡ self.old.base }
        ensures behind { IfOk result (λ place. self.old.base ≤ place) }
        ensures place { IfOk result (λ place.
            place ≡ rounded_up (max 1 align) (self.old.base + length self.old.bytes.items)) }
        ensures end { IfOk result (λ place. self.new.base + length self.new.bytes.items ≡ place + length bytes.now) }
        ensures stands { IfOk result (λ place. Stands self.new.bytes.items (place - self.old.base) bytes.now) }
        ensures keeps { OnOk result
            ((o : ℕ) (xs : List ℕ) → Stands self.old.bytes.items o xs → Stands self.new.bytes.items o xs) }
    {
        let place = self.align_to(align)?;
        self.append(bytes)?;
        Ok(place)
    }

    /// Adds `bytes` at the end.
    pub fn append(&mut self, bytes: &[u8]) -> Result<(), Unwritable>
        ensures base { self.new.base ≡ self.old.base }
        ensures end { OnOk result (length self.new.bytes.items ≡ length self.old.bytes.items + length bytes.now) }
        ensures stands { OnOk result (Stands self.new.bytes.items (length self.old.bytes.items) bytes.now) }
        ensures keeps { OnOk result
            ((o : ℕ) (xs : List ℕ) → Stands self.old.bytes.items o xs → Stands self.new.bytes.items o xs) }
    {
        limited(sum(self.end()?, bytes.len() as u64)?)?;
        self.bytes.extend_from_slice(bytes)?;
        Ok(())
    }

    /// Adds `count` zeros.
    pub fn fill(&mut self, count: usize) -> Result<(), Unwritable>
        ensures base { self.new.base ≡ self.old.base }
        ensures end { OnOk result (length self.new.bytes.items ≡ length self.old.bytes.items + count) }
        ensures keeps { OnOk result
            ((o : ℕ) (xs : List ℕ) → Stands self.old.bytes.items o xs → Stands self.new.bytes.items o xs) }
    {
        limited(sum(self.end()?, count as u64)?)?;
        let size = self.bytes.len() + count;
        fill_to(&mut self.bytes, size)?;
        Ok(())
    }

    /// All bytes that were added.
    pub fn bytes(&self) -> &[u8]
        ensures { result.now ≡ self.now.bytes.items }
    {
        &self.bytes
    }
}
