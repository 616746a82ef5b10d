// Tables of names that grow. gABI, "String Table".

use elf_plan::unwritable::Unwritable;
use rb_bytes::fault::NoMemory;
use std::alloc::Global;

/// A table of names.
#[derive(Drop)]
pub struct NameTable {
    bytes: Vec<u8>,
}

impl NameTable {
    ghost use Rattle.std.specs.Prelude.{◌≡◌, ◌++◌, IfOk, length};
    ghost use Rattle.elf_plan.specs.NewNames.{ended};

    /// A table that begins with the bytes `old`.
    pub fn new(alloc: Global, old: &[u8]) -> Result<NameTable, NoMemory>
        ensures { IfOk result (λ t. t.bytes.items ≡ old.now) }
    {
        let bytes = Vec::from_slice(alloc, old)?;
        Ok(NameTable { bytes })
    }

    /// Adds the name that is `front` and `back` joined, and gives its offset in the table. `TooLarge` if that passes 32
    /// bits.
    pub fn add(&mut self, front: &[u8], back: &[u8]) -> Result<u32, Unwritable>
        ensures place { IfOk result (λ at. at ≡ length self.old.bytes.items) }
        ensures bytes { IfOk result (λ at.
            self.new.bytes.items ≡ self.old.bytes.items ++ ended (front.now ++ back.now)) }
    {
        let index = self.bytes.len();
        if index > u32::MAX as usize {
            return Err(Unwritable::TooLarge);
        }
        self.bytes.extend_from_slice(front)?;
        self.bytes.extend_from_slice(back)?;
        self.bytes.push(0)?;
        Ok(index as u32)
    }

    /// The bytes of the table: those that it began with, and after them each name that was added, with its zero byte.
    pub fn bytes(&self) -> &[u8]
        ensures { result.now ≡ self.now.bytes.items }
    {
        &self.bytes
    }
}
