// The value of a file that was read.
ghost use Rattle.std.specs.Prelude.{ℕ, ◌≡◌, ◌<◌, ◌≤◌, ◌+◌, ◌^◌, All, IsTrue, length};
ghost use Rattle.std.specs.List.Sorted.{IsNonDecreasingBy};
ghost use Rattle.elf_image.specs.faults.Truncation.{HasHeader};
ghost use Rattle.elf_image.specs.memory.Image.{has_memory, segment_of, LoadOnce};
ghost use Rattle.elf_image.specs.declared.relocation.TheConstants.{SHT_RELA};

use crate::image::{segment_among, segment_byte};
use crate::section::Section;
use crate::segment::Segment;
use crate::symbol::Symbol;

/// An ELF file: its bytes, its headers and its symbol table.
#[derive(Drop)]
pub struct Elf<'a> {
    /// All bytes of the file.
    pub file: &'a [u8],
    /// `e_flags`.
    pub flags: u32,
    /// `e_entry`.
    pub entry: u64,
    /// `e_phoff`: the file offset of the program headers.
    pub phoff: u64,
    /// In the order of their table, so that section indices of the file are indices of this list.
    pub sections: Vec<Section<'a>>,
    /// In the order of the table of program headers.
    pub segments: Vec<Segment>,
    /// The entries of the first symbol table, in its order, including the one with index 0.
    pub symbols: Vec<Symbol<'a>>,
    // The segments with memory, sorted by address for searches.
    pub(crate) loads: Vec<Segment>,
    ghost rising: { IsNonDecreasingBy (λ p. p.vaddr) loads.items },
    ghost loaded: { All (λ p. IsTrue (has_memory p)) loads.items },
    ghost once: { LoadOnce loads.items },
    ghost same: { (a : ℕ) → segment_of loads.items a ≡ segment_of segments.items a },
    pub ghost header: { HasHeader file.now },
    pub ghost tables: { All (λ s. s.kind ≡ SHT_RELA → 0 < s.size → s.offset + s.size ≤ length file.now)
        sections.items },
}

impl<'a> Elf<'a> {
    ghost use Rattle.std.specs.Prelude.{IfSome};
    ghost use Rattle.std.specs.Option.{option_copied};
    ghost use Rattle.elf_image.specs.file.SectionNames.{section_called};
    ghost use Rattle.elf_image.specs.memory.Image.{image_byte, loads_address};
    ghost use Rattle.elf_image.specs.memory.LoadedBytes.{file_offset};

    /// The segment that loads an address, by a binary search. None if there is no such segment.
    pub fn segment_at(&self, address: u64) -> Option<&Segment>
        ensures loads { IfSome result (λ p. IsTrue (loads_address address p.now)) }
        ensures first { option_copied result ≡ segment_of self.now.segments.items address }
    {
        segment_among(&self.loads, address)
    }

    /// The byte at an address. None if no segment loads it.
    pub fn image_byte(&self, address: u64) -> Option<u8>
        ensures { result ≡ image_byte self.now.file.now self.now.segments.items address }
    {
        let segment = self.segment_at(address)?;
        Some(segment_byte(self.file, address, segment))
    }

    /// The file offset of the byte at an address. None if the address isn't loaded, or its byte doesn't come from the
    /// file.
    pub fn file_offset(&self, address: u64) -> Option<u128>
        ensures value { result ≡ file_offset self.now.segments.items address }
        ensures below { IfSome result (λ offset. offset < 2 ^ 65) }
    {
        self.segment_at(address)?.offset_of(address)
    }

    /// The first section that a name refers to. Names of unwind tables only refer to loaded sections, names of debug
    /// tables only to sections that aren't loaded, and both only to sections without code.
    pub fn section_called(&self, name: &[u8]) -> Option<&Section<'a>>
        ensures { option_copied result ≡ section_called self.now.sections.items name.now }
    {
        self.sections.iter().find(|s| s.is_called(name))
    }
}
