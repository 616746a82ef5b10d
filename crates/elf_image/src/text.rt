// A string table for many lookups. gABI, "String Table".
ghost use Rattle.std.specs.Prelude.{◌≡◌, IfOk};
ghost use Rattle.elf_image.specs.file.Sections.{text_of};
ghost use Rattle.memchr.specs.Find.{is_byte, places};

use crate::text_end::near_end;
use memchr::memchr_iter;
use rb_bytes::fault::NoMemory;
use std::alloc::Global;

/// A string table, and the indices of its zero bytes, ascending.
#[derive(Drop)]
pub struct Names<'a> {
    table: &'a [u8],
    zeros: Vec<usize>,
    ghost zeros_are: { zeros.items ≡ places (is_byte 0) table.now },
}

impl<'a> Names<'a> {
    ghost use Rattle.elf_image.specs.file.StringTables.{name_bytes};
    ghost use Rattle.elf_image.specs.internal.TextEnds.{IsTextEnd};

    /// Finds the zero bytes of a string table.
    pub fn new(alloc: Global, table: &'a [u8]) -> Result<Names<'a>, NoMemory>
        ensures { IfOk result (λ names. name_bytes names ≡ table.now) }
    {
        let zeros = memchr_iter(0, table).collect(alloc)?;
        Ok(Names { table, zeros })
    }

    // The end of the string at an index, by a binary search among all zero bytes.
    fn far_end(&self, index: usize) -> usize
        ensures { IsTextEnd (name_bytes self.now) index result }
    {
        let next = self.zeros.partition_point(|zero| *zero < index);
        match self.zeros.get(next) {
            Some(end) => *end,
            None => self.table.len(),
        }
    }

    // The end of the string at an index.
    fn end(&self, index: usize) -> usize
        ensures { IsTextEnd (name_bytes self.now) index result }
    {
        match near_end(self.table, index) {
            Some(end) => end,
            None => self.far_end(index),
        }
    }

    /// The string at an index, up to the next zero byte, or to the table's end if there is none.
    pub fn text(&self, index: u32) -> &'a [u8]
        ensures { result.now ≡ text_of (name_bytes self.now) index }
    {
        let start = index as usize;
        let end = self.end(start);
        if end < start {
            return &self.table[..0];
        }
        &self.table[start..end]
    }
}
