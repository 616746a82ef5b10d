// The fields of the ELF header that are rewritten. gABI, "ELF Header".
ghost use Rattle.std.specs.Prelude.{◌≡◌};
ghost use Rattle.elf_make.specs.FileParts as spec;

use elf_image::header::{E_ENTRY, E_PHNUM, E_PHOFF, E_SHNUM, E_SHOFF, E_SHSTRNDX};
use elf_parts::NumberAt;
use rb_bytes::fault::NoMemory;
use std::alloc::Global;

/// What the fields of the ELF header say that are rewritten.
#[derive(Clone, Copy)]
pub struct HeaderFields {
    /// The entry point.
    pub entry: u64,
    /// The offset of the table of program headers.
    pub program_headers_at: u64,
    /// How many program headers there are.
    pub segments: u64,
    /// The offset of the table of section headers.
    pub section_headers_at: u64,
    /// How many section headers there are.
    pub sections: u64,
    /// The index of the section with the names of sections.
    pub names: u64,
}

impl HeaderFields {
    ghost use Rattle.std.specs.Prelude.{◌≡◌, IfOk};
    ghost use Rattle.elf_make.specs.FileParts.{header_numbers};

    /// The fields as numbers at their offsets.
    pub fn numbers(&self, alloc: Global) -> Result<Vec<NumberAt>, NoMemory>
        ensures { IfOk result (λ numbers. numbers.items ≡ header_numbers self.now) }
    {
        let mut numbers = Vec::new(alloc);
        numbers.push(number(E_ENTRY, 8, self.entry))?;
        numbers.push(number(E_PHOFF, 8, self.program_headers_at))?;
        numbers.push(number(E_SHOFF, 8, self.section_headers_at))?;
        numbers.push(number(E_PHNUM, 2, self.segments))?;
        numbers.push(number(E_SHNUM, 2, self.sections))?;
        numbers.push(number(E_SHSTRNDX, 2, self.names))?;
        Ok(numbers)
    }
}

fn number(offset: usize, width: u8, value: u64) -> NumberAt
    ensures { result ≡ spec.number offset width value }
{
    NumberAt {
        offset: offset as u64,
        width,
        value,
    }
}
