// Reads a whole file.
ghost use Rattle.std.specs.Prelude.{◌≡◌, IfOk, OnOk, IfErr};
ghost use Rattle.rb_bytes.specs.FirstFault.{LacksBelow};
ghost use Rattle.elf_image.specs.faults.Truncation.{IsReadable};
ghost use Rattle.elf_image.specs.file.Header.{e_shnum};
ghost use Rattle.elf_image.specs.faults.FileFaults.{HasFault, IsSound, IsRefusal};
ghost use Rattle.elf_image.specs.file.ParsedFile.{AreSections, IsElfOf};

use crate::elf::Elf;
use crate::faults::{check_layout, check_structure};
use crate::header::Header;
use crate::image::segments_by_address;
use crate::section::Section;
use crate::tables::{read_sections, read_segments, read_symbols};
use rb_bytes::fault::{NoMemory, Refusal};
use std::alloc::Global;

// Reads the rest of a file that has no fault and whose sections were read.
fn read_beside<'a>(
    alloc: Global,
    file: &'a [u8],
    sections: Vec<Section<'a>>,
) -> Result<Elf<'a>, NoMemory>
    requires readable { IsReadable file.now }
    requires lacks { LacksBelow (HasFault file.now) 9 }
    requires sections { AreSections file.now (e_shnum file.now) sections.items }
    ensures { IfOk result (IsElfOf file.now) }
{
    let segments = read_segments(alloc, file)?;
    let symbols = read_symbols(alloc, file)?;
    let loads = segments_by_address(alloc, &segments)?;
    let header = Header { file }.fields();
    Ok(Elf {
        file,
        flags: header.flags,
        entry: header.entry,
        phoff: header.phoff,
        sections,
        segments,
        symbols,
        loads,
    })
}

/// Reads a file. If one of the faults 1 to 8 is present, the error has the one with the lowest number at its lowest
/// place. gABI, "ELF Header", "Program Header", "Section Header" and "Symbol Table".
pub fn read<'a>(alloc: Global, file: &'a [u8]) -> Result<Elf<'a>, Refusal>
    ensures fields { IfOk result (IsElfOf file.now) }
    ensures readable { OnOk result (IsReadable file.now) }
    ensures sound { OnOk result (IsSound file.now) }
    ensures refusal { IfErr result (IsRefusal file.now) }
{
    check_structure(file)?;
    let sections = read_sections(alloc, file)?;
    check_layout(alloc, file, &sections)?;
    let elf = read_beside(alloc, file, sections)?;
    Ok(elf)
}
