// The file with its new area, put together.
ghost use Rattle.std.specs.Prelude.{◌≡◌, ◌<◌, ◌+◌, All, IfOk, Some, length, map};
ghost use Rattle.elf_image.specs.faults.FileFaults.{IsSound};
ghost use Rattle.elf_image.specs.faults.Truncation.{IsReadable};
ghost use Rattle.elf_image.specs.file.ParsedFile.{IsElfOf};
ghost use Rattle.addr_map.specs.Spans.{moved};
ghost use Rattle.elf_parts.specs.Parts.{PartsFit, size_of};
ghost use Rattle.rv_code.specs.layout.FunctionLists.{AreLaidOut};
ghost use Rattle.elf_plan.specs.FirstNames.{AreFirstNames};
ghost use Rattle.elf_plan.specs.FragmentLists.{AreFragments};
ghost use Rattle.elf_plan.specs.Plans.{IsPlanOf};
ghost use Rattle.elf_make.specs.AreaTables.{IsMadeWith};
ghost use Rattle.elf_make.specs.CellNumbers.{in_pieces};
ghost use Rattle.elf_make.specs.FileParts.{IsPut};
ghost use Rattle.elf_make.specs.Source.{source_of};
ghost use Rattle.elf_make.specs.WrittenFile.{CanHold};

use crate::cell_numbers::cell_numbers;
use crate::header_fields::HeaderFields;
use crate::layout::Layout;
use crate::new_sections::{NewSections, put};
use crate::placing::{can_put_all, table_place};
use crate::tail::Tail;
use addr_map::AddrMap;
use elf_image::named::EH_FRAME_HDR;
use elf_image::{Elf, SectionHeader, Segment};
use elf_parts::spell::put_segments;
use elf_parts::{NumberAt, assemble};
use elf_plan::given_tables::table_size;
use elf_plan::plan::Plan;
use elf_plan::segments::Places;
use elf_plan::source::SectionSource;
use elf_plan::unwritable::Unwritable;
use rb_bytes::fault::NoMemory;
use rv_code::Emitted;
use std::alloc::Global;

// The bytes of the file: its parts one after another, and put over them the code cells, the table of program headers
// and the fields of the ELF header. `Layout` if one of these isn't in the file.
fn put_together(
    alloc: Global,
    elf: &Elf,
    layout: &Layout,
    tail: &Tail,
    cells: &[NumberAt],
    segments: &[Segment],
    fields: &[NumberAt],
    program_headers_at: u64,
) -> Result<Vec<u8>, Unwritable>
    requires can { PartsFit layout.now.parts (length elf.now.file.now) (length layout.now.bytes.items) }
    requires base { tail.now.base ≡ size_of layout.now.parts }
    ensures { IfOk result
        (λ w. IsPut layout.now elf.now.file.now tail.now.bytes.items cells.now segments.now fields.now
        program_headers_at w.items) }
{
    let mut table = Vec::new(alloc);
    put_segments(&mut table, segments)?;
    let size = tail.end()? as usize;
    if !can_put_all(size, cells)
        || !can_put_all(size, fields)
        || program_headers_at as u128 + table.len() as u128 > size as u128
    {
        return Err(Unwritable::Layout);
    }
    let file = assemble(
        alloc,
        &layout.parts,
        elf.file,
        &layout.bytes,
        tail.bytes(),
        cells,
        program_headers_at as usize,
        &table,
        fields,
    )?;
    Ok(file)
}

// The offsets that section headers say.
fn places_of(alloc: Global, headers: &[SectionHeader]) -> Result<Vec<u64>, NoMemory>
    ensures { IfOk result (λ places. places.items ≡ map (λ h. h.offset) headers.now) }
{
    let mut places = Vec::new(alloc);
    for header in headers {
        places.push(header.offset)?;
    }
    Ok(places)
}

// What the ELF header says. `Layout` if the entry point is no instruction of the map.
fn fields_of(
    elf: &Elf,
    map: &AddrMap,
    sections: &NewSections,
    segments: &[Segment],
    program_headers_at: u64,
) -> Result<HeaderFields, Unwritable>
    ensures entry { IfOk result (λ fields. moved map.now elf.now.entry ≡ Some fields.entry) }
    ensures program_headers_at { IfOk result (λ fields. fields.program_headers_at ≡ program_headers_at) }
    ensures segments { IfOk result (λ fields. fields.segments ≡ length segments.now) }
    ensures section_headers_at { IfOk result (λ fields. fields.section_headers_at ≡ sections.now.section_headers_at) }
    ensures sections { IfOk result (λ fields. fields.sections ≡ length sections.now.headers.items) }
    ensures names { IfOk result (λ fields. fields.names ≡ sections.now.names) }
{
    Ok(HeaderFields {
        entry: map.moved(elf.entry).ok_or(Unwritable::Layout)?,
        program_headers_at,
        segments: segments.len() as u64,
        section_headers_at: sections.section_headers_at,
        sections: sections.headers.len() as u64,
        names: sections.names as u64,
    })
}

/// The file that is planned, with the new code and the contents of code cells in `emitted`.
pub fn made(
    alloc: Global,
    source: &SectionSource,
    emitted: &Emitted,
    plan: &Plan,
) -> Result<Vec<u8>, Unwritable>
    requires plan { IsPlanOf source.now.elf.now source.now.tables.now emitted.now.code.items
        plan.now.area.tight plan.now }
    requires readable { IsReadable source.now.elf.now.file.now }
    requires read { IsElfOf source.now.elf.now.file.now source.now.elf.now }
    requires sound { IsSound source.now.elf.now.file.now }
    requires laid_out { AreLaidOut source.now.funcs.now }
    requires fragments { AreFragments source.now.funcs.now source.now.map.now source.now.fragments.now }
    requires firsts { AreFirstNames source.now.elf.now.symbols.items source.now.names.now }
    requires cells { All (CanHold source.now.elf.now) emitted.now.cells.items }
    ensures { IfOk result (λ w. IsMadeWith
        (in_pieces (source_of source.now.elf.now emitted.now source.now.map.now source.now.tables.now))
        source.now.tables.now source.now.funcs.now source.now.cold.now plan.now.area.tight w.items) }
{
    let elf = source.elf;
    let layout = Layout::new(alloc, elf, plan, &emitted.code, source.tables)?;
    let mut tail = Tail::new(alloc, layout.end()?);
    let program_headers_at = table_place(elf, &layout.area, &layout.shift, &mut tail)?;
    let sections = put(alloc, source, plan, &mut tail)?;
    let section_offsets = places_of(alloc, &sections.headers)?;
    let index_size = table_size(source.tables, EH_FRAME_HDR).unwrap_or(0) as u64;
    let file_size = tail.end()?;
    let places = Places {
        elf,
        area: layout.area,
        shift: layout.shift,
        table_at: program_headers_at,
        contents: &plan.contents,
        sections_at: &section_offsets,
        index_size,
        file_size,
    };
    let segments = places.segments(alloc, layout.code)?;
    let cells = cell_numbers(alloc, elf, &layout.shift, &emitted.cells)?;
    let header = fields_of(elf, source.map, &sections, &segments, program_headers_at)?;
    let fields = header.numbers(alloc)?;
    put_together(
        alloc,
        elf,
        &layout,
        &tail,
        &cells,
        &segments,
        &fields,
        program_headers_at,
    )
}
