// Finds where a file is truncated: the lowest place of each kind of structure.
ghost use Rattle.std.specs.Prelude.{◌≡◌, ◌<◌, IfNone};
ghost use Rattle.elf_image.specs.faults.Truncation.{HasContents, IsBadHeaderField, IsTruncatedTable};
ghost use Rattle.elf_image.specs.faults.Truncation.{IsTruncatedSegment, IsTruncatedSection, IsUnnamedSection};
ghost use Rattle.elf_image.specs.faults.Truncation.{AreUnnamedSections};
ghost use Rattle.elf_image.specs.faults.Truncation.{IsUnnamedSymbol, IsUnnamedSymbolOf, IsTruncatedBySegments};
ghost use Rattle.elf_image.specs.faults.Truncation.{IsTruncatedBySections, IsTruncated, IsReadable};
ghost use Rattle.elf_image.specs.internal.TextEnds.{IsLastEnd};
ghost use Rattle.elf_image.specs.file.Header.{e_phnum, e_shnum, segment};
ghost use Rattle.elf_image.specs.faults.LowestPlace.{IsLowest, SomeBelow};
ghost use Rattle.elf_image.specs.file.Sections.{section_names};
ghost use Rattle.elf_image.specs.file.Symbols.{symbol_table, symbol_count, symbol_names};

use crate::entries::{SectionTable, SegmentTable, has_contents, symbol_count, symbol_table};
use crate::header::{E_PHENTSIZE, E_SHENTSIZE, E_SHSTRNDX, EHDR_SIZE, Header};
use crate::lowest::{lower, lowest_below, place_if};
use crate::names::{last_end, section_names, symbol_names};
use crate::number::u32_at;
use crate::range::is_whole;
use crate::section::{SHDR_SIZE, SHT_SYMTAB, SectionHeader};
use crate::segment::{PHDR_SIZE, PT_LOAD};
use crate::symbol::SYM_SIZE;

// The lowest place of a header field that makes tables unreadable.
fn lowest_bad_field(header: Header) -> Option<u64>
    ensures { IsLowest (IsBadHeaderField header.entry.file.now) result }
{
    let fields = header.fields();
    let segments = place_if(fields.phentsize as usize != PHDR_SIZE, E_PHENTSIZE as u64);
    let sections = place_if(fields.shentsize as usize != SHDR_SIZE, E_SHENTSIZE as u64);
    let names = place_if(fields.shnum <= fields.shstrndx, E_SHSTRNDX as u64);
    lower(lower(segments, sections), names)
}

// The lowest offset of a table of headers that isn't completely in the file.
fn lowest_truncated_table(header: Header) -> Option<u64>
    ensures { IsLowest (IsTruncatedTable header.entry.file.now) result }
{
    let fields = header.fields();
    let segments = place_if(!header.has_segments(), fields.phoff);
    let sections = place_if(!header.has_sections(), fields.shoff);
    lower(segments, sections)
}

fn truncated_segment(segments: SegmentTable, index: usize) -> Option<u64>
    requires index { index < e_phnum segments.file.now }
    ensures { IsLowest (IsTruncatedSegment segments.entry.file.now index) result }
{
    let segment = segments.segment_of(index);
    let is_wrong = segment.kind == PT_LOAD
        && !is_whole(segments.file, segment.offset, segment.filesz);
    place_if(is_wrong, segment.offset)
}

// The lowest offset of a loaded segment whose bytes aren't all in the file.
fn lowest_truncated_segment(segments: SegmentTable) -> Option<u64>
    ensures { IsLowest (SomeBelow (e_phnum segments.entry.file.now) (IsTruncatedSegment segments.entry.file.now))
        result }
{
    lowest_below(segments.count(), |index| truncated_segment(segments, index))
}

fn truncated_section(headers: SectionTable, index: usize) -> Option<u64>
    requires index { index < e_shnum headers.file.now }
    ensures { IsLowest (IsTruncatedSection headers.entry.file.now index) result }
{
    let section = headers.section_of(index);
    place_if(!has_contents(headers.file, &section), section.offset)
}

// The lowest offset of a section whose bytes aren't all in the file.
fn lowest_truncated_section(headers: SectionTable) -> Option<u64>
    ensures { IsLowest (SomeBelow (e_shnum headers.entry.file.now) (IsTruncatedSection headers.entry.file.now)) result }
{
    lowest_below(headers.count(), |index| truncated_section(headers, index))
}

fn unnamed_section(headers: SectionTable, index: usize, end: usize) -> Option<u64>
    requires index { index < e_shnum headers.file.now }
    requires end { IsLastEnd (section_names headers.file.now) end }
    ensures { IsLowest (IsUnnamedSection headers.entry.file.now index) result }
{
    let section = headers.section_of(index);
    place_if(end <= section.name as usize, headers.place(index))
}

// The lowest place of a section header whose name has no end in the string table.
fn lowest_unnamed_in(headers: SectionTable, table: &[u8]) -> Option<u64>
    requires names { table.now ≡ section_names headers.file.now }
    ensures { IsLowest (SomeBelow (e_shnum headers.entry.file.now) (IsUnnamedSection headers.entry.file.now)) result }
{
    let end = last_end(table);
    lowest_below(
        headers.count(),
        |index| unnamed_section(headers, index, end),
    )
}

// The lowest place of a section header whose name has no end, if the file contains all of the string table. Otherwise
// the string table itself is truncated.
fn lowest_unnamed_section(headers: SectionTable) -> Option<u64>
    ensures { IsLowest (AreUnnamedSections headers.entry.file.now) result }
{
    let table = section_names(headers)?;
    lowest_unnamed_in(headers, table)
}

fn unnamed_symbol(file: &[u8], table: &SectionHeader, index: usize, end: usize) -> Option<u64>
    requires whole { HasContents file.now table.now }
    requires is_table { table.now.kind ≡ SHT_SYMTAB }
    requires index { index < symbol_count table.now }
    requires end { IsLastEnd (symbol_names file.now table.now) end }
    ensures { IsLowest (IsUnnamedSymbol file.now table.now index) result }
{
    let place = table.offset as usize + SYM_SIZE * index;
    place_if(end <= u32_at(file, place) as usize, place as u64)
}

// The lowest place of a symbol whose name has no end in the string table.
fn lowest_unnamed_of(file: &[u8], table: &SectionHeader, names: &[u8]) -> Option<u64>
    requires whole { HasContents file.now table.now }
    requires is_table { table.now.kind ≡ SHT_SYMTAB }
    requires names { names.now ≡ symbol_names file.now table.now }
    ensures { IsLowest (SomeBelow (symbol_count table.now) (IsUnnamedSymbol file.now table.now)) result }
{
    let end = last_end(names);
    lowest_below(
        symbol_count(table),
        |index| unnamed_symbol(file, table, index, end),
    )
}

// The lowest place of a symbol whose name has no end, if there are symbols and both tables are complete.
fn lowest_unnamed_symbol(headers: SectionTable) -> Option<u64>
    ensures { IsLowest (IsUnnamedSymbolOf headers.entry.file.now (symbol_table headers.entry.file.now)) result }
{
    let table = symbol_table(headers)?;
    let names = symbol_names(headers, &table)?;
    lowest_unnamed_of(headers.file, &table, names)
}

// The lowest place of a structure that program headers refer to, if their table is complete.
fn lowest_truncated_by_segments(header: Header) -> Option<u64>
    ensures { IsLowest (IsTruncatedBySegments header.entry.file.now) result }
{
    if header.has_segments() {
        lowest_truncated_segment(SegmentTable { file: header.file })
    } else {
        None
    }
}

// The lowest place of a structure that section headers refer to, if their table is complete.
fn lowest_truncated_by_sections(header: Header) -> Option<u64>
    ensures { IsLowest (IsTruncatedBySections header.entry.file.now) result }
{
    if !header.has_sections() {
        return None;
    }
    let headers = SectionTable { file: header.file };
    let names = lower(
        lowest_unnamed_section(headers),
        lowest_unnamed_symbol(headers),
    );
    lower(lowest_truncated_section(headers), names)
}

/// The lowest place at which a file is truncated: the offset of a structure that isn't completely in the file, of a
/// section header or symbol whose name has no end, or of a field of the header. gABI, "ELF Header".
pub fn lowest_truncated(file: &[u8]) -> Option<u64>
    ensures lowest { IsLowest (IsTruncated file.now) result }
    ensures readable { IfNone result (IsReadable file.now) }
{
    if file.len() < EHDR_SIZE {
        return Some(0);
    }
    let header = Header { file };
    let fields = lower(lowest_bad_field(header), lowest_truncated_table(header));
    let tables = lower(
        lowest_truncated_by_segments(header),
        lowest_truncated_by_sections(header),
    );
    lower(fields, tables)
}
