// Reads the tables of a file that isn't truncated. gABI, "Program Header", "Section Header" and "Symbol Table".
ghost use Rattle.std.specs.Prelude.{◌≡◌, ◌<◌, IfOk};
ghost use Rattle.elf_image.specs.faults.Truncation.{IsReadable, HasContents};
ghost use Rattle.elf_image.specs.file.Header.{e_shnum, segments_of};
ghost use Rattle.elf_image.specs.file.ParsedFile.{IsSectionAt, AreSections, AreSymbols, AreSymbolsOf};
ghost use Rattle.elf_image.specs.file.Sections.{section_names};
ghost use Rattle.elf_image.specs.file.Symbols.{symbol_table, symbol_count};
ghost use Rattle.elf_image.specs.file.StringTables.{name_bytes};

use crate::entries::{SectionTable, SegmentTable, symbol_count, symbol_table};
use crate::names::{section_names, symbol_texts};
use crate::section::{SHT_SYMTAB, Section, SectionHeader};
use crate::segment::Segment;
use crate::symbol::{SYM_SIZE, Symbol, symbol_at};
use crate::text::Names;
use rb_bytes::fault::NoMemory;
use std::alloc::Global;

/// The program headers, in the order of their table.
pub fn read_segments(alloc: Global, file: &[u8]) -> Result<Vec<Segment>, NoMemory>
    requires { IsReadable file.now }
    ensures { IfOk result (λ segments. segments.items ≡ segments_of file.now) }
{
    let table = SegmentTable { file };
    let mut segments = Vec::new(alloc);
    for index in 0..table.count() {
        segments.push(table.segment_of(index))?;
    }
    Ok(segments)
}

fn read_section<'a>(file: &'a [u8], names: &Names<'a>, index: usize) -> Section<'a>
    requires whole { IsReadable file.now }
    requires index { index < e_shnum file.now }
    requires names { name_bytes names.now ≡ section_names file.now }
    ensures { IsSectionAt file.now index result }
{
    let header = SectionTable { file }.section_of(index);
    Section {
        name: names.text(header.name),
        kind: header.kind,
        flags: header.flags,
        addr: header.addr,
        offset: header.offset,
        size: header.size,
        link: header.link,
        info: header.info,
        align: header.align,
        entsize: header.entsize,
    }
}

// The string table of section names, in a file that isn't truncated.
fn section_texts(file: &[u8]) -> &[u8]
    requires { IsReadable file.now }
    ensures { result.now ≡ section_names file.now }
{
    match section_names(SectionTable { file }) {
        Some(names) => names,
        None => &file[..0],
    }
}

/// The sections, in the order of their table.
pub fn read_sections<'a>(alloc: Global, file: &'a [u8]) -> Result<Vec<Section<'a>>, NoMemory>
    requires { IsReadable file.now }
    ensures { IfOk result (λ sections. AreSections file.now (e_shnum file.now) sections.items) }
{
    let table = SectionTable { file };
    let names = Names::new(alloc, section_texts(file))?;
    let mut sections = Vec::new(alloc);
    for index in 0..table.count() {
        sections.push(read_section(file, &names, index))?;
    }
    Ok(sections)
}

fn read_symbols_of<'a>(
    alloc: Global,
    file: &'a [u8],
    table: &SectionHeader,
) -> Result<Vec<Symbol<'a>>, NoMemory>
    requires whole { IsReadable file.now }
    requires is_table { symbol_table file.now ≡ Some table.now }
    requires contents { HasContents file.now table.now }
    requires kind { table.now.kind ≡ SHT_SYMTAB }
    ensures { IfOk result (λ symbols. AreSymbols file.now table.now (symbol_count table.now) symbols.items) }
{
    let names = Names::new(alloc, symbol_texts(file, table))?;
    let mut symbols = Vec::new(alloc);
    for index in 0..symbol_count(table) {
        let offset = table.offset as usize + SYM_SIZE * index;
        symbols.push(symbol_at(file, table, &names, offset))?;
    }
    Ok(symbols)
}

/// The symbols, in the order of the symbol table. Empty if there is no such table.
pub fn read_symbols<'a>(alloc: Global, file: &'a [u8]) -> Result<Vec<Symbol<'a>>, NoMemory>
    requires { IsReadable file.now }
    ensures { IfOk result (λ symbols. AreSymbolsOf file.now (symbol_table file.now) symbols.items) }
{
    match symbol_table(SectionTable { file }) {
        Some(table) => read_symbols_of(alloc, file, &table),
        None => Ok(Vec::new(alloc)),
    }
}
