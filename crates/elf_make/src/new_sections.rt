// The sections of a written file: their contents after its loaded bytes, and their headers after those.
ghost use Rattle.std.specs.Prelude.{◌≡◌, ◌≢◌, ◌<◌, ◌≤◌, ◌+◌, ◌*◌, ◌^◌, ℕ, List, All, AllPairs, IfOk, OnOk, length};
ghost use Rattle.std.specs.Prelude.{◌++◌, [], IfSome, IsSome, None, Some, codes, false, slice_get, slice_index_or};
ghost use Rattle.elf_image.specs.declared.section.Section.{Section};
ghost use Rattle.elf_image.specs.declared.section.SectionHeader.{SectionHeader};
ghost use Rattle.elf_plan.specs.declared.sections.Contents.{Contents};
ghost use Rattle.elf_make.specs.PlacedContents.{set_header};
ghost use Rattle.elf_make.specs.MadeNames.{HasNames, bytes_of, first_added, second_added, symbol_texts};
ghost use Rattle.elf_make.specs.NewSymbols.{named_parts};
ghost use Rattle.elf_make.specs.SetHeaders.{Adds, AreAdded, AreSet};
ghost use Rattle.elf_make.specs.SectionTable.{AreCapped, ArePutWith, EndsWith};
ghost use Rattle.elf_make.specs.SymbolTable.{HasSymbols, HasTable, IsColdEntry, SaysInfo};
ghost use Rattle.elf_parts.specs.Patches.{Stands};
ghost use Rattle.elf_plan.specs.Contents.{is_at};
ghost use Rattle.elf_plan.specs.FirstNames.{AreFirstNames};
ghost use Rattle.elf_plan.specs.FragmentLists.{AreFragments};
ghost use Rattle.elf_plan.specs.NewNames.{added_names, cold_names, ended, table_bytes};
ghost use Rattle.elf_plan.specs.NewSections as spec;
ghost use Rattle.elf_plan.specs.PairedLists.{GoTogether};
ghost use Rattle.rv_code.specs.layout.FunctionLists.{AreLaidOut};
ghost use Rattle.elf_image.specs.faults.Truncation.{IsReadable};
ghost use Rattle.elf_image.specs.file.Header.{e_shnum, e_shstrndx};
ghost use Rattle.elf_plan.specs.KnownSections.{IsOwnOf};

use crate::headers::{NewContents, area_headers, check_end, old_headers, place_all, set_contents};
use crate::names::NameTable;
use crate::symbols::{NewCode, cold_symbols, new_info, symbol_table};
use crate::tail::{Tail, limited};
use elf_image::section::{SHDR_SIZE, SHT_PROGBITS};
use elf_image::{Elf, Section, SectionHeader};
use elf_parts::spell::{SymbolEntry, put_sections};
use elf_plan::area::{Area, Shift};
use elf_plan::given_tables::{DEBUG_RNGLISTS, Table, bytes_called, table_called};
use elf_plan::name_tables::OwnSections;
use elf_plan::plan::Plan;
use elf_plan::round::sum;
use elf_plan::section_bytes::bytes_of;
use elf_plan::sections::Contents;
use elf_plan::source::SectionSource;
use elf_plan::unwritable::Unwritable;
use elf_plan::weights::weight_by;
use file_bounds::COPY_RATIO;
use std::alloc::Global;

/// The sections of a written file.
#[derive(Drop)]
pub struct NewSections {
    /// The headers of all sections: those of the input, and after them the added ones.
    pub headers: Vec<SectionHeader>,
    /// The index of the section with the names of sections.
    pub names: usize,
    /// The offset of the table of section headers.
    pub section_headers_at: u64,
}

// The tables of names: that of sections, and that of symbols, where they aren't one table.
#[derive(Drop)]
struct NewNames {
    sections: NameTable,
    symbols: Option<NameTable>,
}

impl NewNames {
    ghost use Rattle.std.specs.Prelude.{◌≡◌, IfOk};
    ghost use Rattle.elf_plan.specs.NewNames.{table_bytes};
    ghost use Rattle.elf_make.specs.MadeNames.{bytes_of, second_table, symbol_texts};

    fn new(alloc: Global, elf: &Elf, own: &OwnSections) -> Result<NewNames, Unwritable>
        ensures sections { IfOk result (λ names.
            names.sections.bytes.items ≡ table_bytes elf.now own.now.section_names) }
        ensures symbols { IfOk result (λ names. bytes_of names.symbols ≡ second_table elf.now own.now) }
    {
        let sections = names_at(alloc, elf, own.section_names)?;
        let symbols = match own.symbol_names {
            Some(index) if index != own.section_names => Some(names_at(alloc, elf, index)?),
            _ => None,
        };
        Ok(NewNames { sections, symbols })
    }

    // The bytes of the table with the names of symbols.
    fn of_symbols(&self) -> &[u8]
        ensures { result.now ≡ symbol_texts self.now }
    {
        match &self.symbols {
            Some(table) => table.bytes(),
            None => self.sections.bytes(),
        }
    }
}

// The section at `index`.
fn section_at<'a, 'file>(
    elf: &'a Elf<'file>,
    index: usize,
) -> Result<&'a Section<'file>, Unwritable>
    ensures { IfOk result (λ section. slice_get elf.now.sections.items index ≡ Some section.now) }
{
    elf.sections.get(index).ok_or(Unwritable::Layout)
}

// A table of names that begins with the bytes of the section at `index`.
fn names_at(alloc: Global, elf: &Elf, index: usize) -> Result<NameTable, Unwritable>
    ensures { IfOk result (λ names. names.bytes.items ≡ table_bytes elf.now index) }
{
    let section = elf.sections.get(index).ok_or(Unwritable::Layout)?;
    Ok(NameTable::new(alloc, bytes_of(elf.file, section))?)
}

// Whether a table of ranges is added: one is given, and the input has none.
fn adds_ranges(elf: &Elf, tables: &[Table]) -> bool
    ensures { result ≡ spec.adds_ranges elf.now.sections.items tables.now }
{
    table_called(tables, DEBUG_RNGLISTS).is_some() && elf.section_called(DEBUG_RNGLISTS).is_none()
}

// Adds the header of the table of ranges. Its place and size are set when the table is written.
fn add_ranges(headers: &mut Vec<SectionHeader>, names: &mut NameTable) -> Result<(), Unwritable>
    ensures adds { OnOk result (Adds names.new.bytes.items (codes ".debug_rnglists") 0 0 0 0 1 headers.old.items
        headers.new.items) }
    ensures names { OnOk result (names.new.bytes.items ≡ names.old.bytes.items ++ ended (codes ".debug_rnglists")) }
{
    let name = names.add(DEBUG_RNGLISTS, b"")?;
    headers.push(SectionHeader {
        name,
        kind: SHT_PROGBITS,
        flags: 0,
        addr: 0,
        offset: 0,
        size: 0,
        link: 0,
        info: 0,
        align: 1,
        entsize: 0,
    })?;
    Ok(())
}

// Adds the headers of all sections that the input hasn't: those in the new area, and that of the table of ranges if it
// is added.
fn added_headers(
    headers: &mut Vec<SectionHeader>,
    area: &Area,
    tables: &[Table],
    adds_ranges: bool,
    names: &mut NameTable,
) -> Result<(), Unwritable>
    ensures added { OnOk result
        (AreAdded names.new.bytes.items tables.now area.now adds_ranges headers.old.items headers.new.items) }
    ensures names { OnOk result
        (names.new.bytes.items ≡ names.old.bytes.items ++ added_names area.now adds_ranges) }
{
    area_headers(headers, area, tables, names)?;
    if !adds_ranges {
        return Ok(());
    }
    add_ranges(headers, names)?;
    Ok(())
}

// The symbols of cold parts, with their names added to the table of symbol names; none if symbols have no names.
fn added_symbols(
    alloc: Global,
    source: &SectionSource,
    own: &OwnSections,
    code: &NewCode,
    names: &mut NewNames,
) -> Result<Vec<SymbolEntry>, Unwritable>
    requires laid_out { AreLaidOut code.now.funcs.now }
    requires fragments { AreFragments code.now.funcs.now code.now.map.now code.now.fragments.now }
    requires firsts { AreFirstNames source.now.elf.now.symbols.items source.now.names.now }
    ensures entries { IfOk result (λ entries. IsSome own.now.symbol_names → GoTogether
        (IsColdEntry (symbol_texts names.new) source.now.elf.now.symbols.items code.now.funcs.now code.now.map.now
        code.now.section)
        (named_parts source.now.elf.now.symbols.items code.now.funcs.now source.now.cold.now) entries.items) }
    ensures none { IfOk result (λ entries. own.now.symbol_names ≡ None → entries.items ≡ []) }
    ensures first { IfOk result (λ entries. names.new.sections.bytes.items
        ≡ names.old.sections.bytes.items ++ first_added own.now.symbol_names (bytes_of names.old.symbols)
        (cold_names source.now.elf.now.symbols.items code.now.funcs.now source.now.cold.now)) }
    ensures second { IfOk result (λ entries. bytes_of names.new.symbols
        ≡ second_added own.now.symbol_names (bytes_of names.old.symbols)
        (cold_names source.now.elf.now.symbols.items code.now.funcs.now source.now.cold.now)) }
{
    if own.symbol_names.is_none() {
        return Ok(Vec::new(alloc));
    }
    match &mut names.symbols {
        Some(table) => cold_symbols(alloc, source.names, code, source.cold, table),
        None => cold_symbols(alloc, source.names, code, source.cold, &mut names.sections),
    }
}

// The bytes of the new symbol table; no bytes if there is none. Where symbols are added its header's `sh_info` counts
// them too: they are local, and are after the local ones. `text` is the index of the new code's section.
fn new_symbols(
    alloc: Global,
    source: &SectionSource,
    own: &OwnSections,
    names: &mut NewNames,
    headers: &mut [SectionHeader],
    text: u16,
) -> Result<Vec<u8>, Unwritable>
    requires laid_out { AreLaidOut source.now.funcs.now }
    requires fragments { AreFragments source.now.funcs.now source.now.map.now source.now.fragments.now }
    requires firsts { AreFirstNames source.now.elf.now.symbols.items source.now.names.now }
    requires own { IsOwnOf source.now.elf.now own.now }
    ensures count { length headers.new ≡ length headers.old }
    ensures same { (k : ℕ) (d : SectionHeader) → slice_index_or headers.new k d
        ≡ record (slice_index_or headers.old k d) { info = (slice_index_or headers.new k d).info } }
    ensures others { (k : ℕ) (d : SectionHeader) → is_at k own.now.symbols ≡ false →
        slice_index_or headers.new k d ≡ slice_index_or headers.old k d }
    ensures first { IfOk result (λ bytes. names.new.sections.bytes.items
        ≡ names.old.sections.bytes.items ++ first_added own.now.symbol_names (bytes_of names.old.symbols)
        (cold_names source.now.elf.now.symbols.items source.now.funcs.now source.now.cold.now)) }
    ensures second { IfOk result (λ bytes. bytes_of names.new.symbols
        ≡ second_added own.now.symbol_names (bytes_of names.old.symbols)
        (cold_names source.now.elf.now.symbols.items source.now.funcs.now source.now.cold.now)) }
    ensures symbols { IfOk result (λ bytes. IfSome own.now.symbols (λ k. HasTable source.now.elf.now
        source.now.funcs.now source.now.map.now source.now.cold.now own.now.symbol_names text k (symbol_texts names.new)
        bytes.items (SaysInfo headers.new k))) }
{
    let Some(index) = own.symbols else {
        return Ok(Vec::new(alloc));
    };
    let section = section_at(source.elf, index)?;
    let code = NewCode {
        funcs: source.funcs,
        map: source.map,
        fragments: source.fragments,
        section: text,
    };
    let added = added_symbols(alloc, source, own, &code, names)?;
    let info = new_info(&source.elf.symbols, added.len(), section)?;
    if index < headers.len() {
        headers[index].info = info;
    }
    symbol_table(alloc, source.elf, section, &code, &added)
}

// Finds whether names and copied contents fit a file, before any is made. Names may be ends of one text, and many
// headers may name the same bytes, so that what a small file asks for grows with the square of its size: that is
// `TooLarge`.
fn check_sizes(source: &SectionSource, contents: &[Contents]) -> Result<(), Unwritable>
    requires { AreLaidOut source.now.funcs.now }
{
    let mut size = weight_by(source.names, source.elf, source.funcs, source.cold);
    for (section, contents) in source.elf.sections.iter().zip(contents) {
        if matches!(contents, Contents::Copied) {
            size = size.saturating_add(section.size);
        }
    }
    if size > (source.elf.file.len() as u64).saturating_mul(COPY_RATIO) {
        return Err(Unwritable::TooLarge);
    }
    limited(size)?;
    Ok(())
}

// Writes the contents `new` of sections and then the table of `headers`, and gives the offset of that table. `headers`
// say all but where the contents are.
fn put_contents(
    alloc: Global,
    source: &SectionSource,
    plan: &Plan,
    new: &NewContents,
    adds_ranges: bool,
    headers: &mut [SectionHeader],
    tail: &mut Tail,
) -> Result<u64, Unwritable>
    requires within { All (λ e. e.1 + 1 < length headers.old) plan.now.order.items }
    requires distinct { AllPairs (λ e f. e.1 ≢ f.1) plan.now.order.items }
    requires more { length source.now.elf.now.sections.items < length headers.old }
    requires adds { adds_ranges ≡ spec.adds_ranges source.now.elf.now.sections.items source.now.tables.now }
    requires tables { new.now.tables.now ≡ source.now.tables.now }
    requires ranges { new.now.ranges.now ≡ spec.bytes_called source.now.tables.now (codes ".debug_rnglists") }
    requires set { AreSet source.now.elf.now source.now.tables.now plan.now.area plan.now.shift plan.now.contents.items
        new.now.section_names.now headers.old }
    requires names { HasNames source.now.elf.now source.now.tables.now plan.now.area source.now.funcs.now
        source.now.cold.now new.now }
    requires symbols { HasSymbols source.now.elf.now source.now.funcs.now source.now.map.now source.now.cold.now
        plan.now.contents.items new.now headers.old }
    ensures base { IfOk result (λ at. tail.new.base ≡ tail.old.base) }
    ensures count { IfOk result (λ at. length headers.new ≡ length headers.old) }
    ensures put { IfOk result (λ at. ArePutWith source.now.elf.now source.now.tables.now source.now.funcs.now
        source.now.cold.now source.now.map.now plan.now.area plan.now.shift plan.now.contents.items
        plan.now.order.items tail.old.base
        (tail.old.base + length tail.old.bytes.items) tail.new.bytes.items at headers.new) }
{
    check_end(source.elf, &plan.contents, &plan.order, new, tail.end()?)?;
    place_all(
        source.elf,
        &plan.contents,
        &plan.order,
        new,
        adds_ranges,
        headers,
        tail,
    )?;
    let place = put_table(alloc, headers, tail)?;
    Ok(place)
}

/// Writes the contents of all sections into `tail`, and the table of their headers after them.
pub fn put(
    alloc: Global,
    source: &SectionSource,
    plan: &Plan,
    tail: &mut Tail,
) -> Result<NewSections, Unwritable>
    requires own { IsOwnOf source.now.elf.now plan.now.own }
    requires readable { IsReadable source.now.elf.now.file.now }
    requires laid_out { AreLaidOut source.now.funcs.now }
    requires fragments { AreFragments source.now.funcs.now source.now.map.now source.now.fragments.now }
    requires firsts { AreFirstNames source.now.elf.now.symbols.items source.now.names.now }
    requires count { length source.now.elf.now.sections.items ≡ e_shnum source.now.elf.now.file.now }
    requires contents { length plan.now.contents.items ≡ length source.now.elf.now.sections.items }
    requires within { All (λ e. e.1 < e_shnum source.now.elf.now.file.now) plan.now.order.items }
    requires distinct { AllPairs (λ e f. e.1 ≢ f.1) plan.now.order.items }
    ensures names { IfOk result (λ new. new.names ≡ e_shstrndx source.now.elf.now.file.now) }
    ensures base { IfOk result (λ new. tail.new.base ≡ tail.old.base) }
    ensures put { IfOk result (λ new. ArePutWith source.now.elf.now source.now.tables.now source.now.funcs.now
        source.now.cold.now source.now.map.now plan.now.area plan.now.shift plan.now.contents.items
        plan.now.order.items tail.old.base
        (tail.old.base + length tail.old.bytes.items) tail.new.bytes.items new.section_headers_at new.headers.items) }
{
    check_sizes(source, &plan.contents)?;
    let mut names = NewNames::new(alloc, source.elf, &plan.own)?;
    let mut headers = old_headers(alloc, source.elf, &mut names.sections)?;
    let text = u16::try_from(headers.len()).map_err(|_| Unwritable::Layout)?;
    let adds_ranges = adds_ranges(source.elf, source.tables);
    added_headers(
        &mut headers,
        &plan.area,
        source.tables,
        adds_ranges,
        &mut names.sections,
    )?;
    let symbols = new_symbols(alloc, source, &plan.own, &mut names, &mut headers, text)?;
    set_all_contents(
        &mut headers,
        &source.elf.sections,
        &plan.contents,
        &plan.shift,
    );
    let new = NewContents {
        section_names: names.sections.bytes(),
        symbols: &symbols,
        symbol_names: names.of_symbols(),
        tables: source.tables,
        ranges: bytes_called(source.tables, DEBUG_RNGLISTS),
    };
    let section_headers_at = put_contents(
        alloc,
        source,
        plan,
        &new,
        adds_ranges,
        &mut headers,
        tail,
    )?;
    Ok(NewSections {
        headers,
        names: plan.own.section_names,
        section_headers_at,
    })
}

// Sets what the headers of the input's sections say of their contents, as `set_contents` does for one.
fn set_all_contents(
    headers: &mut [SectionHeader],
    sections: &[Section],
    contents: &[Contents],
    shift: &Shift,
)
    ensures count { length headers.new ≡ length headers.old }
    ensures set { (k : ℕ) (h : SectionHeader) (s : Section) (c : Contents) → k < length contents.now →
        k < length headers.old → k < length sections.now → slice_index_or headers.new k h
        ≡ set_header shift.now (slice_index_or contents.now k c) (slice_index_or sections.now k s)
        (slice_index_or headers.old k h) }
    ensures others { (k : ℕ) (h : SectionHeader) → length contents.now ≤ k →
        slice_index_or headers.new k h ≡ slice_index_or headers.old k h }
{
    for i in 0..contents.len().min(headers.len()).min(sections.len()) {
        set_contents(&mut headers[i], &sections[i], contents[i], shift);
    }
}

// Sets offsets past `end` to `end`.
fn cap_offsets(headers: &mut [SectionHeader], end: u64)
    ensures count { length headers.new ≡ length headers.old }
    ensures capped { AreCapped end headers.old headers.new }
{
    for i in 0..headers.len() {
        headers[i].offset = headers[i].offset.min(end);
    }
}

// Where a table of `count` section headers ends that is at `place`.
fn table_end(place: u64, count: usize) -> Result<u64, Unwritable>
    ensures end { IfOk result (λ end. end ≡ place + SHDR_SIZE * count) }
    ensures fits { IfOk result (λ end. end < 2 ^ 64) }
{
    let size = (count as u64).checked_mul(SHDR_SIZE as u64);
    sum(place, size.ok_or(Unwritable::Layout)?)
}

// Writes the table of headers, which ends the file, and gives its offset. Offsets past the file's end, which contents
// without bytes may have, are set to that end.
fn put_table(
    alloc: Global,
    headers: &mut [SectionHeader],
    tail: &mut Tail,
) -> Result<u64, Unwritable>
    ensures base { IfOk result (λ at. tail.new.base ≡ tail.old.base) }
    ensures count { IfOk result (λ at. length headers.new ≡ length headers.old) }
    ensures capped { IfOk result (λ at.
        AreCapped (tail.new.base + length tail.new.bytes.items) headers.old headers.new) }
    ensures ends { IfOk result (λ at. EndsWith tail.old.base (tail.old.base + length tail.old.bytes.items)
        tail.new.bytes.items at headers.new) }
    ensures keeps { IfOk result (λ at.
        (o : ℕ) (xs : List ℕ) → Stands tail.old.bytes.items o xs → Stands tail.new.bytes.items o xs) }
{
    let place = tail.align_to(8)?;
    let end = table_end(place, headers.len())?;
    cap_offsets(headers, end);
    let mut bytes = Vec::new(alloc);
    put_sections(&mut bytes, headers)?;
    tail.append(&bytes)?;
    Ok(place)
}
