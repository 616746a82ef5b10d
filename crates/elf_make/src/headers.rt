// The section headers of a written file, and the contents after its loaded bytes. gABI, "Section Header".
ghost use Rattle.std.specs.Prelude.{◌≡◌, ◌≢◌, ◌+◌, ◌-◌, ◌<◌, ◌≤◌, ◌++◌, ℕ, List, All, AllPairs, IfOk, OnOk};
ghost use Rattle.std.specs.Prelude.{Some, [], codes, false, flat_map, is_some, length, map, slice_get, slice_index_or};
ghost use Rattle.std.specs.Option.{option_map_or};
ghost use Rattle.elf_image.specs.declared.section.Section.{Section};
ghost use Rattle.elf_image.specs.declared.section.SectionHeader.{SectionHeader};
ghost use Rattle.elf_image.specs.file.Sections.{section_header};
ghost use Rattle.elf_plan.specs.Area.{area_offset};
ghost use Rattle.elf_make.specs.SetHeaders.{Adds, AddsAt, AreAdded, IsNamed, IsRenamed};
ghost use Rattle.elf_parts.specs.Patches.{Stands};
ghost use Rattle.elf_make.specs.PlacedContents.{ArePlaced, IsPlaced, bytes_at, set_header};
ghost use Rattle.elf_image.specs.faults.Truncation.{IsReadable};
ghost use Rattle.elf_image.specs.file.Header.{e_shnum};
ghost use Rattle.elf_plan.specs.FileLayout.{added_ranges};
ghost use Rattle.elf_plan.specs.Contents.{section_bytes};
ghost use Rattle.elf_plan.specs.NewNames.{added_names, ended, ended_if, old_ended};
ghost use Rattle.elf_plan.specs.NewSections.{without_code};

use crate::names::NameTable;
use crate::tail::{Tail, end_behind};
use elf_image::entries::SectionTable;
use elf_image::named::{EH_FRAME, EH_FRAME_HDR};
use elf_image::relocation::SHT_RELA;
use elf_image::section::{SHF_ALLOC, SHF_EXECINSTR, SHT_NOBITS, SHT_PROGBITS};
use elf_image::{Elf, Section, SectionHeader};
use elf_plan::area::{Area, Shift};
use elf_plan::given_tables::{Table, table_size};
use elf_plan::old_name::{is_renamed, old_prefix};
use elf_plan::section_bytes::{SHT_NULL, bytes_of, flags_left, without_code};
use elf_plan::sections::Contents;
use elf_plan::unwritable::Unwritable;
use file_bounds::{OUTPUT_BESIDE, OUTPUT_BYTES, OUTPUT_RATIO};
use std::alloc::Global;

// The alignments of the sections in the new area. Those of the tables are the ones by which `elf_plan` places them.
const CODE_ALIGN: u64 = 16;

const FRAMES_ALIGN: u64 = 8;

const INDEX_ALIGN: u64 = 4;

/// The contents of sections that are rewritten, and of those that are given.
#[derive(Clone, Copy)]
pub struct NewContents<'a> {
    pub section_names: &'a [u8],
    pub symbols: &'a [u8],
    pub symbol_names: &'a [u8],
    pub tables: &'a [Table],
    /// The table of ranges that is added; no bytes if none is.
    pub ranges: &'a [u8],
}

// The offset of the name of `section`: `old`, or that of its new name, which is added to `names`, if it is renamed.
fn name_of(section: &Section, old: u32, names: &mut NameTable) -> Result<u32, Unwritable>
    ensures named { IfOk result (λ at. IsNamed names.new.bytes.items section.now old at) }
    ensures names { IfOk result (λ at. names.new.bytes.items ≡ names.old.bytes.items ++ old_ended section.now) }
{
    if !is_renamed(section) {
        return Ok(old);
    }
    let at = names.add(old_prefix(section.name), section.name)?;
    Ok(at)
}

// The header of the section at `index` in the input, with its new name, which is added to `names`, if it is renamed.
fn header_of(elf: &Elf, index: usize, names: &mut NameTable) -> Result<SectionHeader, Unwritable>
    requires readable { IsReadable elf.now.file.now }
    requires index { index < e_shnum elf.now.file.now }
    ensures renamed { IfOk result (λ header. (s : Section) → slice_get elf.now.sections.items index ≡ Some s →
        IsRenamed names.new.bytes.items s (section_header elf.now.file.now index) header) }
    ensures names { IfOk result (λ header. names.new.bytes.items
        ≡ names.old.bytes.items ++ option_map_or old_ended (slice_get elf.now.sections.items index) []) }
{
    let mut header = SectionTable { file: elf.file }.section_of(index);
    match elf.sections.get(index) {
        Some(section) => {
            header.name = name_of(section, header.name, names)?;
            Ok(header)
        }
        None => Ok(header),
    }
}

/// The headers of the input's sections, with new names, which are added to `names`, if sections are renamed.
pub fn old_headers(
    alloc: Global,
    elf: &Elf,
    names: &mut NameTable,
) -> Result<Vec<SectionHeader>, Unwritable>
    requires readable { IsReadable elf.now.file.now }
    requires count { length elf.now.sections.items ≡ e_shnum elf.now.file.now }
    ensures count { IfOk result (λ headers. length headers.items ≡ e_shnum elf.now.file.now) }
    ensures each { IfOk result (λ headers. (k : ℕ) (s : Section) (d : SectionHeader) → k < e_shnum elf.now.file.now →
        slice_get elf.now.sections.items k ≡ Some s → IsRenamed names.new.bytes.items s
        (section_header elf.now.file.now k) (slice_index_or headers.items k d)) }
    ensures names { IfOk result (λ headers.
        names.new.bytes.items ≡ names.old.bytes.items ++ flat_map old_ended elf.now.sections.items) }
{
    let count = SectionTable { file: elf.file }.count();
    let mut headers = Vec::new(alloc);
    for i in 0..count {
        headers.push(header_of(elf, i, names)?)?;
    }
    Ok(headers)
}

// Adds the header of the section `text` of `size` bytes at the address `addr`, which is in the new area.
fn add_in_area(
    headers: &mut Vec<SectionHeader>,
    names: &mut NameTable,
    area: &Area,
    text: &[u8],
    flags: u64,
    addr: u64,
    size: u64,
    align: u64,
) -> Result<(), Unwritable>
    ensures adds { OnOk result (Adds names.new.bytes.items text.now flags addr (area_offset area.now addr) size align
        headers.old.items headers.new.items) }
    ensures names { OnOk result (names.new.bytes.items ≡ names.old.bytes.items ++ ended text.now) }
{
    let name = names.add(text, b"")?;
    let offset = area.offset_of(addr)?;
    headers.push(SectionHeader {
        name,
        kind: SHT_PROGBITS,
        flags,
        addr,
        offset,
        size,
        link: 0,
        info: 0,
        align,
        entsize: 0,
    })?;
    Ok(())
}

// Adds the header of the table `text`, if the area has the address `place` for it.
fn add_table(
    headers: &mut Vec<SectionHeader>,
    names: &mut NameTable,
    area: &Area,
    text: &[u8],
    place: Option<u64>,
    size: u64,
    align: u64,
) -> Result<(), Unwritable>
    ensures adds { OnOk result
        (AddsAt names.new.bytes.items text.now area.now place size align headers.old.items headers.new.items) }
    ensures names { OnOk result
        (names.new.bytes.items ≡ names.old.bytes.items ++ ended_if (is_some place) text.now) }
{
    match place {
        Some(addr) => add_in_area(headers, names, area, text, SHF_ALLOC, addr, size, align),
        None => Ok(()),
    }
}

// Adds the header of the section with the new code.
fn add_text(
    headers: &mut Vec<SectionHeader>,
    names: &mut NameTable,
    area: &Area,
) -> Result<(), Unwritable>
    ensures adds { OnOk result (Adds names.new.bytes.items (codes ".text") (SHF_ALLOC + SHF_EXECINSTR) area.now.start
        (area_offset area.now area.now.start) (area.now.code_end - area.now.start) 16 headers.old.items
        headers.new.items) }
    ensures names { OnOk result (names.new.bytes.items ≡ names.old.bytes.items ++ ended (codes ".text")) }
{
    let size = area.code_end.saturating_sub(area.start);
    let flags = SHF_ALLOC + SHF_EXECINSTR;
    add_in_area(
        headers, names, area, b".text", flags, area.start, size, CODE_ALIGN,
    )
}

/// Adds the headers of the sections in the new area: the code, and the unwind table and its index if there are any.
pub fn area_headers(
    headers: &mut Vec<SectionHeader>,
    area: &Area,
    tables: &[Table],
    names: &mut NameTable,
) -> Result<(), Unwritable>
    ensures added { OnOk result
        (AreAdded names.new.bytes.items tables.now area.now false headers.old.items headers.new.items) }
    ensures names { OnOk result
        (names.new.bytes.items ≡ names.old.bytes.items ++ added_names area.now false) }
{
    let frames_size = table_size(tables, EH_FRAME).unwrap_or(0) as u64;
    let index_size = table_size(tables, EH_FRAME_HDR).unwrap_or(0) as u64;
    add_text(headers, names, area)?;
    add_table(
        headers,
        names,
        area,
        EH_FRAME,
        area.frames,
        frames_size,
        FRAMES_ALIGN,
    )?;
    add_table(
        headers,
        names,
        area,
        EH_FRAME_HDR,
        area.index,
        index_size,
        INDEX_ALIGN,
    )?;
    Ok(())
}

impl<'a> NewContents<'a> {
    ghost use Rattle.std.specs.Prelude.{◌≡◌};
    ghost use Rattle.elf_make.specs.PlacedContents.{bytes_at, written_bytes};
    ghost use Rattle.elf_plan.specs.NewSections.{given_bytes};

    // The bytes of the table at an index of those that are given.
    fn given(&self, index: usize) -> &'a [u8]
        ensures { result.now ≡ given_bytes self.now.tables.now index }
    {
        match self.tables.get(index) {
            Some(table) => &table.1,
            None => &[],
        }
    }

    // The bytes that are written after the loaded ones for `section`, whose contents are at `contents`.
    fn written(&self, file: &'a [u8], contents: Contents, section: &Section) -> &'a [u8]
        ensures { result.now ≡ written_bytes self.now file.now contents section.now }
    {
        match contents {
            Contents::Dropped | Contents::Inactive | Contents::Kept => &[],
            Contents::Copied => bytes_of(file, section),
            Contents::SectionNames => self.section_names,
            Contents::Symbols => self.symbols,
            Contents::SymbolNames => self.symbol_names,
            Contents::Given(table) => self.given(table),
        }
    }

    // Those of the section at `index`. An index past the input's sections means the added table of ranges.
    fn bytes_at(&self, elf: &Elf<'a>, contents: &[Contents], index: usize) -> &'a [u8]
        ensures { result.now ≡ bytes_at self.now elf.now contents.now index }
    {
        match (elf.sections.get(index), contents.get(index)) {
            (Some(section), Some(contents)) => self.written(elf.file, *contents, section),
            (Some(_), None) => &[],
            (None, _) => self.ranges,
        }
    }
}

// The header of a section that is left out, of which the name and these flags are left.
fn no_section(name: u32, flags: u64) -> SectionHeader
    ensures { result ≡ record {
      name = name;
      kind = 0;
      flags = flags;
      addr = 0;
      offset = 0;
      size = 0;
      link = 0;
      info = 0;
      align = 0;
      entsize = 0;
    } }
{
    SectionHeader {
        name,
        kind: SHT_NULL,
        flags,
        addr: 0,
        offset: 0,
        size: 0,
        link: 0,
        info: 0,
        align: 0,
        entsize: 0,
    }
}

/// Sets what a section's header says of its contents. Offsets and sizes of those that are written after the loaded
/// bytes are set where they are written.
pub fn set_contents(
    header: &mut SectionHeader,
    section: &Section,
    contents: Contents,
    shift: &Shift,
)
    ensures { header.new ≡ set_header shift.now contents section.now header.old }
{
    match contents {
        Contents::Dropped => *header = no_section(header.name, flags_left(section)),
        Contents::Inactive => {}
        Contents::Kept => header.offset = shift.reach(header.offset).min(u64::MAX as u128) as u64,
        Contents::Copied => {}
        Contents::SectionNames | Contents::Symbols | Contents::SymbolNames => {
            header.flags = without_code(header.flags);
            if header.kind == SHT_RELA {
                header.kind = SHT_NULL;
            }
        }
        Contents::Given(_) => {
            if header.kind == SHT_NOBITS {
                header.kind = SHT_PROGBITS;
            }
        }
    }
}

// Writes `bytes`, the contents of the section at `index`, and sets its header's offset and size.
fn place_bytes(
    headers: &mut [SectionHeader],
    index: usize,
    bytes: &[u8],
    tail: &mut Tail,
) -> Result<(), Unwritable>
    requires { index < length headers.old }
    ensures base { tail.new.base ≡ tail.old.base }
    ensures count { length headers.new ≡ length headers.old }
    ensures others { (k : ℕ) (d : SectionHeader) → k ≢ index →
        slice_index_or headers.new k d ≡ slice_index_or headers.old k d }
    ensures here { OnOk result ((d : SectionHeader) →
        IsPlaced tail.old.base (tail.old.base + length tail.old.bytes.items) bytes.now tail.new.bytes.items
        (slice_index_or headers.old index d) (slice_index_or headers.new index d)) }
    ensures end { OnOk result ((d : SectionHeader) → tail.new.base + length tail.new.bytes.items
        ≡ (slice_index_or headers.new index d).offset + (slice_index_or headers.new index d).size) }
    ensures keeps { OnOk result
        ((o : ℕ) (xs : List ℕ) → Stands tail.old.bytes.items o xs → Stands tail.new.bytes.items o xs) }
{
    let place = tail.add(headers[index].align, bytes)?;
    headers[index].offset = place;
    headers[index].size = bytes.len() as u64;
    Ok(())
}

/// Finds where contents would end that are written from the offset `start` on, in the order `order`, before any is:
/// past `OUTPUT_BYTES`, or past the bytes that the input allows, is `TooLarge`. Zeros before huge alignments can make
/// that of a small file.
pub fn check_end<'a>(
    elf: &Elf<'a>,
    contents: &[Contents],
    order: &[(u64, usize)],
    new: &NewContents<'a>,
    start: u64,
) -> Result<(), Unwritable> {
    let mut end = start;
    for entry in order {
        if let Some(section) = elf.sections.get(entry.1) {
            let bytes = new.bytes_at(elf, contents, entry.1);
            end = end_behind(end, section.align, bytes.len())?;
        }
    }
    let most = (elf.file.len() as u64).saturating_mul(OUTPUT_RATIO);
    if end > most.saturating_add(OUTPUT_BESIDE) {
        return Err(Unwritable::TooLarge);
    }
    Ok(())
}

/// Writes the contents of sections after the loaded bytes, in the order `order`, and sets the offsets and sizes in
/// their headers.
pub fn place_contents<'a>(
    elf: &Elf<'a>,
    contents: &[Contents],
    order: &[(u64, usize)],
    new: &NewContents<'a>,
    headers: &mut [SectionHeader],
    tail: &mut Tail,
) -> Result<(), Unwritable>
    requires within { All (λ e. e.1 < length headers.old) order.now }
    requires distinct { AllPairs (λ e f. e.1 ≢ f.1) order.now }
    ensures base { OnOk result (tail.new.base ≡ tail.old.base) }
    ensures placed { OnOk result (ArePlaced (bytes_at new.now elf.now contents.now) (map (λ e. e.1) order.now)
        tail.old.base (tail.old.base + length tail.old.bytes.items) tail.new.bytes.items headers.old headers.new) }
    ensures keeps { OnOk result
        ((o : ℕ) (xs : List ℕ) → Stands tail.old.bytes.items o xs → Stands tail.new.bytes.items o xs) }
{
    for entry in order {
        let bytes = new.bytes_at(elf, contents, entry.1);
        place_bytes(headers, entry.1, bytes, tail)?;
    }
    Ok(())
}

// Writes `bytes`, the contents of the last section, and sets its header's offset and size.
fn place_last(
    headers: &mut [SectionHeader],
    bytes: &[u8],
    tail: &mut Tail,
) -> Result<(), Unwritable>
    requires { 0 < length headers.old }
    ensures base { tail.new.base ≡ tail.old.base }
    ensures count { length headers.new ≡ length headers.old }
    ensures others { (k : ℕ) (d : SectionHeader) → k ≢ length headers.old - 1 →
        slice_index_or headers.new k d ≡ slice_index_or headers.old k d }
    ensures here { OnOk result ((d : SectionHeader) →
        IsPlaced tail.old.base (tail.old.base + length tail.old.bytes.items) bytes.now tail.new.bytes.items
        (slice_index_or headers.old (length headers.old - 1) d)
        (slice_index_or headers.new (length headers.old - 1) d)) }
    ensures end { OnOk result ((d : SectionHeader) → tail.new.base + length tail.new.bytes.items
        ≡ (slice_index_or headers.new (length headers.old - 1) d).offset
        + (slice_index_or headers.new (length headers.old - 1) d).size) }
    ensures keeps { OnOk result
        ((o : ℕ) (xs : List ℕ) → Stands tail.old.bytes.items o xs → Stands tail.new.bytes.items o xs) }
{
    let last = headers.len() - 1;
    place_bytes(headers, last, bytes, tail)
}

/// Writes the contents of all sections, as `place_contents` does, and then the table of ranges, if it is added: its
/// header is the last.
pub fn place_all<'a>(
    elf: &Elf<'a>,
    contents: &[Contents],
    order: &[(u64, usize)],
    new: &NewContents<'a>,
    adds_ranges: bool,
    headers: &mut [SectionHeader],
    tail: &mut Tail,
) -> Result<(), Unwritable>
    requires within { All (λ e. e.1 + 1 < length headers.old) order.now }
    requires distinct { AllPairs (λ e f. e.1 ≢ f.1) order.now }
    requires more { length elf.now.sections.items < length headers.old }
    ensures base { OnOk result (tail.new.base ≡ tail.old.base) }
    ensures placed { OnOk result (ArePlaced (bytes_at new.now elf.now contents.now)
        (map (λ e. e.1) order.now ++ added_ranges adds_ranges (length headers.old)) tail.old.base
        (tail.old.base + length tail.old.bytes.items) tail.new.bytes.items headers.old headers.new) }
{
    place_contents(elf, contents, order, new, headers, tail)?;
    if !adds_ranges {
        return Ok(());
    }
    place_last(headers, new.ranges, tail)?;
    Ok(())
}
