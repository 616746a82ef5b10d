// Decides on the contents of a written file's sections. gABI, "Section Header".
ghost use Rattle.std.specs.Prelude.{◌≡◌, AllPairs, IfOk, IsTrue, map, position, string_bytes};
ghost use Rattle.elf_image.specs.file.SectionNames.{is_called};
ghost use Rattle.elf_plan.specs.Contents as spec;
ghost use Rattle.rv_code.specs.layout.Lists.{IsPairBefore};

use crate::given_tables::Table;
use crate::kept_bytes::KeptBytes;
use crate::name_tables::OwnSections;
use crate::section_bytes::SHT_NULL;
use crate::unwritable::Unwritable;
use elf_image::named::names_frames;
use elf_image::relocation::SHT_RELA;
use elf_image::section::SHT_NOBITS;
use elf_image::{Elf, Section};
use rb_bytes::fault::NoMemory;
use std::alloc::Global;

/// The position of the contents of an input section in the written file.
#[derive(Clone, Copy)]
pub enum Contents {
    /// Nowhere: the section is left out, and its header becomes one of type SHT_NULL.
    Dropped,
    /// There are none: the input's header has type SHT_NULL already.
    Inactive,
    /// Among the loaded bytes of the input, or not in the file (SHT_NOBITS).
    Kept,
    /// After the loaded bytes, copied.
    Copied,
    /// After the loaded bytes: the section names, rewritten.
    SectionNames,
    /// After the loaded bytes: the symbol table, rewritten.
    Symbols,
    /// After the loaded bytes: the symbol names, rewritten.
    SymbolNames,
    /// After the loaded bytes: a given table, by its index among these tables.
    Given(usize),
}

impl Contents {
    ghost use Rattle.std.specs.Prelude.{◌≡◌};
    ghost use Rattle.elf_plan.specs.FileLayout.{is_written};

    /// Whether the contents are written after the loaded bytes.
    pub fn is_written(&self) -> bool
        ensures { result ≡ is_written self.now }
    {
        match self {
            Contents::Dropped | Contents::Inactive | Contents::Kept => false,
            Contents::Copied
            | Contents::SectionNames
            | Contents::Symbols
            | Contents::SymbolNames
            | Contents::Given(_) => true,
        }
    }
}

// Whether a header is a null header: it has type SHT_NULL and no contents.
fn is_inactive(section: &Section) -> bool
    ensures { result ≡ spec.is_inactive section.now }
{
    section.kind == SHT_NULL && section.size == 0
}

/// The index of the first section that `name` refers to.
pub fn index_called(sections: &[Section], name: &[u8]) -> Option<usize>
    ensures { result ≡ position (is_called name.now) sections.now }
{
    sections.iter().position(|s| s.is_called(name))
}

/// The index of the section that the table called `name` replaces. None for the unwind table and its index, which are
/// in the new area.
pub fn place_replaced(sections: &[Section], name: &[u8]) -> Option<usize>
    ensures { result ≡ spec.place_replaced sections.now name.now }
{
    if names_frames(name) {
        None
    } else {
        index_called(sections, name)
    }
}

/// For each table, the index of the section that it replaces.
pub fn replaced_by(
    alloc: Global,
    sections: &[Section],
    tables: &[Table],
) -> Result<Vec<Option<usize>>, NoMemory>
    ensures { IfOk result (λ r. r.items ≡ map (λ t. spec.place_replaced sections.now (string_bytes t.0)) tables.now) }
{
    let mut replaced = Vec::new(alloc);
    for table in tables {
        replaced.push(place_replaced(sections, table.0.as_bytes()))?;
    }
    Ok(replaced)
}

/// The name of DWARF's macro table, which is left out.
pub const DEBUG_MACRO: &[u8] = b".debug_macro";

const GDB_INDEX: &[u8] = b".gdb_index";

/// Whether a section is left out: relocations, and tables with code addresses that aren't carried over.
pub fn is_left_out(section: &Section) -> bool
    ensures { result ≡ spec.is_left_out section.now }
{
    section.kind == SHT_RELA
        || (!section.is_loaded() && (section.name == DEBUG_MACRO || section.name == GDB_INDEX))
}

// Whether pairs are strictly ascending.
fn are_ascending(pairs: &[(u64, usize)]) -> bool
    ensures { IsTrue result → AllPairs IsPairBefore pairs.now }
{
    for i in 1..pairs.len() {
        if !is_pair_before(&pairs[i - 1], &pairs[i]) {
            return false;
        }
    }
    true
}

// Whether `p` comes before `q`, by the first number and then by the second.
fn is_pair_before(p: &(u64, usize), q: &(u64, usize)) -> bool
    ensures { IsTrue result → IsPairBefore p.now q.now }
{
    p.0 < q.0 || (p.0 == q.0 && p.1 < q.1)
}

/// Known facts on the sections of a file that is written.
#[derive(Clone, Copy)]
pub struct Sections<'a> {
    pub elf: &'a Elf<'a>,
    pub own: OwnSections,
    /// For each table, the index of the section that it replaces.
    pub replaced: &'a [Option<usize>],
    pub kept: &'a KeptBytes,
}

impl<'a> Sections<'a> {
    ghost use Rattle.std.specs.Prelude.{◌≡◌, ℕ, List, Option, Some, None, IfOk, position, slice_get, unwrap_or};
    ghost use Rattle.std.specs.Prelude.{option_map};
    ghost use Rattle.std.specs.Option.{option_map_or};
    ghost use Rattle.elf_image.specs.declared.segment.Segment.{Segment};
    ghost use Rattle.elf_plan.specs.declared.area.Area.{Area};
    ghost use Rattle.elf_plan.specs.declared.area.Shift.{Shift};
    ghost use Rattle.elf_plan.specs.Contents as spec;
    ghost use Rattle.elf_plan.specs.FileLayout.{PassesAt};
    ghost use Rattle.elf_plan.specs.Homes.{AreContents};
    ghost use Rattle.elf_plan.specs.KeptBytes.{Keeps};
    ghost use Rattle.elf_plan.specs.WrittenSections.{is_written_by, offset_if};
    ghost use Rattle.rv_code.specs.layout.Lists.{ListsPairs};

    // The index of the table that replaces the section at `index`.
    fn table_for(&self, index: usize) -> Option<usize>
        ensures { result ≡ position (spec.is_at index) self.now.replaced.now }
    {
        self.replaced.iter().position(|r| *r == Some(index))
    }

    // The position of the contents of a section that is neither rewritten, left out nor replaced by a table.
    fn own_contents(&self, section: &Section) -> Contents
        ensures { (segments : List Segment) (area : Area) (shift : Shift) →
            Keeps segments area shift self.now.kept.now →
            result ≡ spec.own_contents segments area shift section.now }
    {
        if is_inactive(section) {
            return Contents::Inactive;
        }
        if section.kind == SHT_NOBITS {
            return Contents::Kept;
        }
        if section.is_loaded() && (section.size == 0 || self.kept.has(section)) {
            return Contents::Kept;
        }
        Contents::Copied
    }

    // The offset in the input of the section at `index`, if its contents are written after the loaded bytes.
    fn written_at(&self, index: usize) -> Option<u64>
        ensures { (segments : List Segment) (area : Area) (shift : Shift) →
            Keeps segments area shift self.now.kept.now →
            result ≡ offset_if (is_written_by self.now segments area shift) index
            (slice_get self.now.elf.now.sections.items index) }
    {
        let section = self.elf.sections.get(index)?;
        self.offset_if_written(index, section)
    }

    fn offset_if_written(&self, index: usize, section: &Section) -> Option<u64>
        ensures { (segments : List Segment) (area : Area) (shift : Shift) →
            Keeps segments area shift self.now.kept.now →
            result ≡ offset_if (is_written_by self.now segments area shift) index (Some section.now) }
    {
        if self.contents_of(index, section).is_written() {
            Some(section.offset)
        } else {
            None
        }
    }

    /// The sections whose contents are written after the loaded bytes: their offsets in the input and their indices,
    /// ascending.
    pub fn order(&self, alloc: Global) -> Result<Vec<(u64, usize)>, Unwritable>
        ensures { (segments : List Segment) (area : Area) (shift : Shift) →
            Keeps segments area shift self.now.kept.now →
            IfOk result (λ order.
            ListsPairs (PassesAt self.now.elf.now.sections.items (is_written_by self.now segments area shift))
            order.items) }
    {
        let mut order = Vec::new(alloc);
        for i in 0..self.elf.sections.len() {
            if let Some(offset) = self.written_at(i) {
                order.push((offset, i))?;
            }
        }
        order.sort_unstable();
        if !are_ascending(&order) {
            return Err(Unwritable::Layout);
        }
        Ok(order)
    }

    /// The positions of the contents of all sections.
    pub fn contents(&self, alloc: Global) -> Result<Vec<Contents>, NoMemory>
        ensures { IfOk result (λ found. (segments : List Segment) (area : Area) (shift : Shift) →
            Keeps segments area shift self.now.kept.now →
            AreContents (λ i s. spec.contents_by self.now.own.section_names self.now.own.symbols
            self.now.own.symbol_names (position (spec.is_at i) self.now.replaced.now)
            (spec.own_contents segments area shift s) i s)
            self.now.elf.now.sections.items found.items) }
    {
        let mut contents = Vec::new(alloc);
        for i in 0..self.elf.sections.len() {
            contents.push(self.contents_of(i, &self.elf.sections[i]))?;
        }
        Ok(contents)
    }

    /// The position of the contents of `section`, which has the index `index`.
    pub fn contents_of(&self, index: usize, section: &Section) -> Contents
        ensures { (segments : List Segment) (area : Area) (shift : Shift) →
            Keeps segments area shift self.now.kept.now →
            result ≡ spec.contents_by self.now.own.section_names self.now.own.symbols self.now.own.symbol_names
            (position (spec.is_at index) self.now.replaced.now)
            (spec.own_contents segments area shift section.now) index section.now }
    {
        if self.own.section_names == index {
            return Contents::SectionNames;
        }
        if self.own.symbols == Some(index) {
            return Contents::Symbols;
        }
        if self.own.symbol_names == Some(index) {
            return Contents::SymbolNames;
        }
        if is_left_out(section) {
            return Contents::Dropped;
        }
        match self.table_for(index) {
            Some(table) => Contents::Given(table),
            None => self.own_contents(section),
        }
    }
}
