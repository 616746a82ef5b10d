// Headers and symbols written as bytes. gABI, "Program Header", "Section Header" and "Symbol Table".
ghost use Rattle.std.specs.Prelude.{◌≡◌, ◌++◌, All, OnOk};
ghost use Rattle.elf_parts.specs.Spellings as spec;

use elf_image::{SectionHeader, Segment};
use rb_bytes::fault::NoMemory;
use rb_bytes::little::{put_u32, put_u64};

/// An entry of the symbol table, with its fields in the order of the file. gABI, "Symbol Table".
#[derive(Clone, Copy)]
pub struct SymbolEntry {
    /// `st_name`: where its name begins in the table of names.
    pub name: u32,
    /// `st_info`.
    pub info: u8,
    /// `st_other`.
    pub other: u8,
    /// `st_shndx`.
    pub section: u16,
    /// `st_value`.
    pub value: u64,
    /// `st_size`.
    pub size: u64,
}

// Appends a program header.
fn put_segment(out: &mut Vec<u8>, p: &Segment) -> Result<(), NoMemory>
    ensures bytes { OnOk result (out.new.items ≡ out.old.items ++ spec.segment_bytes p.now) }
    ensures fits { OnOk result (spec.SegmentFits p.now) }
{
    put_u32(out, p.kind)?;
    put_u32(out, p.flags)?;
    put_u64(out, p.offset)?;
    put_u64(out, p.vaddr)?;
    put_u64(out, p.paddr)?;
    put_u64(out, p.filesz)?;
    put_u64(out, p.memsz)?;
    put_u64(out, p.align)?;
    Ok(())
}

/// Appends a table of program headers.
#[tactic(auto, using(crate::proofs::Spellings::tables))]
pub fn put_segments(out: &mut Vec<u8>, segments: &[Segment]) -> Result<(), NoMemory>
    ensures bytes { OnOk result (out.new.items ≡ out.old.items ++ spec.segment_table segments.now) }
    ensures fits { OnOk result (All spec.SegmentFits segments.now) }
{
    for p in segments {
        put_segment(out, p)?;
    }
    Ok(())
}

// Appends what a section header says after its section's size.
fn put_links(out: &mut Vec<u8>, s: &SectionHeader) -> Result<(), NoMemory>
    ensures bytes { OnOk result (out.new.items ≡ out.old.items ++ spec.spelled (spec.link_numbers s.now)) }
    ensures fits { OnOk result (spec.LinksFit s.now) }
{
    put_u32(out, s.link)?;
    put_u32(out, s.info)?;
    put_u64(out, s.align)?;
    put_u64(out, s.entsize)?;
    Ok(())
}

// Appends a section header.
fn put_section(out: &mut Vec<u8>, s: &SectionHeader) -> Result<(), NoMemory>
    ensures bytes { OnOk result (out.new.items ≡ out.old.items ++ spec.section_header_bytes s.now) }
    ensures fits { OnOk result (spec.SectionFits s.now) }
{
    put_u32(out, s.name)?;
    put_u32(out, s.kind)?;
    put_u64(out, s.flags)?;
    put_u64(out, s.addr)?;
    put_u64(out, s.offset)?;
    put_u64(out, s.size)?;
    put_links(out, s)?;
    Ok(())
}

/// Appends a table of section headers.
#[tactic(auto, using(crate::proofs::Spellings::section_tables))]
pub fn put_sections(out: &mut Vec<u8>, sections: &[SectionHeader]) -> Result<(), NoMemory>
    ensures bytes { OnOk result (out.new.items ≡ out.old.items ++ spec.section_table sections.now) }
    ensures fits { OnOk result (All spec.SectionFits sections.now) }
{
    for s in sections {
        put_section(out, s)?;
    }
    Ok(())
}

// The bytes of an entry of the symbol table.
fn symbol_bytes(s: SymbolEntry) -> [u8; 24]
    ensures bytes { result ≡ spec.symbol_entry_bytes s }
    ensures fits { spec.SymbolFits s }
{
    let n = s.name.to_le_bytes();
    let e = s.section.to_le_bytes();
    let v = s.value.to_le_bytes();
    let z = s.size.to_le_bytes();
    [
        n[0], n[1], n[2], n[3], s.info, s.other, e[0], e[1], v[0], v[1], v[2], v[3], v[4], v[5],
        v[6], v[7], z[0], z[1], z[2], z[3], z[4], z[5], z[6], z[7],
    ]
}

/// Appends an entry of the symbol table.
pub fn put_symbol(out: &mut Vec<u8>, s: &SymbolEntry) -> Result<(), NoMemory>
    ensures bytes { OnOk result (out.new.items ≡ out.old.items ++ spec.symbol_entry_bytes s.now) }
    ensures fits { OnOk result (spec.SymbolFits s.now) }
{
    out.extend_from_slice(&symbol_bytes(*s))?;
    Ok(())
}
