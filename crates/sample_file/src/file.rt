// Putting a sample's file together. gABI, "ELF Header" and "Program Header".
ghost use Rattle.std.specs.Prelude.{◌≤◌};

use crate::code::code;
use crate::debug_info::{ABBREVIATIONS, info};
use crate::debug_line::lines;
use crate::frames::{frames, index};
use crate::places::{BASE, CODE, DATA, function_at, round_up};
use crate::relocations::{calls, data, pointers};
use crate::sections::{Sections, TEXT, loaded, relocations, symbol_table, unloaded};
use crate::symbols::make_symbols;
use elf_image::Segment;
use elf_image::header::{EHDR_SIZE, EM_RISCV, ET_EXEC, IDENTIFICATION};
use elf_image::section::{SHDR_SIZE, SHF_ALLOC, SHF_EXECINSTR, SHT_PROGBITS, SHT_STRTAB};
use elf_image::segment::{PF_R, PF_W, PF_X, PHDR_SIZE, PT_GNU_EH_FRAME, PT_LOAD};
use elf_parts::spell::put_segments;
use rb_bytes::fault::NoMemory;
use rb_bytes::little::{put_u16, put_u32, put_u64};
use std::alloc::Global;

// The flag of a section that may be written. gABI, "Section Attribute Flags".
const SHF_WRITE: u64 = 1;

// The indices of sections to which other sections refer, in addition to the code: pointers, the symbol table and its
// names.
const POINTERS: u32 = 4;

const SYMBOLS: u32 = 10;

const SYMBOL_NAMES: u32 = 11;

const SECTION_NAMES: u16 = 12;

/// The number of section headers of a sample.
pub const SECTION_COUNT: u16 = 13;

/// The number of program headers of a sample.
pub const SEGMENT_COUNT: u16 = 3;

// The sizes of the headers at the start: the file's header, and the program headers.
const FILE_HEADER: u64 = EHDR_SIZE as u64;

const FRONT: u64 = FILE_HEADER + SEGMENT_COUNT as u64 * PHDR_SIZE as u64;

// The alignment of segments.
const PAGE: u64 = 0x1000;

// The loaded parts: the code, the unwind table and its index in one segment, and the pointers in a segment of their
// own.
#[derive(Drop)]
struct Memory {
    code: Vec<u8>,
    frames_at: u64,
    frames: Vec<u8>,
    index_at: u64,
    index: Vec<u8>,
    pointers: Vec<u8>,
}

impl Memory {
    // The size of the executable segment in the file.
    fn code_size(&self) -> u64 {
        self.index_at
            .saturating_add(self.index.len() as u64)
            .saturating_sub(BASE)
    }

    // The offset of the writable segment in the file.
    fn data_offset(&self) -> u64 {
        round_up(self.code_size(), PAGE)
    }
}

// Makes all loaded parts, with their addresses.
fn load(alloc: Global, n: u64) -> Result<Memory, NoMemory>
    requires { n ≤ 1000 }
{
    let code = code(alloc, n)?;
    let frames_at = round_up(CODE.saturating_add(code.len() as u64), 8);
    let frames = frames(alloc, n, frames_at)?;
    let index_at = round_up(frames_at.saturating_add(frames.len() as u64), 4);
    let index = index(alloc, n, frames_at, index_at)?;
    let pointers = data(alloc, n)?;
    Ok(Memory {
        code,
        frames_at,
        frames,
        index_at,
        index,
        pointers,
    })
}

// Adds the loaded sections. A byte has the same offset in the file as in its segment.
fn add_loaded(sections: &mut Sections, x: &Memory) -> Result<(), NoMemory> {
    sections.fill(CODE - BASE)?;
    sections.add(
        b".text",
        loaded(SHF_ALLOC | SHF_EXECINSTR, CODE, 4),
        &x.code,
    )?;
    sections.add(b".eh_frame", loaded(SHF_ALLOC, x.frames_at, 8), &x.frames)?;
    sections.add(b".eh_frame_hdr", loaded(SHF_ALLOC, x.index_at, 4), &x.index)?;
    sections.fill(x.data_offset())?;
    sections.add(
        b".data",
        loaded(SHF_ALLOC | SHF_WRITE, DATA, 8),
        &x.pointers,
    )
}

fn add_relocations(sections: &mut Sections, alloc: Global, n: u64) -> Result<(), NoMemory>
    requires { n ≤ 1000 }
{
    let of_calls = calls(alloc, n)?;
    sections.add(b".rela.text", relocations(SYMBOLS, TEXT as u32), &of_calls)?;
    let of_pointers = pointers(alloc, n)?;
    sections.add(b".rela.data", relocations(SYMBOLS, POINTERS), &of_pointers)
}

fn add_debug(sections: &mut Sections, alloc: Global, n: u64) -> Result<(), NoMemory>
    requires { n ≤ 1000 }
{
    sections.add(b".debug_abbrev", unloaded(SHT_PROGBITS), ABBREVIATIONS)?;
    sections.add(b".debug_info", unloaded(SHT_PROGBITS), &info(alloc, n)?)?;
    sections.add(b".debug_line", unloaded(SHT_PROGBITS), &lines(alloc, n)?)
}

fn add_symbols(sections: &mut Sections, alloc: Global, n: u64) -> Result<(), NoMemory>
    requires { n ≤ 1000 }
{
    let symbols = make_symbols(alloc, n)?;
    sections.add(b".symtab", symbol_table(SYMBOL_NAMES), &symbols.table)?;
    sections.add(b".strtab", unloaded(SHT_STRTAB), &symbols.names)
}

// A segment all of whose bytes are in the file.
fn whole_segment(
    kind: u32,
    flags: u32,
    offset: u64,
    address: u64,
    size: u64,
    align: u64,
) -> Segment {
    Segment {
        kind,
        flags,
        offset,
        vaddr: address,
        paddr: address,
        filesz: size,
        memsz: size,
        align,
    }
}

// The segments of the code, of the pointers, and of the index of the unwind table.
fn segments(x: &Memory) -> [Segment; 3] {
    let index_offset = x.index_at.saturating_sub(BASE);
    let index_size = x.index.len() as u64;
    let data_size = x.pointers.len() as u64;
    [
        whole_segment(PT_LOAD, PF_R | PF_X, 0, BASE, x.code_size(), PAGE),
        whole_segment(PT_LOAD, PF_R | PF_W, x.data_offset(), DATA, data_size, PAGE),
        whole_segment(
            PT_GNU_EH_FRAME,
            PF_R,
            index_offset,
            x.index_at,
            index_size,
            4,
        ),
    ]
}

// The version of the format.
const EV_CURRENT: u32 = 1;

// Appends the file's header. `sections_at` is the offset of the section headers.
fn put_file_header(file: &mut Vec<u8>, entry: u64, sections_at: u64) -> Result<(), NoMemory> {
    file.extend_from_slice(IDENTIFICATION)?;
    // `EI_OSABI` and `EI_ABIVERSION` are 0, and so is the padding up to `EI_NIDENT`.
    file.extend_from_slice(&[0; 9])?;
    put_u16(file, ET_EXEC)?;
    put_u16(file, EM_RISCV)?;
    put_u32(file, EV_CURRENT)?;
    put_u64(file, entry)?;
    put_u64(file, FILE_HEADER)?;
    put_u64(file, sections_at)?;
    // No flags: no compressed instructions, and the soft-float ABI.
    put_u32(file, 0)?;
    put_sizes(file)
}

// Appends the sizes and counts of headers, which are the end of the file's header.
fn put_sizes(file: &mut Vec<u8>) -> Result<(), NoMemory> {
    put_u16(file, EHDR_SIZE as u16)?;
    put_u16(file, PHDR_SIZE as u16)?;
    put_u16(file, SEGMENT_COUNT)?;
    put_u16(file, SHDR_SIZE as u16)?;
    put_u16(file, SECTION_COUNT)?;
    put_u16(file, SECTION_NAMES)
}

/// The file of sample `n`: an executable without compressed instructions, linked at fixed addresses, with its
/// relocations kept and its debug data.
pub fn file(alloc: Global, n: u64) -> Result<Vec<u8>, NoMemory>
    requires { n ≤ 1000 }
{
    let memory = load(alloc, n)?;
    let mut sections = Sections::new(alloc, FRONT)?;
    add_loaded(&mut sections, &memory)?;
    add_relocations(&mut sections, alloc, n)?;
    add_debug(&mut sections, alloc, n)?;
    add_symbols(&mut sections, alloc, n)?;
    let sections_at = sections.close(b".shstrtab")?;
    let mut file = Vec::new(alloc);
    put_file_header(&mut file, function_at(n), sections_at)?;
    put_segments(&mut file, &segments(&memory))?;
    file.extend_from_slice(&sections.bytes)?;
    Ok(file)
}
