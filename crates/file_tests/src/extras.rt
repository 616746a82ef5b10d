// The parts of files in addition to their code and data.
use crate::places::{BASE, Place, Places};
use elf_image::Segment;
use elf_image::header::EHDR_SIZE;
use elf_image::relocation::SHT_RELA;
use elf_image::section::{SHF_ALLOC, SHT_NOBITS};
use elf_image::segment::{PF_R, PF_W, PHDR_SIZE, PT_LOAD};
use test_files::parts::SHF_WRITE;
use test_files::{BuildError, ElfFile, Piece, Section};

/// A part of a file in addition to its code and data.
#[derive(Clone, Copy, PartialEq, Eq, Debug)]
pub enum Extra {
    Nothing,
    /// Six notes that aren't loaded, and one in the segment that loads the headers, each with a program header.
    Notes,
    /// Eight more segments, of which every other one has a section.
    Segments,
    /// A program header for the table of program headers.
    OwnTable,
    /// A program header for other bytes, as a tool leaves it that moved the table.
    ForeignTable,
    /// Program headers of the stack, of attributes and of data that becomes read-only.
    StackAndAttributes,
    /// Memory after the data for which the file has no bytes.
    Zeroed,
    /// Thread storage, with bytes and without.
    ThreadStorage,
    /// Sections that are empty, without a type, with a large alignment, without bytes, or over the bytes of other
    /// sections.
    Loose,
    /// A pointer to `f` that is half in one segment and half in the next, which are apart in the file.
    HalvedPointer,
    /// A loaded section of relocations that is empty, with the name of a debug table.
    DebugRelocations,
}

pub const EXTRAS: [Extra; 11] = [
    Extra::Nothing,
    Extra::Notes,
    Extra::Segments,
    Extra::OwnTable,
    Extra::ForeignTable,
    Extra::StackAndAttributes,
    Extra::Zeroed,
    Extra::ThreadStorage,
    Extra::Loose,
    Extra::HalvedPointer,
    Extra::DebugRelocations,
];

// Types of program headers. gABI, "Program Header"; psABI, "Program Header Table"; LSB, "Program Headers".
const PT_NOTE: u32 = 4;

const PT_PHDR: u32 = 6;

const PT_TLS: u32 = 7;

const PT_GNU_STACK: u32 = 0x6474_e551;

const PT_GNU_RELRO: u32 = 0x6474_e552;

const PT_RISCV_ATTRIBUTES: u32 = 0x7000_0003;

// Types of sections, and the flag of thread storage. gABI, "Section Types", "Section Attribute Flags"; psABI,
// "Attributes".
const SHT_NULL: u32 = 0;

const SHT_NOTE: u32 = 7;

const SHT_RISCV_ATTRIBUTES: u32 = 0x7000_0003;

const SHF_TLS: u64 = 0x400;

// A program header of bytes of the file, as they are loaded at an address.
fn header(kind: u32, place: Place, size: u64) -> Segment {
    Segment {
        kind,
        flags: PF_R,
        offset: place.offset,
        vaddr: place.addr,
        paddr: place.addr,
        filesz: size,
        memsz: size,
        align: 8,
    }
}

/// Adds the program headers that come before all others.
pub fn add_front(file: &mut ElfFile<'_>, extra: Extra, places: &Places) -> Result<(), BuildError> {
    let offset = EHDR_SIZE as u64;
    let addr = if places.loads_headers() {
        BASE.saturating_add(offset)
    } else {
        0
    };
    match extra {
        Extra::OwnTable => {
            let count: u64 = match (places.constants, places.data) {
                (Some(_), Some(_)) => 4,
                (None, None) => 2,
                _ => 3,
            };
            let size = count.saturating_mul(PHDR_SIZE as u64);
            file.segments
                .push(header(PT_PHDR, Place { addr, offset }, size))?;
        }
        Extra::ForeignTable => {
            let place = Place {
                addr: BASE + 0x3a0,
                offset: 0x3a0,
            };
            file.segments
                .push(header(PT_PHDR, place, PHDR_SIZE as u64))?;
        }
        _ => {}
    }
    Ok(())
}

/// Adds the additional part of a file.
pub fn add_extra<'a>(
    file: &mut ElfFile<'a>,
    extra: Extra,
    places: &Places,
    pointer: &'a [u8; 8],
) -> Result<(), BuildError> {
    match extra {
        Extra::Notes => add_notes(file, places),
        Extra::Segments => add_segments(file),
        Extra::StackAndAttributes => add_attributes(file, places),
        Extra::Zeroed => add_zeroed(file, places),
        Extra::ThreadStorage => add_thread_storage(file),
        Extra::Loose => add_loose(file, places),
        Extra::HalvedPointer => add_halves(file, pointer),
        Extra::DebugRelocations => add_debug_relocations(file),
        Extra::Nothing | Extra::OwnTable | Extra::ForeignTable => Ok(()),
    }
}

// A note: the sizes of its name and of its text, its type, and both.
const NOTE: &[u8] = b"\x04\0\0\0\x04\0\0\0\x01\0\0\0odd\0text";

const NOTE_SIZE: u64 = 20;

const NOTES_OFFSET: u64 = 0x3000;

// A note that the first segment loads, after the program headers.
const LOADED_NOTE: Place = Place {
    addr: BASE + 0x380,
    offset: 0x380,
};

fn add_notes(file: &mut ElfFile<'_>, places: &Places) -> Result<(), BuildError> {
    for index in 0u8..6 {
        let offset = NOTES_OFFSET + index as u64 * 0x20;
        file.sections.push(Section {
            kind: SHT_NOTE,
            offset: Some(offset),
            align: 4,
            ..Section::unloaded(b".note", NOTE)
        })?;
        file.segments
            .push(header(PT_NOTE, Place { addr: 0, offset }, NOTE_SIZE))?;
    }
    if places.loads_headers() {
        file.sections.push(Section {
            kind: SHT_NOTE,
            offset: Some(LOADED_NOTE.offset),
            align: 4,
            ..Section::loaded(b".note.loaded", LOADED_NOTE.addr, NOTE)
        })?;
        file.segments.push(header(PT_NOTE, LOADED_NOTE, NOTE_SIZE))?;
    }
    Ok(())
}

// A segment of these bytes, without a section.
fn add_bare_segment<'a>(
    file: &mut ElfFile<'a>,
    flags: u32,
    place: Place,
    bytes: &'a [u8],
) -> Result<(), BuildError> {
    file.pieces.push(Piece {
        offset: place.offset,
        bytes,
    })?;
    file.add_segment(flags, place.offset, place.addr, &[])?;
    if let Some(segment) = file.segments.last_mut() {
        segment.filesz = bytes.len() as u64;
        segment.memsz = bytes.len() as u64;
    }
    Ok(())
}

// Segments of 8 bytes, on one page of the file and each on its own page in memory.
fn add_segments(file: &mut ElfFile<'_>) -> Result<(), BuildError> {
    for index in 0u8..8 {
        let offset = 0x3000 + index as u64 * 0x200;
        let addr = 0x40_0000 + index as u64 * 0x10200;
        let flags = if index % 4 < 2 { PF_R } else { PF_R | PF_W };
        if index % 2 == 0 {
            let section = [Section::loaded(b".more", addr, b"12345678")];
            file.add_segment(flags, offset, addr, &section)?;
        } else {
            add_bare_segment(file, flags, Place { addr, offset }, b"87654321")?;
        }
    }
    Ok(())
}

const ATTRIBUTES: &[u8] = b"A\x1a\0\0\0riscv\0\x01\x10\0\0\0\x05rv64imc\0\0";

const ATTRIBUTES_OFFSET: u64 = 0x3000;

fn add_attributes(file: &mut ElfFile<'_>, places: &Places) -> Result<(), BuildError> {
    let offset = ATTRIBUTES_OFFSET;
    file.sections.push(Section {
        kind: SHT_RISCV_ATTRIBUTES,
        offset: Some(offset),
        ..Section::unloaded(b".riscv.attributes", ATTRIBUTES)
    })?;
    let size = ATTRIBUTES.len() as u64;
    file.segments.push(header(PT_RISCV_ATTRIBUTES, Place { addr: 0, offset }, size))?;
    file.segments.push(Segment {
        flags: PF_R | PF_W,
        align: 16,
        ..header(PT_GNU_STACK, Place { addr: 0, offset: 0 }, 0)
    })?;
    if let Some(data) = places.data {
        file.segments.push(header(PT_GNU_RELRO, data, 8))?;
    }
    Ok(())
}

// The size of the zeroed memory.
const ZEROED: u64 = 0x4321;

// The address and offset of loaded memory other than the code and the data.
const ELSEWHERE: Place = Place {
    addr: 0x30_0000,
    offset: 0x3000,
};

fn add_zeroed(file: &mut ElfFile<'_>, places: &Places) -> Result<(), BuildError> {
    let place = match places.data {
        Some(data) => Place {
            addr: data.addr.saturating_add(8),
            offset: data.offset.saturating_add(8),
        },
        None => {
            file.add_segment(PF_R | PF_W, ELSEWHERE.offset, ELSEWHERE.addr, &[])?;
            ELSEWHERE
        }
    };
    if let Some(segment) = file.segments.last_mut() {
        segment.memsz = segment.memsz.saturating_add(ZEROED);
    }
    file.sections.push(Section {
        kind: SHT_NOBITS,
        offset: Some(place.offset),
        size: ZEROED,
        ..Section::writable(b".bss", place.addr, b"")
    })?;
    Ok(())
}

fn add_thread_storage(file: &mut ElfFile<'_>) -> Result<(), BuildError> {
    let data = [Section {
        flags: SHF_ALLOC | SHF_WRITE | SHF_TLS,
        ..Section::writable(b".tdata", ELSEWHERE.addr, b"abcdefgh")
    }];
    file.add_segment(PF_R | PF_W, ELSEWHERE.offset, ELSEWHERE.addr, &data)?;
    file.sections.push(Section {
        kind: SHT_NOBITS,
        flags: SHF_ALLOC | SHF_WRITE | SHF_TLS,
        offset: Some(ELSEWHERE.offset + 8),
        size: 64,
        ..Section::writable(b".tbss", ELSEWHERE.addr + 8, b"")
    })?;
    file.segments.push(Segment {
        memsz: 72,
        ..header(PT_TLS, ELSEWHERE, 8)
    })?;
    Ok(())
}

fn add_loose(file: &mut ElfFile<'_>, places: &Places) -> Result<(), BuildError> {
    file.sections.push(Section {
        kind: SHT_NULL,
        ..Section::unloaded(b".gone", b"")
    })?;
    file.sections.push(Section {
        offset: Some(0x777),
        ..Section::unloaded(b".empty", b"")
    })?;
    file.sections
        .push(Section::loaded(b".empty", places.code, b""))?;
    file.sections.push(Section {
        align: 0x1000,
        ..Section::unloaded(b".aligned", b"aligned")
    })?;
    file.sections.push(Section {
        kind: SHT_NOBITS,
        size: ZEROED,
        ..Section::unloaded(b".lost", b"")
    })?;
    file.sections.push(Section {
        offset: Some(places.segment.offset),
        size: 48,
        ..Section::unloaded(b".again", b"")
    })?;
    file.sections
        .push(Section::unloaded(b".comment", b"a compiler\0"))?;
    Ok(())
}

/// The address and offset of the pointer in two segments. A section that has no bytes in the file contains both halves.
pub const HALVES: Place = Place {
    addr: 0x50_0ffc,
    offset: 0x3ffc,
};

fn add_halves<'a>(file: &mut ElfFile<'a>, pointer: &'a [u8; 8]) -> Result<(), BuildError> {
    add_bare_segment(file, PF_R | PF_W, HALVES, &pointer[..4])?;
    let other = Place {
        addr: HALVES.addr + 4,
        offset: 0x5000,
    };
    add_bare_segment(file, PF_R | PF_W, other, &pointer[4..])?;
    file.sections.push(Section {
        kind: SHT_NOBITS,
        offset: Some(HALVES.offset),
        size: 8,
        ..Section::writable(b".halves", HALVES.addr, b"")
    })?;
    Ok(())
}

fn add_debug_relocations(file: &mut ElfFile<'_>) -> Result<(), BuildError> {
    let section = [Section {
        kind: SHT_RELA,
        ..Section::loaded(b".debug_info", ELSEWHERE.addr, b"")
    }];
    file.add_segment(PF_R, ELSEWHERE.offset, ELSEWHERE.addr, &section)
}
