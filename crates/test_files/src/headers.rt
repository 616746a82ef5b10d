// Writes the headers of a file, field by field.
use crate::bytes::{push_u16, push_u32, push_u32s, push_u64, push_u64s};
use elf_image::header::{EHDR_SIZE, EM_RISCV, IDENTIFICATION};
use elf_image::section::SHDR_SIZE;
use elf_image::segment::PHDR_SIZE;
use elf_image::{SectionHeader, Segment};
use std::alloc::AllocError;

// The only version. gABI, "ELF Header".
const EV_CURRENT: u32 = 1;

/// The fields of the file header that differ between files, in their order. gABI, "ELF Header".
#[derive(Clone, Copy)]
pub struct FileHeader {
    /// `e_type`.
    pub kind: u16,
    /// `e_entry`.
    pub entry: u64,
    /// `e_phoff`: the offset of the program headers.
    pub phoff: u64,
    /// `e_shoff`: the offset of the section headers.
    pub shoff: u64,
    /// `e_flags`.
    pub flags: u32,
    /// `e_phnum`.
    pub phnum: u16,
    /// `e_shnum`.
    pub shnum: u16,
    /// `e_shstrndx`: the index of the section with the section names.
    pub shstrndx: u16,
}

/// Appends the file header, 64 bytes.
pub fn push_file_header(file: &mut Vec<u8>, header: &FileHeader) -> Result<(), AllocError> {
    file.extend_from_slice(IDENTIFICATION)?;
    file.extend_from_slice(&[0; 9])?;
    push_u16(file, header.kind)?;
    push_u16(file, EM_RISCV)?;
    push_u32(file, EV_CURRENT)?;
    push_u64(file, header.entry)?;
    push_u64(file, header.phoff)?;
    push_u64(file, header.shoff)?;
    push_u32(file, header.flags)?;
    push_u16(file, EHDR_SIZE as u16)?;
    push_u16(file, PHDR_SIZE as u16)?;
    push_u16(file, header.phnum)?;
    push_u16(file, SHDR_SIZE as u16)?;
    push_u16(file, header.shnum)?;
    push_u16(file, header.shstrndx)
}

/// Appends a program header, 56 bytes.
pub fn push_segment(file: &mut Vec<u8>, segment: &Segment) -> Result<(), AllocError> {
    push_u32s(file, &[segment.kind, segment.flags])?;
    let numbers = [
        segment.offset,
        segment.vaddr,
        segment.paddr,
        segment.filesz,
        segment.memsz,
        segment.align,
    ];
    push_u64s(file, &numbers)
}

/// Appends a section header, 64 bytes.
pub fn push_section_header(file: &mut Vec<u8>, section: &SectionHeader) -> Result<(), AllocError> {
    push_u32s(file, &[section.name, section.kind])?;
    push_u64s(
        file,
        &[section.flags, section.addr, section.offset, section.size],
    )?;
    push_u32s(file, &[section.link, section.info])?;
    push_u64s(file, &[section.align, section.entsize])
}

/// The header of the null section: all zeros. gABI, "Sections".
pub const NULL_SECTION: SectionHeader = SectionHeader {
    name: 0,
    kind: 0,
    flags: 0,
    addr: 0,
    offset: 0,
    size: 0,
    link: 0,
    info: 0,
    align: 0,
    entsize: 0,
};
