// String tables. gABI, "String Table".
ghost use Rattle.std.specs.Prelude.{◌≡◌, ◌≤◌, ◌<◌, ◌+◌, IfSome, IfNone, length};
ghost use Rattle.elf_image.specs.faults.Truncation.{IsReadable, HasContents, HasSectionNames, HasSymbolNames};
ghost use Rattle.elf_image.specs.internal.TextEnds.{IsLastEnd};
ghost use Rattle.elf_image.specs.file.Sections.{contents, section_names};
ghost use Rattle.elf_image.specs.file.Symbols.{symbol_names};

use crate::entries::{SectionTable, has_contents};
use crate::header::Header;
use crate::section::{SHT_NOBITS, SectionHeader};
use memchr::memrchr;

/// The bytes of a section, in a file that contains all of them.
pub fn section_bytes<'a>(file: &'a [u8], section: &SectionHeader) -> &'a [u8]
    requires { HasContents file.now section.now }
    ensures bytes { result.now ≡ contents file.now section.now }
    ensures no_longer { length result.now ≤ length file.now }
{
    if section.kind == SHT_NOBITS || section.size == 0 {
        return &file[..0];
    }
    let start = section.offset as usize;
    &file[start..start + section.size as usize]
}

/// The index after the last zero byte, or 0 if there is none. A string that starts there or later has no end.
pub fn last_end(table: &[u8]) -> usize
    ensures { IsLastEnd table.now result }
{
    match memrchr(0, table) {
        Some(last) => last + 1,
        None => 0,
    }
}

/// The string table of section names, if it exists and is complete.
pub fn section_names<'a>(headers: SectionTable<'a>) -> Option<&'a [u8]>
    ensures found { IfSome result (λ t. HasSectionNames headers.entry.file.now) }
    ensures names { IfSome result (λ t. t.now ≡ section_names headers.entry.file.now) }
    ensures none { IfNone result (HasSectionNames headers.entry.file.now → ⊥) }
{
    let header = Header { file: headers.file };
    let index = header.fields().shstrndx as usize;
    if index >= headers.count() {
        return None;
    }
    let section = headers.section_of(index);
    if !has_contents(headers.file, &section) {
        return None;
    }
    Some(section_bytes(headers.file, &section))
}

/// The string table of a symbol table, if the file contains all of both. It is empty if `sh_link` is not the index of a
/// section.
pub fn symbol_names<'a>(headers: SectionTable<'a>, table: &SectionHeader) -> Option<&'a [u8]>
    ensures found { IfSome result (λ t. HasSymbolNames headers.entry.file.now table.now) }
    ensures names { IfSome result (λ t. t.now ≡ symbol_names headers.entry.file.now table.now) }
    ensures none { IfNone result (HasSymbolNames headers.entry.file.now table.now → ⊥) }
{
    if !has_contents(headers.file, table) {
        return None;
    }
    if table.link as usize >= headers.count() {
        return Some(&headers.file[..0]);
    }
    let section = headers.section_of(table.link as usize);
    if !has_contents(headers.file, &section) {
        return None;
    }
    Some(section_bytes(headers.file, &section))
}

/// The string table of a symbol table, in a file that isn't truncated.
pub fn symbol_texts<'a>(file: &'a [u8], table: &SectionHeader) -> &'a [u8]
    requires { IsReadable file.now }
    ensures { result.now ≡ symbol_names file.now table.now }
{
    let headers = SectionTable { file };
    if table.link as usize >= headers.count() {
        return &file[..0];
    }
    section_bytes(file, &headers.section_of(table.link as usize))
}
