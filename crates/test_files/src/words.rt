// Descriptions of files as text, and tables of them with expected results.
pub use crate::assembly::hexadecimal;
use crate::assembly::{decimal, push_assembly};
use crate::bytes::patch;
use crate::error::BuildError;
use crate::file::{BASE, ElfFile, HeaderTable};
use crate::parts::{Section, Symbol, of_section};
use crate::programs::program_called;
use elf_image::Segment;
use elf_image::section::SHT_NOBITS;
use elf_image::segment::{PF_R, PF_W, PF_X};
use std::alloc::Global;

// A line is a type of relocations and its number. psABI, "Relocations".
const RELOCATIONS: &str = "\
NONE 0
32 1
64 2
BRANCH 16
JAL 17
CALL 18
CALL_PLT 19
GOT_HI20 20
TLS_GOT_HI20 21
TLS_GD_HI20 22
PCREL_HI20 23
PCREL_LO12_I 24
PCREL_LO12_S 25
HI20 26
LO12_I 27
LO12_S 28
TPREL_HI20 29
TPREL_LO12_I 30
TPREL_LO12_S 31
TPREL_ADD 32
ADD8 33
ADD16 34
ADD32 35
ADD64 36
SUB8 37
SUB16 38
SUB32 39
SUB64 40
ALIGN 43
RELAX 51
SUB6 52
SET6 53
SET8 54
SET16 55
SET32 56
32_PCREL 57
IRELATIVE 58
PLT32 59
SET_ULEB128 60
SUB_ULEB128 61";

// The number of a type of relocations. It is given as `type=NUMBER` if the type has no name.
fn relocation_type(name: &str) -> Result<u32, BuildError> {
    if let Some((_, number)) = name.split_once("type=") {
        return decimal(number);
    }
    for line in RELOCATIONS.lines() {
        if let Some((known, number)) = line.split_once(' ') {
            if known == name {
                return decimal(number);
            }
        }
    }
    Err(BuildError::NoWord)
}

// The words of a line after the first. Missing words are empty.
fn fields(line: &str) -> [&str; 6] {
    let mut words = line.split(' ');
    [
        words.next().unwrap_or(""),
        words.next().unwrap_or(""),
        words.next().unwrap_or(""),
        words.next().unwrap_or(""),
        words.next().unwrap_or(""),
        words.next().unwrap_or(""),
    ]
}

// A hexadecimal number with its sign. The empty text is 0.
fn addend(text: &str) -> Result<i64, BuildError> {
    if text.is_empty() {
        return Ok(0);
    }
    i64::from_str_radix(text, 16).ok().ok_or(BuildError::NoWord)
}

/// Appends bytes given in hexadecimal.
pub fn push_bytes(bytes: &mut Vec<u8>, text: &str) -> Result<(), BuildError> {
    for pair in text.as_bytes().chunks(2) {
        let pair = std::str::from_utf8(pair).unwrap_or("");
        bytes.push((hexadecimal(pair)? % 256) as u8)?;
    }
    Ok(())
}

// The bytes of a line: instructions for `code`, and otherwise data.
fn bytes_of(alloc: Global, line: &str) -> Result<Vec<u8>, BuildError> {
    let mut bytes = Vec::new(alloc);
    let [kind, _, _, data, _, _] = fields(line);
    if kind == "code" {
        let mut parts = line.splitn(4, ' ');
        push_assembly(&mut bytes, parts.nth(3).unwrap_or(""))?;
    } else if kind == "zeros" {
        bytes.resize(hexadecimal(data)? as usize, 0)?;
    } else if matches!(kind, "loaded" | "writable" | "unloaded") {
        push_bytes(&mut bytes, data)?;
    }
    Ok(bytes)
}

// The bytes of each line.
fn contents(alloc: Global, words: &str) -> Result<Vec<Vec<u8>>, BuildError> {
    let mut list = Vec::new(alloc);
    for line in words.lines() {
        list.push(bytes_of(alloc, line)?)?;
    }
    Ok(list)
}

// Adds a section: code to the first segment, and data to the last.
fn add_section<'a>(
    file: &mut ElfFile<'a>,
    line: &'a str,
    bytes: &'a [u8],
) -> Result<(), BuildError> {
    let [kind, name, addr, size, _, _] = fields(line);
    let name = name.as_bytes();
    let addr = hexadecimal(addr)?;
    match kind {
        "code" => {
            if file.entry == 0 {
                file.entry = addr;
            }
            file.load_by(0, &Section::code(name, addr, bytes))
        }
        "writable" => file.load(&Section::writable(name, addr, bytes)),
        "unloaded" => Ok(file.sections.push(Section::unloaded(name, bytes))?),
        "zeroed" => file.load(&Section {
            kind: SHT_NOBITS,
            size: hexadecimal(size)?,
            ..Section::writable(name, addr, bytes)
        }),
        _ => file.load(&Section::loaded(name, addr, bytes)),
    }
}

// Adds a symbol: a function with its size, or a label, optionally with another type and section.
fn add_symbol<'a>(file: &mut ElfFile<'a>, line: &'a str) -> Result<(), BuildError> {
    let [kind, name, value, size, symbol_type, section] = fields(line);
    let value = hexadecimal(value)?;
    let mut symbol = if kind == "function" {
        Symbol::function(name.as_bytes(), value, hexadecimal(size)?)
    } else {
        Symbol::label(name.as_bytes(), value)
    };
    if let Some((_, number)) = symbol_type.split_once("type=") {
        symbol.kind = (decimal(number)? % 256) as u8;
    }
    if let Some((_, number)) = section.split_once("section=") {
        symbol.section = Some((decimal(number)? % 65536) as u16);
    }
    file.symbols.push(symbol)?;
    Ok(())
}

// Adds a relocation of the section that contains its address, with a symbol or only an addend.
fn add_relocation<'a>(file: &mut ElfFile<'a>, line: &'a str) -> Result<(), BuildError> {
    let [_, place, kind, first, second, _] = fields(line);
    let offset = hexadecimal(place)?;
    let kind = relocation_type(kind)?;
    let (name, number) = if first.as_bytes().first() == Some(&b'@') {
        let (_, name) = first.split_once('@').ok_or(BuildError::NoWord)?;
        (name, second)
    } else {
        ("", first)
    };
    let number = addend(number)?;
    let mut section: &'a [u8] = b"";
    for candidate in &file.sections {
        if candidate.has_address(offset) {
            section = candidate.name;
        }
    }
    file.relocations
        .push(of_section(section, offset, kind, name.as_bytes(), number))?;
    Ok(())
}

// Starts a segment with its permissions, file offset and address.
fn begin_segment(file: &mut ElfFile<'_>, line: &str) -> Result<(), BuildError> {
    let [_, rights, offset, vaddr, _, _] = fields(line);
    let flags = if rights == "rw" { PF_R | PF_W } else { PF_R };
    file.add_segment(flags, hexadecimal(offset)?, hexadecimal(vaddr)?, &[])
}

// Adds a program header with these fields.
fn add_header(file: &mut ElfFile<'_>, line: &str) -> Result<(), BuildError> {
    let mut numbers = [0; 6];
    for (place, word) in numbers.iter_mut().zip(line.split(' ').skip(1)) {
        *place = hexadecimal(word)?;
    }
    let [kind, flags, offset, vaddr, filesz, memsz] = numbers;
    file.segments.push(Segment {
        kind: (kind % 0x1_0000_0000) as u32,
        flags: (flags % 0x1_0000_0000) as u32,
        offset,
        vaddr,
        paddr: vaddr,
        filesz,
        memsz,
        align: 1,
    })?;
    Ok(())
}

// Sets a field of the file header.
fn set_header(file: &mut ElfFile<'_>, line: &str) -> Result<(), BuildError> {
    let [kind, value, _, _, _, _] = fields(line);
    if kind == "entry" {
        file.entry = hexadecimal(value)?;
    } else if kind == "flags" {
        file.flags = (hexadecimal(value)? % 0x1_0000_0000) as u32;
    } else if value == "behind" {
        file.header_table = HeaderTable::BehindSegments;
    } else {
        file.header_table = HeaderTable::Last;
    }
    Ok(())
}

// Adds the part that a line describes, unless the line is for another reader.
fn add_line<'a>(file: &mut ElfFile<'a>, line: &'a str, bytes: &'a [u8]) -> Result<(), BuildError> {
    let [kind, _, _, _, _, _] = fields(line);
    match kind {
        "code" | "loaded" | "zeros" | "writable" | "zeroed" | "unloaded" => {
            add_section(file, line, bytes)
        }
        "function" | "label" => add_symbol(file, line),
        "reloc" => add_relocation(file, line),
        "segment" => begin_segment(file, line),
        "header" => add_header(file, line),
        "entry" | "flags" | "headers" => set_header(file, line),
        "#" | "" | "whole" | "patch" | "size" | "profile" | "input" | "fail" | "room" | "limit" =>
            Ok(()),
        _ => Err(BuildError::NoWord),
    }
}

fn lay_out<'a>(
    alloc: Global,
    words: &'a str,
    contents: &'a [Vec<u8>],
) -> Result<ElfFile<'a>, BuildError> {
    let mut file = ElfFile::new(alloc, 0);
    file.add_segment(PF_R | PF_X, 0, BASE, &[])?;
    for (line, bytes) in words.lines().zip(contents) {
        add_line(&mut file, line, bytes)?;
    }
    Ok(file)
}

// Changes bytes of the built file, or its size.
fn change(alloc: Global, file: &mut Vec<u8>, words: &str) -> Result<(), BuildError> {
    for line in words.lines() {
        let [kind, place, data, _, _, _] = fields(line);
        if kind == "patch" {
            let mut bytes = Vec::new(alloc);
            push_bytes(&mut bytes, data)?;
            patch(file, hexadecimal(place)? as usize, &bytes);
        } else if kind == "size" {
            file.resize(hexadecimal(place)? as usize, 0)?;
        }
    }
    Ok(())
}

/// The file that these lines describe. All numbers are hexadecimal, except immediates and types.
///
/// The first segment is readable and executable, and starts with the file header at 10000.
///
/// - `code NAME ADDR INSTRUCTION; ..`: a section of the first segment, whose address is the entry point
/// - `loaded NAME ADDR BYTES`, `zeros NAME ADDR SIZE`, `writable NAME ADDR BYTES`, `zeroed NAME ADDR SIZE`: a section
///   of the last segment; `zeroed` has no bytes in the file
/// - `unloaded NAME 0 BYTES`: a section that isn't loaded
/// - `segment r|rw OFFSET ADDR`: another segment
/// - `header TYPE FLAGS OFFSET ADDR FILESZ MEMSZ`: a program header for existing bytes, or for none
/// - `function NAME ADDR SIZE`, `label NAME ADDR`, optionally with `type=NUMBER section=NUMBER`
/// - `reloc ADDR TYPE [@SYMBOL] [ADDEND]`: TYPE is a name, such as `HI20`, or `type=NUMBER`
/// - `entry ADDR`, `flags NUMBER`, `headers behind|last`: the program headers are after the segments, or at the end
/// - `patch OFFSET BYTES`, `size SIZE`: changes the built file; a file is truncated or padded with zeros
/// - lines that begin with `whole`, `profile`, `input`, `fail`, `room` and `limit` are for other readers
pub fn file_in_words(alloc: Global, words: &str) -> Result<Vec<u8>, BuildError> {
    let contents = contents(alloc, words)?;
    let mut bytes = lay_out(alloc, words, &contents)?.build(alloc)?;
    change(alloc, &mut bytes, words)?;
    Ok(bytes)
}

/// The words after `name` in the last line that begins with it.
pub fn said<'a>(words: &'a str, name: &str) -> Option<&'a str> {
    let mut found = None;
    for line in words.lines() {
        if let Some(rest) = line.strip_prefix(name) {
            found = Some(rest);
        }
    }
    found
}

/// The ranges of addresses with exception tables, from lines `whole FROM TO`.
pub fn ranges(alloc: Global, words: &str) -> Result<Vec<(u64, u64)>, BuildError> {
    let mut ranges = Vec::new(alloc);
    for line in words.lines() {
        if let Some(range) = line.strip_prefix("whole ") {
            let (from, to) = range.split_once(' ').ok_or(BuildError::NoWord)?;
            ranges.push((hexadecimal(from)?, hexadecimal(to)?))?;
        }
    }
    Ok(ranges)
}

/// A row of a table: a file and the expected result.
#[derive(Drop)]
pub struct Row<'a> {
    pub words: String,
    pub wanted: &'a str,
}

/// The rows of a table of paragraphs, which are separated by empty lines. A paragraph begins with a title line, which
/// starts with `# `, and then has lines that describe a file and are shared by its rows. A row is `- LINES => WANTED`:
/// more lines of the description, and the expected result. Lines may be joined by ` | `. `like NAME` is replaced by the
/// lines of a program.
pub fn rows(alloc: Global, table: &str) -> Result<Vec<Row<'_>>, BuildError> {
    let mut rows = Vec::new(alloc);
    for paragraph in table.split("\n\n") {
        let mut parts = paragraph.split("\n- ");
        let common = parts.next().unwrap_or("");
        for part in parts {
            let (own, wanted) = part.split_once("=> ").ok_or(BuildError::NoWord)?;
            let mut words = String::new(alloc);
            push_lines(&mut words, common)?;
            push_lines(&mut words, own)?;
            rows.push(Row { words, wanted })?;
        }
    }
    Ok(rows)
}

// Appends lines, split at ` | `, with `like NAME` replaced by the lines of a program.
fn push_lines(words: &mut String, text: &str) -> Result<(), BuildError> {
    for line in text.lines() {
        for part in line.split(" | ") {
            let part = part.trim_ascii();
            if let Some(name) = part.strip_prefix("like ") {
                push_program(words, name)?;
            } else {
                push_line(words, part)?;
            }
        }
    }
    Ok(())
}

fn push_line(words: &mut String, line: &str) -> Result<(), BuildError> {
    words.push_str(line)?;
    words.push('\n')?;
    Ok(())
}

// Appends the lines of a program, which may include another one.
fn push_program(words: &mut String, name: &str) -> Result<(), BuildError> {
    for line in program_called(name)?.lines() {
        match line.strip_prefix("like ") {
            Some(other) => push_line(words, program_called(other)?)?,
            None => push_line(words, line)?,
        }
    }
    Ok(())
}
