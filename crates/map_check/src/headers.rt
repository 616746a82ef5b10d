// Hidden fields: fields of a file's headers that a rewrite changes, so that a program must not depend on them. gABI,
// "ELF Header" and "Program Header".
ghost use Rattle.std.specs.Prelude.{Bool, ◌≡◌, ◌≤◌, ◌<◌, ◌+◌, ◌*◌, ◌⊎◌, ◌||◌, IfNone, IfSome, length, nat_le};
ghost use Rattle.std.specs.List.{enumerate_from, flat_map, list_any};
ghost use Rattle.elf_image.specs.declared.elf.Elf.{Elf};
ghost use Rattle.elf_image.specs.declared.segment.TheConstants.{PHDR_SIZE};
ghost use Rattle.elf_image.specs.memory.CodeSegment.{executable_end, executable_segment};
ghost use Rattle.elf_image.specs.memory.HiddenFields.{hidden_fields, hidden_in_segment};
ghost use Rattle.elf_image.specs.memory.HiddenFields.{is_executable_segment, is_hidden_field, only, section_fields};
ghost use Rattle.elf_image.specs.memory.LoadedBytes.{is_in_range};
ghost use Rattle.code_starts.specs.LoadedMemory.{IsLow};
ghost use Rattle.map_check.specs.internal.Headers.{AreHeadersOf, file_fields};

use elf_image::code_segment::{executable_end, executable_segment, is_executable_segment};
use elf_image::header::{E_ENTRY, E_PHNUM, E_PHOFF, E_SHNUM, E_SHOFF, E_SHSTRNDX};
use elf_image::segment::{P_ALIGN, P_FILESZ, P_OFFSET, PHDR_SIZE, PT_GNU_EH_FRAME};
use elf_image::{Elf, Segment};
use sym_machine::entry_address;

/// What decides which fields of the input's headers are hidden.
#[derive(Clone, Copy)]
pub struct Headers {
    /// Whether there is no room for new code after the executable segment.
    pub tight: bool,
    /// The address of the field `e_entry`, if one segment loads all of it.
    pub entry: Option<u64>,
    /// The index of the executable segment, and its program header.
    pub executable: Option<(usize, Segment)>,
}

impl Headers {
    /// Computes this for a file.
    pub fn of(elf: &Elf, tight: bool) -> Headers
        requires { IsLow elf.now }
        ensures { AreHeadersOf elf.now tight result }
    {
        Headers {
            tight,
            entry: entry_address(elf),
            executable: executable_segment(&elf.segments),
        }
    }
}

// Whether `offset` is in the field of `size` bytes at the offset `start`.
fn has(start: u128, size: u64, offset: u128) -> bool
    ensures { result ≡ is_in_range offset (record { start = start; size = size }) }
{
    start <= offset && offset - start < size as u128
}

// `found`, or whether `offset` is in the field of `size` bytes at the offset `start` and this field is hidden.
fn or_has(found: bool, is_hidden: bool, start: u128, size: u64, offset: u128) -> bool
    ensures { result
        ≡ (found || list_any (is_in_range offset) (only is_hidden (record { start = start; size = size }))) }
{
    found || is_hidden && has(start, size, offset)
}

// Whether the table of program headers moves.
fn table_moves(elf: &Elf, headers: &Headers) -> bool
    ensures { (tight : Bool) → AreHeadersOf elf.now tight headers.now →
        result ≡ (tight || nat_le (executable_end elf.now.segments.items) elf.now.phoff) }
{
    headers.tight || executable_end(headers.executable) <= elf.phoff as u128
}

// Whether `offset` is in a field of the ELF header that says where the section headers are. These fields are always
// hidden.
fn in_section_fields(offset: u128) -> bool
    ensures { result ≡ list_any (is_in_range offset) section_fields }
{
    has(E_SHOFF as u128, 8, offset)
        || has(E_SHNUM as u128, 2, offset)
        || has(E_SHSTRNDX as u128, 2, offset)
}

// Whether `offset` is in a hidden field of the ELF header.
fn in_file_header(elf: &Elf, headers: &Headers, offset: u128) -> bool
    ensures { (tight : Bool) → AreHeadersOf elf.now tight headers.now →
        result ≡ list_any (is_in_range offset) (file_fields elf.now tight) }
{
    let in_sections = in_section_fields(offset);
    let moves = table_moves(elf, headers);
    let in_phoff = or_has(in_sections, moves, E_PHOFF as u128, 8, offset);
    let in_phnum = or_has(in_phoff, headers.tight, E_PHNUM as u128, 2, offset);
    or_has(
        in_phnum,
        headers.entry.is_none(),
        E_ENTRY as u128,
        8,
        offset,
    )
}

// Whether the bytes of the segment `p` come after the executable segment's in the file.
fn is_behind(headers: &Headers, p: &Segment) -> bool
    ensures { (elf : Elf) (tight : Bool) → AreHeadersOf elf tight headers.now →
        result ≡ nat_le (executable_end elf.segments.items) p.now.offset }
{
    executable_end(headers.executable) <= p.offset as u128
}

// Whether `offset` is in a hidden field of the program header `p`, which has this index. Hidden are: `p_filesz` and
// `p_memsz` of the executable segment, `p_offset` of a segment after it, and all fields from `p_offset` to `p_memsz` of
// the header of the unwind table's index.
fn in_program_header(elf: &Elf, headers: &Headers, index: usize, p: &Segment, offset: u128) -> bool
    ensures { (tight : Bool) → AreHeadersOf elf.now tight headers.now →
        result ≡ list_any (is_in_range offset) (hidden_in_segment elf.now (index, p.now)) }
{
    let at = elf.phoff as u128 + PHDR_SIZE as u128 * index as u128;
    let is_executable = is_executable_segment(headers.executable, index);
    let (places, sizes) = (at + P_OFFSET as u128, at + P_FILESZ as u128);
    let in_sizes = or_has(
        false,
        is_executable,
        sizes,
        (P_ALIGN - P_FILESZ) as u64,
        offset,
    );
    let in_offset = or_has(in_sizes, is_behind(headers, p), places, 8, offset);
    or_has(
        in_offset,
        p.kind == PT_GNU_EH_FRAME,
        places,
        (P_ALIGN - P_OFFSET) as u64,
        offset,
    )
}

// The index of the program header that contains `offset`.
fn index_at(elf: &Elf, offset: u128) -> Option<usize>
    ensures within { IfSome result (λ i. i < length elf.now.segments.items) }
    ensures from { IfSome result (λ i. elf.now.phoff + PHDR_SIZE * i ≤ offset) }
    ensures to { IfSome result (λ i. offset < elf.now.phoff + PHDR_SIZE * i + PHDR_SIZE) }
    ensures none { IfNone result
        ((offset < elf.now.phoff) ⊎ (elf.now.phoff + PHDR_SIZE * length elf.now.segments.items ≤ offset)) }
{
    let place = offset.checked_sub(elf.phoff as u128)?;
    let index = place / PHDR_SIZE as u128;
    if index < elf.segments.len() as u128 {
        Some(index as usize)
    } else {
        None
    }
}

// Whether `offset` is in a hidden field of the program headers.
fn in_program_headers(elf: &Elf, headers: &Headers, offset: u128) -> bool
    ensures { (tight : Bool) → AreHeadersOf elf.now tight headers.now →
        result ≡ list_any (is_in_range offset)
        (flat_map (hidden_in_segment elf.now) (enumerate_from 0 elf.now.segments.items)) }
{
    match index_at(elf, offset) {
        Some(index) => in_program_header(elf, headers, index, &elf.segments[index], offset),
        None => false,
    }
}

// Whether `offset` is in a hidden field.
fn is_hidden(elf: &Elf, headers: &Headers, offset: u128) -> bool
    ensures { (tight : Bool) → AreHeadersOf elf.now tight headers.now →
        result ≡ list_any (is_in_range offset) (hidden_fields elf.now tight) }
{
    in_file_header(elf, headers, offset) || in_program_headers(elf, headers, offset)
}

/// Whether the byte at `address` is loaded from a hidden field.
pub fn is_hidden_field(elf: &Elf, headers: &Headers, address: u64) -> bool
    ensures { (tight : Bool) → AreHeadersOf elf.now tight headers.now →
        result ≡ is_hidden_field elf.now tight address }
{
    match elf.file_offset(address) {
        Some(offset) => is_hidden(elf, headers, offset),
        None => false,
    }
}
