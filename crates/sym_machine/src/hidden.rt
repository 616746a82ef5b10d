// Hidden fields of a file's headers.
ghost use Rattle.std.specs.Prelude.{◌≡◌, ◌≤◌, ◌<◌, ◌+◌, ◌-◌, ◌*◌, ◌^◌, ◌++◌, ◌&&◌, ◌||◌, ℕ, IfOk, IfSome, OnOk, map};
ghost use Rattle.std.specs.Prelude.{length, Bool, nat_le, option_map, is_none};
ghost use Rattle.std.specs.List.{list_any, flat_map, enumerate_from};
ghost use Rattle.elf_image.specs.declared.elf.Elf.{Elf};
ghost use Rattle.elf_image.specs.declared.segment.Segment.{Segment};
ghost use Rattle.elf_image.specs.memory.CodeSegment.{executable_segment, executable_end};
ghost use Rattle.elf_image.specs.memory.LoadedBytes.{is_in_range, address_of};
ghost use Rattle.elf_image.specs.memory.HiddenFields.{only, e_entry_field, hidden_in_segment, hidden_fields};
ghost use Rattle.elf_image.specs.memory.HiddenFields.{is_hidden_field, is_executable_segment};
ghost use Rattle.sym_machine.specs.internal.Fields.{range_of_field, AreLow};

use crate::fields::{Field, Fields};
use elf_image::code_segment::{executable_end, executable_segment, is_executable_segment};
use elf_image::header::{E_ENTRY, E_PHNUM, E_PHOFF, E_SHNUM, E_SHOFF, E_SHSTRNDX};
use elf_image::segment::{P_ALIGN, P_FILESZ, P_OFFSET, PHDR_SIZE, PT_GNU_EH_FRAME, entry_segment};
use elf_image::{Elf, Segment};
use rb_bytes::fault::NoMemory;
use std::alloc::Global;

// Appends a field if `test` holds.
fn push_if(out: &mut Vec<Field>, test: bool, start: u128, size: u64) -> Result<(), NoMemory>
    ensures { OnOk result (map range_of_field out.new.items ≡ map range_of_field out.old.items
        ++ only test (record { start = start; size = size })) }
{
    if test {
        out.push(Field { start, size })?;
    }
    Ok(())
}

/// The address of the loaded field `e_entry`, if one segment loads all of it.
pub fn entry_address(elf: &Elf) -> Option<u64>
    requires { AreLow elf.now.segments.items }
    ensures is { result ≡ address_of elf.now e_entry_field }
    ensures low { IfSome result (λ a. a + 8 ≤ 2 ^ 64) }
{
    let p = entry_segment(&elf.segments)?;
    Some(p.vaddr + (E_ENTRY as u64 - p.offset))
}

// The hidden fields of the program header with this index: `p_filesz` and `p_memsz` of the executable segment, which
// can grow; `p_offset` of a segment whose bytes come after that segment, since they can move in the file; and all
// fields that say where the index of the unwind tables is.
fn push_fields(
    out: &mut Vec<Field>,
    elf: &Elf,
    executable: Option<(usize, Segment)>,
    index: usize,
    p: &Segment,
) -> Result<(), NoMemory>
    requires { executable ≡ executable_segment elf.now.segments.items }
    ensures { OnOk result (map range_of_field out.new.items ≡ map range_of_field out.old.items
        ++ hidden_in_segment elf.now (index, p.now)) }
{
    let at = elf.phoff as u128 + PHDR_SIZE as u128 * index as u128;
    let end = executable_end(executable);
    let (places, sizes) = (at + P_OFFSET as u128, at + P_FILESZ as u128);
    push_if(
        out,
        is_executable_segment(executable, index),
        sizes,
        (P_ALIGN - P_FILESZ) as u64,
    )?;
    push_if(out, end <= p.offset as u128, places, 8)?;
    push_if(
        out,
        p.kind == PT_GNU_EH_FRAME,
        places,
        (P_ALIGN - P_OFFSET) as u64,
    )?;
    Ok(())
}

/// The hidden fields of a file's headers: those that a rewrite can change, such as the offsets of the header tables. In
/// a `tight` file the table of program headers moves and grows. `e_entry` is hidden only if no single segment loads all
/// of it; otherwise it is a code address.
pub fn hidden_fields(alloc: Global, elf: &Elf, tight: bool) -> Result<Vec<Field>, NoMemory>
    requires { AreLow elf.now.segments.items }
    ensures { IfOk result (λ fields. map range_of_field fields.items ≡ hidden_fields elf.now tight) }
{
    let executable = executable_segment(&elf.segments);
    let end = executable_end(executable);
    let mut out = Vec::new(alloc);
    push_if(&mut out, true, E_SHOFF as u128, 8)?;
    push_if(&mut out, true, E_SHNUM as u128, 2)?;
    push_if(&mut out, true, E_SHSTRNDX as u128, 2)?;
    push_if(
        &mut out,
        tight || end <= elf.phoff as u128,
        E_PHOFF as u128,
        8,
    )?;
    push_if(&mut out, tight, E_PHNUM as u128, 2)?;
    push_if(&mut out, entry_address(elf).is_none(), E_ENTRY as u128, 8)?;
    push_all(&mut out, elf, executable, &elf.segments)?;
    Ok(out)
}

// The hidden fields of all program headers.
fn push_all(
    out: &mut Vec<Field>,
    elf: &Elf,
    executable: Option<(usize, Segment)>,
    segments: &[Segment],
) -> Result<(), NoMemory>
    requires { executable ≡ executable_segment elf.now.segments.items }
    ensures { OnOk result (map range_of_field out.new.items ≡ map range_of_field out.old.items
        ++ flat_map (hidden_in_segment elf.now) (enumerate_from 0 segments.now)) }
{
    for index in 0..segments.len() {
        push_fields(out, elf, executable, index, &segments[index])?;
    }
    Ok(())
}

/// Whether the byte at `address` is loaded from a hidden field of the headers.
pub fn is_hidden_field(elf: &Elf, fields: &Fields, address: u64) -> bool
    ensures { (tight : Bool) → map range_of_field fields.now.list.items ≡ hidden_fields elf.now tight →
        result ≡ is_hidden_field elf.now tight address }
{
    match elf.file_offset(address) {
        Some(offset) => fields.has(offset),
        None => false,
    }
}
