// The initial stack of a program: the numbers at the stack pointer, and the arguments.
ghost use Rattle.std.specs.Prelude.{◌≡◌, ◌+◌, ◌*◌, ◌-◌, ◌<◌, ◌≤◌, ◌++◌, ◌∷◌, [], ◌%◌, ◌^◌, IfOk, OnOk};
ghost use Rattle.std.specs.Prelude.{length, flat_map, map, string_bytes, String};
ghost use Rattle.rv_code.specs.machine.Machine.{low_bytes};
ghost use Rattle.rv_memory.specs.Vector.{vector};
ghost use Rattle.rv_memory.specs.Limits.{IsWithinLimits};
ghost use Rattle.elf_image.specs.file.Header.{e_phoff, e_entry, segments_of};
ghost use Rattle.elf_image.specs.memory.Break.{table_address, rounded_down};
ghost use Rattle.rv_memory.specs.Start.{program_arguments, texts, texts_address, text_addresses};
ghost use Rattle.rv_memory.specs.Start.{random_address, start_bytes, stack_pointer, stack_bytes};

use elf_image::segment::{PHDR_SIZE, range_segment};
use elf_image::start::PAGE_SIZE;
use elf_image::{Elf, Segment};
use rb_bytes::fault::NoMemory;
use std::alloc::Global;

/// The most arguments of a program.
pub const MOST_ARGS: usize = 64;

/// The most bytes of all arguments together, without the zero bytes at their ends.
pub const MOST_ARG_BYTES: usize = 65536;

// The first argument, which is the same name for every program.
const PROGRAM: &[u8] = b"program";

// The address that AT_RANDOM gives, for 16 bytes at the end of the stack. They are the same in all runs, so that runs
// are repeatable.
const RANDOM_ADDRESS: u64 = 0x3f_ffff_fff0;

// Types of the auxiliary vector's entries; that of AT_NULL ends it.
const AT_NULL: u64 = 0;

const AT_PHDR: u64 = 3;

const AT_PHENT: u64 = 4;

const AT_PHNUM: u64 = 5;

const AT_PAGESZ: u64 = 6;

const AT_ENTRY: u64 = 9;

const AT_RANDOM: u64 = 25;

const RANDOM_BYTES: [u8; 16] = [0, 1, 2, 3, 4, 5, 6, 7, 8, 9, 10, 11, 12, 13, 14, 15];

#[tactic(auto, using(crate::proofs::MemoryBytes::number_bytes))]
fn put_number(out: &mut Vec<u8>, number: u64) -> Result<(), NoMemory>
    ensures { OnOk result (out.new.items ≡ out.old.items ++ low_bytes 8 number) }
{
    out.extend_from_slice(&number.to_le_bytes())?;
    Ok(())
}

fn put_text(out: &mut Vec<u8>, text: &[u8]) -> Result<(), NoMemory>
    ensures { OnOk result (out.new.items ≡ out.old.items ++ (text.now ++ 0 ∷ [])) }
{
    out.extend_from_slice(text)?;
    out.push(0)?;
    Ok(())
}

// The texts of the program's name and of the arguments, each with a final zero byte.
fn texts(alloc: Global, args: &[String]) -> Result<Vec<u8>, NoMemory>
    ensures { IfOk result (λ out. out.items ≡ texts (map string_bytes args.now)) }
{
    let mut out = Vec::new(alloc);
    put_text(&mut out, PROGRAM)?;
    for arg in args {
        put_text(&mut out, arg.as_bytes())?;
    }
    Ok(out)
}

// Appends numbers of eight bytes.
fn put_numbers(out: &mut Vec<u8>, numbers: &[u64]) -> Result<(), NoMemory>
    ensures { OnOk result (out.new.items ≡ out.old.items ++ flat_map (low_bytes 8) numbers.now) }
{
    for number in numbers {
        put_number(out, *number)?;
    }
    Ok(())
}

// Appends the addresses of the texts of the program's name, which is at `address`, and of the arguments.
fn put_addresses(out: &mut Vec<u8>, address: u64, args: &[String]) -> Result<(), NoMemory>
    requires { address + length (texts (map string_bytes args.now)) ≤ 2 ^ 38 }
    ensures { OnOk result
        (out.new.items ≡ out.old.items
        ++ flat_map (low_bytes 8) (text_addresses address (program_arguments (map string_bytes args.now)))) }
{
    put_number(out, address)?;
    let mut next = address + PROGRAM.len() as u64 + 1;
    for arg in args {
        put_number(out, next)?;
        next += arg.len() as u64 + 1;
    }
    Ok(())
}

// The address at which the table of program headers is loaded, or 0 if no segment loads it from the file.
fn table_address(elf: &Elf) -> u64
    requires phoff { elf.now.phoff ≡ e_phoff elf.now.file.now }
    requires segments { elf.now.segments.items ≡ segments_of elf.now.file.now }
    ensures { result ≡ table_address elf.now.file.now % 2 ^ 64 }
{
    let segments: &[Segment] = &elf.segments;
    let size = (PHDR_SIZE * segments.len()) as u64;
    match range_segment(segments, elf.phoff, size) {
        Some(segment) => segment.vaddr.wrapping_add(elf.phoff - segment.offset),
        None => 0,
    }
}

// Appends the auxiliary vector: entries of a type and a value each.
fn put_vector(out: &mut Vec<u8>, table: u64, count: u64, entry: u64) -> Result<(), NoMemory>
    ensures { OnOk result (out.new.items ≡ out.old.items ++ flat_map (low_bytes 8) (vector table count entry)) }
{
    let entries = [
        AT_PHDR,
        table,
        AT_PHENT,
        PHDR_SIZE as u64,
        AT_PHNUM,
        count,
        AT_PAGESZ,
        PAGE_SIZE,
        AT_ENTRY,
        entry,
        AT_RANDOM,
        RANDOM_ADDRESS,
        AT_NULL,
        0,
    ];
    put_numbers(out, &entries)
}

// The numbers from the stack pointer on: the number of arguments, their addresses, the ends of the lists of arguments
// and of environment variables, and the auxiliary vector.
fn start_bytes(alloc: Global, elf: &Elf, args: &[String], address: u64) -> Result<Vec<u8>, NoMemory>
    requires entry { elf.now.entry ≡ e_entry elf.now.file.now }
    requires phoff { elf.now.phoff ≡ e_phoff elf.now.file.now }
    requires segments { elf.now.segments.items ≡ segments_of elf.now.file.now }
    requires address { address ≡ texts_address (map string_bytes args.now) }
    requires limits { IsWithinLimits (map string_bytes args.now) }
    ensures { IfOk result (λ out. out.items ≡ start_bytes elf.now.file.now (map string_bytes args.now)) }
{
    let segments: &[Segment] = &elf.segments;
    let mut out = Vec::new(alloc);
    put_number(&mut out, args.len() as u64 + 1)?;
    put_addresses(&mut out, address, args)?;
    put_numbers(&mut out, &[0, 0])?;
    put_vector(
        &mut out,
        table_address(elf),
        segments.len() as u64,
        elf.entry,
    )?;
    Ok(out)
}

// The initial stack pointer, a multiple of 16 below the texts at `address`. There are 17 numbers besides the addresses
// of `count` texts: the count, the ends of two lists, and the 14 numbers of the auxiliary vector. `room` requires far
// more than all these take.
fn stack_pointer(address: u64, count: u64) -> u64
    requires address { address ≤ random_address }
    requires room { 1000000 ≤ address }
    requires count { count ≤ 65 }
    ensures { result ≡ rounded_down 16 (address - 8 * (count + 17)) }
{
    (address - 8 * (count + 17)) / 16 * 16
}

/// The bytes of the initial stack, from the stack pointer to the end of the stack.
pub fn stack_bytes(alloc: Global, elf: &Elf, args: &[String]) -> Result<Vec<u8>, NoMemory>
    requires entry { elf.now.entry ≡ e_entry elf.now.file.now }
    requires phoff { elf.now.phoff ≡ e_phoff elf.now.file.now }
    requires segments { elf.now.segments.items ≡ segments_of elf.now.file.now }
    requires limits { IsWithinLimits (map string_bytes args.now) }
    ensures { IfOk result (λ out. out.items ≡ stack_bytes elf.now.file.now (map string_bytes args.now)) }
{
    let ends = texts(alloc, args)?;
    let ends: &[u8] = &ends;
    let address = RANDOM_ADDRESS - ends.len() as u64;
    let pointer = stack_pointer(address, args.len() as u64 + 1);
    let mut out = start_bytes(alloc, elf, args, address)?;
    out.resize((address - pointer) as usize, 0)?;
    out.extend_from_slice(ends)?;
    out.extend_from_slice(&RANDOM_BYTES)?;
    Ok(out)
}
