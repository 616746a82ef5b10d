// Tests units of `.debug_info`: their debugging information entries, or the fault. DWARF 5, sections 7.5.1 to 7.5.3.
use dw_unit::{Attr, Entry, units};
use elf_image::read;
use rb_bytes::fault::Refusal;
use rb_bytes::text::put_hex;
use std::alloc::Global;
use std::process::Abort;
use std::test::Fail;
use test_files::words::{Row, file_in_words, rows};

// Each row has the offset, the unit, the depth and the tag of each entry, and the name, the form, the offset and the
// value of each attribute; or the fault.
const UNITS: &str = "\
# A unit `sample.c` with three functions; its version is 4, or its length greater by 1.
code .text 10078 lui a0,0; addi a0,a0,7; exit
unloaded .debug_abbrev 0 01110103081017110112070000022e000308110112074018000000
- unloaded .debug_info 0 6900000005000108000000000173616d706c652e6300000000000010010000000000a4000000000000000266300000\
100100000000003000000000000000019c0266310030100100000000003000000000000000019c0266320060100100000000003000000000000000\
019c00 => entries c 0 0 11 2a 0 1 2e 40 0 1 2e 56 0 1 2e | attributes 3 8 d 0 10 17 16 0 11 1 1a 11000 12 7 22 a4 3 8 \
2b 0 11 1 2e 11000 12 7 36 30 40 18 3e 0 3 8 41 0 11 1 44 11030 12 7 4c 30 40 18 54 0 3 8 57 0 11 1 5a 11060 12 7 62 \
30 40 18 6a 0
- unloaded .debug_info 0 6900000004000108000000000173616d706c652e6300000000000010010000000000a4000000000000000266300000\
100100000000003000000000000000019c0266310030100100000000003000000000000000019c0266320060100100000000003000000000000000\
019c00 => refused DwarfVersion 0
- unloaded .debug_info 0 6a00000005000108000000000173616d706c652e6300000000000010010000000000a4000000000000000266300000\
100100000000003000000000000000019c0266310030100100000000003000000000000000019c0266320060100100000000003000000000000000\
019c00 => refused DwarfFault 0

# In the second declaration the first form is none, or the form of the high address is a number in LEB128.
code .text 10078 lui a0,0; addi a0,a0,7; exit
unloaded .debug_info 0 6900000005000108000000000173616d706c652e6300000000000010010000000000a400000000000000026630000010\
0100000000003000000000000000019c0266310030100100000000003000000000000000019c026632006010010000000000300000000000000001\
9c00
- unloaded .debug_abbrev 0 01110103081017110112070000022e00032d110112074018000000 => refused DwarfForm d
- unloaded .debug_abbrev 0 01110103081017110112070000022e0003081101120f4018000000 => refused HighPcForm d";

// The entries of a file, or its first fault.
fn listed(alloc: Global, file: &[u8]) -> Result<Vec<Entry>, Refusal> {
    let elf = read(alloc, file)?;
    units(alloc, &elf)
}

fn put_word(text: &mut Vec<u8>, word: &str) -> Result<(), Fail> {
    text.extend_from_slice(word.as_bytes())?;
    Ok(())
}

// Appends hexadecimal numbers, each after a space.
fn put_numbers(text: &mut Vec<u8>, numbers: &[u64]) -> Result<(), Fail> {
    for number in numbers {
        text.push(b' ')?;
        put_hex(text, *number)?;
    }
    Ok(())
}

fn put_attributes(text: &mut Vec<u8>, attrs: &[Attr]) -> Result<(), Fail> {
    for attr in attrs {
        put_numbers(text, &[attr.name, attr.form, attr.place, attr.value])?;
    }
    Ok(())
}

// Appends the entries if `name` says so, and otherwise their attributes.
fn put_list(text: &mut Vec<u8>, entries: &[Entry], name: &str) -> Result<(), Fail> {
    for entry in entries {
        if name == "entries" {
            put_numbers(
                text,
                &[entry.place, entry.unit, entry.depth as u64, entry.tag],
            )?;
        } else {
            put_attributes(text, &entry.attrs)?;
        }
    }
    Ok(())
}

fn put_answer(
    text: &mut Vec<u8>,
    answer: &Result<Vec<Entry>, Refusal>,
    name: &str,
) -> Result<(), Fail> {
    match answer {
        Ok(entries) => {
            put_word(text, name)?;
            put_list(text, entries, name)
        }
        Err(Refusal::Fault(fault)) => {
            put_word(text, "refused ")?;
            put_word(text, fault.kind.name())?;
            put_numbers(text, &[fault.place])
        }
        Err(Refusal::Memory) => put_word(text, "no memory"),
    }
}

fn check_row(rt: &impl Abort, alloc: Global, row: &Row<'_>) -> Result<(), Fail> {
    let file = file_in_words(alloc, &row.words)?;
    let answer = listed(alloc, &file);
    for wanted in row.wanted.split(" | ") {
        let wanted = wanted.trim_ascii();
        let name = wanted.split(' ').next().unwrap_or("");
        let mut text = Vec::new(alloc);
        put_answer(&mut text, &answer, name)?;
        assert_eq!(rt; str::from_utf8(&text)?, wanted, "{}", row.words);
    }
    Ok(())
}

#[test]
fn units_of_a_file(rt: HostRuntime) -> Result<(), Fail> {
    for row in &rows(rt.alloc(), UNITS)? {
        check_row(&rt, rt.alloc(), row)?;
    }
    Ok(())
}
