// Tests starts of instructions, including those in parts that aren't functions.
use elf_image::read;
use rv_reloc::starts;
use std::alloc::Global;
use std::process::Abort;
use std::test::Fail;
use test_files::words::{Row, file_in_words, hexadecimal, rows};

const STARTS: &str = "\
# The smallest example, 37 05 00 00, 13 05 75 00, 93 08 d0 05, 73 00 00 00, with a function's symbol in its first
# instruction.
code .text 10078 lui a0,0; addi a0,a0,7; exit
- function f 10079 0 => 10078 10079 1007b 1007d 1007f 10081 10083 10085 10087
- function f 1007a 0 => 10078 1007a 1007c 10080 10084";

// The number of starts, and the last two of them.
const LAST_STARTS: &str = "\
# Instructions of two bytes, one of four around the 64th halfword, before it, in it and behind it, and one of two: the
# first byte of each is 05 or 13.
- code .text 10078 .rept 62 .half 0505; addi a0,a0,1; .half 0505 => 40 100f4 100f8
- code .text 10078 .rept 63 .half 0505; addi a0,a0,1; .half 0505 => 41 100f6 100fa
- code .text 10078 .rept 64 .half 0505; addi a0,a0,1; .half 0505 => 42 100f8 100fc
- code .text 10078 .rept 127 .half 0505; addi a0,a0,1; .half 0505 => 81 10176 1017a";

// The starts of the instructions of a file.
fn starts_in(alloc: Global, row: &Row<'_>) -> Result<Vec<u64>, Fail> {
    let file = file_in_words(alloc, &row.words)?;
    let Ok(elf) = read(alloc, &file) else {
        return Err(Fail::new("not read"));
    };
    match starts(alloc, &elf) {
        Ok(starts) => Ok(starts),
        Err(_) => Err(Fail::new("out of memory")),
    }
}

// The numbers that a row expects.
fn wanted(alloc: Global, row: &Row<'_>) -> Result<Vec<u64>, Fail> {
    let mut numbers = Vec::new(alloc);
    for number in row.wanted.split(' ') {
        numbers.push(hexadecimal(number)?)?;
    }
    Ok(numbers)
}

#[test]
fn parts_within_instructions(rt: HostRuntime) -> Result<(), Fail> {
    for row in &rows(rt.alloc(), STARTS)? {
        let found = starts_in(rt.alloc(), row)?;
        let wanted = wanted(rt.alloc(), row)?;
        assert_eq!(rt; found.as_slice(), wanted.as_slice(), "{}", row.words);
    }
    Ok(())
}

#[test]
fn a_long_part(rt: HostRuntime) -> Result<(), Fail> {
    for row in &rows(rt.alloc(), LAST_STARTS)? {
        let found = starts_in(rt.alloc(), row)?;
        let mut last = Vec::from_slice(rt.alloc(), &[found.len() as u64])?;
        for start in found.iter().skip(found.len().saturating_sub(2)) {
            last.push(*start)?;
        }
        let wanted = wanted(rt.alloc(), row)?;
        assert_eq!(rt; last.as_slice(), wanted.as_slice(), "{}", row.words);
    }
    Ok(())
}
