// Tests symbols and their names in a file with many.
use crate::elf::refused;
use elf_image::{cuts, read};
use rb_bytes::fault::FaultKind;
use std::alloc::Global;
use std::test::Fail;
use test_files::bytes::patch;
use test_files::words::file_in_words;

// The offset of the symbols, the first multiple of 8 after the code, and their number of bytes.
const SYMBOLS_AT: u64 = 0x80;

const SYMBOLS: u64 = 24 * 10_001;

// The number of bytes of their names, which follow the symbols, with a zero byte before and after each.
const TEXTS: u64 = 1 + 7 * 10_000;

// An executable with one ECALL, and 10,000 functions on that instruction, f00000 to f09999.
fn file_of_symbols(alloc: Global) -> Result<Vec<u8>, Fail> {
    let mut words = String::from_str(alloc, "code .text 10078 ecall")?;
    for number in 0u32..10_000 {
        words.push_str(&format!(in alloc; "\nfunction f{number:05} 10078 4")?)?;
    }
    Ok(file_in_words(alloc, &words)?)
}

#[test]
fn a_file_of_many_symbols(rt: HostRuntime) -> Result<(), Fail> {
    let alloc = rt.alloc();
    let file = file_of_symbols(alloc)?;
    let Ok(elf) = read(alloc, &file) else {
        return Err(Fail::new("refused"));
    };
    assert_eq!(rt; elf.symbols.len(), 10_001);
    let null = elf.symbols.get(0).ok_or("no null symbol")?;
    assert_eq!(rt; null.name, b"".as_slice());
    let first = elf.symbols.get(1).ok_or("no first symbol")?;
    assert_eq!(rt; first.name, b"f00000".as_slice());
    let last = elf.symbols.get(10_000).ok_or("no last symbol")?;
    assert_eq!(rt; last.name, b"f09999".as_slice());
    assert_eq!(rt; (last.value, last.size, last.section), (0x10078, 4, 1));
    let found = cuts(alloc, &elf)?;
    assert_eq!(rt; found.as_slice(), [0x10078, 0x1007c].as_slice());
    Ok(())
}

#[test]
fn a_symbol_whose_name_has_no_end(rt: HostRuntime) -> Result<(), Fail> {
    let alloc = rt.alloc();
    let mut file = file_of_symbols(alloc)?;
    patch(&mut file, (SYMBOLS_AT + SYMBOLS + TEXTS - 1) as usize, b"x");
    let wanted = Some((FaultKind::Truncated, SYMBOLS_AT + 24 * 10_000));
    assert_eq!(rt; refused(alloc, &file), wanted);
    Ok(())
}
