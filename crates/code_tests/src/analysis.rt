// Runs all analyses of a file's code, and checks rows of tables with expected results.
use elf_image::read;
use func_find::functions;
use rb_bytes::fault::Refusal;
use rb_bytes::text::put_hex;
use rv_code::cell::{CellKind, CodeCell};
use rv_code::{Func, Role};
use rv_reloc::{Refs, references, starts};
use std::alloc::Global;
use std::process::Abort;
use std::test::Fail;
use test_files::words::{Row, file_in_words, ranges, rows};

/// The code of a file.
#[derive(Drop)]
pub struct Analysis {
    pub starts: Vec<u64>,
    pub refs: Refs,
    pub funcs: Vec<Func>,
}

// Reads a file and analyses its code.
fn analyse(alloc: Global, file: &[u8], whole: &[(u64, u64)]) -> Result<Analysis, Refusal> {
    let elf = read(alloc, file)?;
    let starts = starts(alloc, &elf)?;
    let refs = references(alloc, &elf, &starts, whole)?;
    let funcs = functions(alloc, &elf, &starts, &refs, whole)?;
    Ok(Analysis {
        starts,
        refs,
        funcs,
    })
}

fn put_word(text: &mut Vec<u8>, word: &str) -> Result<(), Fail> {
    text.extend_from_slice(word.as_bytes())?;
    Ok(())
}

/// Appends hexadecimal numbers, each after a space.
pub fn put_numbers(text: &mut Vec<u8>, numbers: &[u64]) -> Result<(), Fail> {
    for number in numbers {
        text.push(b' ')?;
        put_hex(text, *number)?;
    }
    Ok(())
}

// Appends an instruction's address and role: the target, and the AUIPC of a lower part.
fn put_role(text: &mut Vec<u8>, place: u64, role: Role) -> Result<(), Fail> {
    let (name, target, hi) = match role {
        Role::Plain => (" Plain", 0, None),
        Role::CallHi { target } => (" CallHi", target, None),
        Role::CallLo { hi, target } => (" CallLo", target, Some(hi)),
        Role::Hi { target } => (" Hi", target, None),
        Role::Lo { hi, target } => (" Lo", target, Some(hi)),
        Role::AbsHi { target } => (" AbsHi", target, None),
        Role::AbsLo { target } => (" AbsLo", target, None),
    };
    put_numbers(text, &[place])?;
    put_word(text, name)?;
    put_numbers(text, &[target])?;
    match hi {
        Some(hi) => put_numbers(text, &[hi]),
        None => Ok(()),
    }
}

// Appends a cell's address, its width, and its address or the two labels of its distance.
fn put_cell(text: &mut Vec<u8>, cell: &CodeCell) -> Result<(), Fail> {
    put_numbers(text, &[cell.addr, cell.width as u64])?;
    match cell.kind {
        CellKind::Abs { to } => put_numbers(text, &[to]),
        CellKind::Diff { to, from } => put_numbers(text, &[to, from]),
    }
}

// Appends the start and end of a function, and whether it moves as one piece.
fn put_extent(text: &mut Vec<u8>, func: &Func) -> Result<(), Fail> {
    put_numbers(text, &[func.start, func.end])?;
    if func.whole {
        put_word(text, " whole")?;
    }
    Ok(())
}

fn put_instructions(alloc: Global, text: &mut Vec<u8>, func: &Func) -> Result<(), Fail> {
    for placed in &func.insts {
        put_numbers(text, &[placed.addr])?;
        let shown = format!(in alloc; " {:?}", placed.inst)?;
        put_word(text, &shown)?;
    }
    Ok(())
}

// Appends the items of the list called `name`.
fn put_list(alloc: Global, text: &mut Vec<u8>, found: &Analysis, name: &str) -> Result<(), Fail> {
    if name == "starts" {
        put_numbers(text, &found.starts)?;
    } else if name == "roles" {
        for (place, role) in &found.refs.roles {
            put_role(text, *place, *role)?;
        }
    } else if name == "cells" {
        for cell in &found.refs.cells {
            put_cell(text, cell)?;
        }
    }
    for func in &found.funcs {
        if name == "functions" {
            put_extent(text, func)?;
        } else if name == "instructions" {
            put_instructions(alloc, text, func)?;
        }
    }
    Ok(())
}

// Appends the result for a file in the form of the expected text: the fault and its place, or the list called `name`.
fn put_answer(
    alloc: Global,
    text: &mut Vec<u8>,
    answer: &Result<Analysis, Refusal>,
    name: &str,
) -> Result<(), Fail> {
    match answer {
        Ok(found) => {
            put_word(text, name)?;
            put_list(alloc, text, found, name)
        }
        Err(Refusal::Fault(fault)) => {
            put_word(text, "refused ")?;
            put_word(text, fault.kind.name())?;
            put_numbers(text, &[fault.place])
        }
        Err(Refusal::Memory) => put_word(text, "no memory"),
    }
}

fn check_row(rt: &impl Abort, alloc: Global, row: &Row<'_>) -> Result<(), Fail> {
    let file = file_in_words(alloc, &row.words);
    assert!(rt; file.is_ok(), "{}", row.words);
    let file = file?;
    let whole = ranges(alloc, &row.words)?;
    let answer = analyse(alloc, &file, &whole);
    for wanted in row.wanted.split(" | ") {
        let wanted = wanted.trim_ascii();
        let name = wanted.split(' ').next().unwrap_or("");
        let mut text = Vec::new(alloc);
        put_answer(alloc, &mut text, &answer, name)?;
        assert_eq!(rt; str::from_utf8(&text)?, wanted, "{}", row.words);
    }
    Ok(())
}

/// Checks that the rows of a table give the expected results: the fault for which the file is refused, or lists of
///
/// - `starts`: addresses of instructions
/// - `roles`: address, role, target, and the address of the AUIPC of a lower part
/// - `cells`: address, width, and the address, or the two labels of a distance
/// - `functions`: start, end, and whether it is `whole`
/// - `instructions`: address and instruction
pub fn check_rows(rt: &impl Abort, alloc: Global, table: &str) -> Result<(), Fail> {
    for row in &rows(alloc, table)? {
        check_row(rt, alloc, row)?;
    }
    Ok(())
}
