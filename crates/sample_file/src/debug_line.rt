// The line table of a sample. DWARF 5, section 6.2.
use crate::numbers::{low, put_unit};
use crate::places::{CODE, FUNCTION_SIZE, START_SIZE};
use rb_bytes::fault::NoMemory;
use rb_bytes::leb::{put_sleb, put_uleb};
use rb_bytes::little::{put_u16, put_u32, put_u64};
use std::alloc::Global;
use table_core::DWARF_VERSION;

// The size of addresses, and of segment selectors.
const SIZES: &[u8] = b"\x08\0";

// The header's fields after its length: `minimum_instruction_length` and `maximum_operations_per_instruction` 1,
// `default_is_stmt` true, `line_base` -5, `line_range` 14, `opcode_base` 13, and the number of operands of each of the
// 12 standard opcodes. Section 6.2.4.
const FIELDS: &[u8] = b"\x01\x01\x01\xfb\x0e\x0d\0\x01\x01\x01\x01\0\0\0\x01\0\0\x01";

// The directory `/s`, and one file in it twice, each time by its name and the directory's number: rows begin with file
// 1, and file 0 is the unit's own.
const NAMES: &[u8] = b"\x01\x01\x08\x01/s\0\x02\x01\x08\x02\x0b\x02sample.c\0\0sample.c\0\0";

// The opcodes that append a row, advance the address, and advance the line.
const DW_LNS_copy: u8 = 1;

const DW_LNS_advance_pc: u8 = 2;

const DW_LNS_advance_line: u8 = 3;

// The extended opcodes that set the address, and that end the sequence, each after a zero and its length.
const SET_ADDRESS: &[u8] = b"\0\x09\x02";

const END_SEQUENCE: &[u8] = b"\0\x01\x01";

// The offsets of a function's rows. Each row has the line number of the one before it plus 1.
const ROWS: [u64; 4] = [0, 0x10, 0x18, 0x1c];

// The difference between the first line of a function and the last line of the function before it.
const LINES_BETWEEN: i64 = 7;

fn put_advance(program: &mut Vec<u8>, by: u64) -> Result<(), NoMemory> {
    program.push(DW_LNS_advance_pc)?;
    put_uleb(program, by)?;
    Ok(())
}

// Appends an advance of the line by `lines`, and a row.
fn put_row(program: &mut Vec<u8>, lines: i64) -> Result<(), NoMemory> {
    program.push(DW_LNS_advance_line)?;
    put_sleb(program, lines)?;
    program.push(DW_LNS_copy)?;
    Ok(())
}

// Appends the rows of a function. Before this, the program's address is the first byte of the first function
// (`is_first`), or the last row of the function before this one.
fn put_rows(program: &mut Vec<u8>, is_first: bool) -> Result<(), NoMemory> {
    if is_first {
        program.push(DW_LNS_copy)?;
    } else {
        put_advance(program, FUNCTION_SIZE - ROWS[3])?;
        put_row(program, LINES_BETWEEN)?;
    }
    put_advance(program, ROWS[1] - ROWS[0])?;
    put_row(program, 1)?;
    put_advance(program, ROWS[2] - ROWS[1])?;
    put_row(program, 1)?;
    put_advance(program, ROWS[3] - ROWS[2])?;
    put_row(program, 1)?;
    Ok(())
}

fn put_program(unit: &mut Vec<u8>, n: u64) -> Result<(), NoMemory> {
    unit.extend_from_slice(SET_ADDRESS)?;
    put_u64(unit, CODE)?;
    for k in 0..n {
        put_rows(unit, k == 0)?;
    }
    put_advance(unit, FUNCTION_SIZE - ROWS[3])?;
    put_row(unit, LINES_BETWEEN)?;
    put_advance(unit, START_SIZE)?;
    unit.extend_from_slice(END_SEQUENCE)?;
    Ok(())
}

/// The line unit of sample `n`, which has at least one function: one sequence, with four rows for each function, and
/// one for the code at the entry point.
pub fn lines(alloc: Global, n: u64) -> Result<Vec<u8>, NoMemory> {
    let mut unit = Vec::new(alloc);
    put_u16(&mut unit, DWARF_VERSION)?;
    unit.extend_from_slice(SIZES)?;
    put_u32(&mut unit, low((FIELDS.len() + NAMES.len()) as u64))?;
    unit.extend_from_slice(FIELDS)?;
    unit.extend_from_slice(NAMES)?;
    put_program(&mut unit, n)?;
    let mut lines = Vec::new(alloc);
    put_unit(&mut lines, &unit)?;
    Ok(lines)
}
