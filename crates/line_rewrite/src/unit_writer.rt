// Line units as bytes. DWARF 5, sections 6.2.4 and 7.22.
ghost use Rattle.std.specs.Prelude.{◌≡◌, ◌<◌, ◌-◌, ◌++◌, ◌^◌, All, OnOk, length};
ghost use Rattle.line_rewrite.specs.WrittenUnits as spec;

use crate::header::Header;
use crate::op_writer::{OPCODE_BASE, put_bytes};
use crate::row_writer::{LINE_BASE, LINE_RANGE};
use crate::run_writer::Program;
use crate::unit::Unit;
use rb_bytes::fault::NoMemory;
use rb_bytes::little::put_u32;

// The version (5), in two bytes, and the sizes of addresses (8) and of segment selectors (0).
const VERSION_AND_SIZES: [u8; 4] = [5, 0, 8, 0];

// The least length of an instruction, and the greatest number of operations in one. With 1 for the length any distance
// can be written.
const INSTRUCTION_LENGTH: u8 = 1;

const OPERATIONS: u8 = 1;

// The line base, as a byte in two's complement.
const LINE_BASE_BYTE: u8 = (256 + LINE_BASE as i16) as u8;

// The numbers of operands of the standard opcodes 1 to 12. DWARF 5, section 6.2.5.2.
const OPERAND_COUNTS: [u8; 12] = [0, 1, 1, 1, 1, 0, 0, 0, 1, 0, 0, 1];

// The number of bytes of a header between its length and the tables: six numbers, and the numbers of operands.
const FIELDS_SIZE: usize = 18;

// The number of bytes of a unit after its length, without the tables and the program: the fields up to the header's
// length, that length, and the fields after it.
const FIXED_SIZE: usize = 8 + FIELDS_SIZE;

fn flag_byte(flag: bool) -> u8
    ensures { result ≡ spec.flag_byte flag }
{
    if flag { 1 } else { 0 }
}

// The fields after a header's length.
fn put_fields(out: &mut Vec<u8>, header: &Header) -> Result<(), NoMemory>
    ensures { OnOk result (out.new.items ≡ out.old.items ++ spec.header_fields header.now) }
{
    let stmt = flag_byte(header.coding.default_is_stmt);
    put_bytes(
        out,
        &[
            INSTRUCTION_LENGTH,
            OPERATIONS,
            stmt,
            LINE_BASE_BYTE,
            LINE_RANGE,
            OPCODE_BASE,
        ],
    )?;
    put_bytes(out, &OPERAND_COUNTS)?;
    put_bytes(out, &header.rest)?;
    Ok(())
}

// Appends a unit, with its length before it.
fn put_unit(out: &mut Vec<u8>, header: &Header, program: &[u8]) -> Result<(), NoMemory>
    requires { length (spec.unit_bytes header.now program.now) < 2 ^ 32 - 1 }
    ensures { OnOk result (out.new.items
        ≡ out.old.items ++ spec.spelled_unit (spec.unit_bytes header.now program.now)) }
{
    let fields = FIELDS_SIZE + header.rest.len();
    put_u32(out, (FIXED_SIZE + header.rest.len() + program.len()) as u32)?;
    put_bytes(out, &VERSION_AND_SIZES)?;
    put_u32(out, fields as u32)?;
    put_fields(out, header)?;
    put_bytes(out, program)?;
    Ok(())
}

/// Appends all units, each with its program, whose last sequence is closed before.
pub fn put_units(
    out: &mut Vec<u8>,
    units: &[Unit],
    programs: &mut [Program],
) -> Result<(), NoMemory>
    requires { All (λ b. length b < 2 ^ 32 - 1) (spec.written_units units.now programs.old) }
    ensures { OnOk result (out.new.items
        ≡ out.old.items ++ spec.spelled_units (spec.written_units units.now programs.old)) }
{
    let mut rest = programs;
    for unit in units {
        match rest.split_first_mut() {
            None => return Ok(()),
            Some((program, behind)) => {
                program.close()?;
                put_unit(out, &unit.header, program.bytes())?;
                rest = behind;
            }
        }
    }
    Ok(())
}
