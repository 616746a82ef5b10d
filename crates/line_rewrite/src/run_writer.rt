// The programs of line units, written run by run. DWARF 5, section 6.2.5.
ghost use Rattle.std.specs.Prelude.{◌≡◌, ◌<◌, ◌+◌, ◌++◌, ◌^◌, All, IfOk, OnOk};
ghost use Rattle.line_rewrite.specs.Written.{IsRow, moved, rows_ops, all_spelled, written_coding};
ghost use Rattle.line_rewrite.specs.WrittenPrograms as spec;

use crate::coding::Coding;
use crate::machine::{after_row, start};
use crate::op_writer::{OPCODE_BASE, put_op};
use crate::operation::LineOp;
use crate::registers::Registers;
use crate::row_writer::{LINE_BASE, LINE_RANGE, put_row};
use rb_bytes::fault::NoMemory;
use std::alloc::Global;
use std::marker::Model;

/// A sequence that was begun and hasn't ended yet.
#[derive(Clone, Copy)]
pub struct Going {
    /// The registers after its last row.
    pub registers: Registers,
    /// The end of its last run.
    pub end: u64,
}

// The same row, at another address.
fn at_address(row: Registers, address: u64) -> Registers
    ensures { result ≡ record row { address = address } }
{
    Registers { address, ..row }
}

// Writes some rows, all at one address, and returns the registers after them.
fn put_rows(
    out: &mut Vec<u8>,
    from: Registers,
    address: u64,
    rows: &[Registers],
) -> Result<Registers, NoMemory>
    ensures written { OnOk result (out.new.items
        ≡ out.old.items ++ all_spelled (rows_ops from (moved address rows.now))) }
    ensures after { IfOk result (λ r. r ≡ spec.after_rows from (moved address rows.now)) }
    ensures fits { OnOk result (All IsRow (moved address rows.now)) }
{
    let mut present = from;
    for row in rows {
        let row = at_address(*row, address);
        put_row(out, present, row)?;
        present = after_row(row);
    }
    Ok(present)
}

// Ends a sequence.
fn close(out: &mut Vec<u8>, going: Going) -> Result<(), NoMemory>
    ensures { OnOk result (out.new.items ≡ out.old.items ++ all_spelled (spec.close_ops going)) }
{
    // A sequence doesn't end before its last row, so this difference isn't negative.
    let by = going.end.saturating_sub(going.registers.address);
    put_op(out, LineOp::AdvancePc(by))?;
    put_op(out, LineOp::EndSequence)
}

// The numbers of written headers for their operations.
fn written_coding(default_is_stmt: bool) -> Coding
    ensures { result ≡ written_coding default_is_stmt }
{
    Coding {
        minimum_instruction_length: 1,
        default_is_stmt,
        line_base: LINE_BASE,
        line_range: LINE_RANGE,
        opcode_base: OPCODE_BASE,
    }
}

// The registers before the first row of a sequence with rows at an address: the initial ones, except for the file.
fn opened(address: u64, default_is_stmt: bool, rows: &[Registers]) -> Registers
    ensures { result ≡ spec.opened (written_coding default_is_stmt) address (moved address rows.now) }
{
    let coding = written_coding(default_is_stmt);
    let begun = at_address(start(&coding), address);
    match rows.first() {
        Some(row) => Registers {
            file: row.file,
            ..begun
        },
        None => begun,
    }
}

// Begins a sequence with rows at an address. Its file is always set: binutils 2.40 begins with file 0, though DWARF 5
// (section 6.2.2) begins with 1.
fn open(
    out: &mut Vec<u8>,
    default_is_stmt: bool,
    address: u64,
    rows: &[Registers],
) -> Result<Registers, NoMemory>
    ensures written { OnOk result (out.new.items ≡ out.old.items
        ++ all_spelled (spec.open_ops (written_coding default_is_stmt) address (moved address rows.now))) }
    ensures after { IfOk result (λ r. r
        ≡ spec.after_rows (spec.opened (written_coding default_is_stmt) address (moved address rows.now))
        (moved address rows.now)) }
    ensures fits { OnOk result (All IsRow (moved address rows.now)) }
{
    let begun = opened(address, default_is_stmt, rows);
    put_op(out, LineOp::SetAddress(address))?;
    put_op(out, LineOp::SetFile(begun.file))?;
    put_rows(out, begun, address, rows)
}

// Writes the rows of a run that starts at `address`, and returns the registers after them. If the open sequence ends at
// `address`, it goes on; otherwise it is closed, and another one is begun.
fn put_run(
    out: &mut Vec<u8>,
    going: Option<Going>,
    default_is_stmt: bool,
    address: u64,
    rows: &[Registers],
) -> Result<Registers, NoMemory>
    ensures written { OnOk result (out.new.items ≡ out.old.items
        ++ all_spelled (spec.run_ops (written_coding default_is_stmt) going address (moved address rows.now))) }
    ensures after { IfOk result (λ r. r
        ≡ spec.registers_after (written_coding default_is_stmt) going address (moved address rows.now)) }
    ensures fits { OnOk result (All IsRow (moved address rows.now)) }
{
    match going {
        Some(going) => {
            if going.end == address {
                return put_rows(out, going.registers, address, rows);
            }
            close(out, going)?;
            open(out, default_is_stmt, address, rows)
        }
        None => open(out, default_is_stmt, address, rows),
    }
}

/// The program of a unit that is written so far. Runs are added by ascending addresses.
#[derive(Drop)]
pub struct Program {
    bytes: Vec<u8>,
    going: Option<Going>,
}

impl Model for Program {
    ghost use Rattle.line_rewrite.specs.WrittenPrograms.{Begun};

    ghost Value = { Begun };

    ghost view = { λ p. record { bytes = p.bytes.items; going = p.going } };
}

impl Program {
    /// A program without a sequence.
    pub fn new(alloc: Global) -> Program
        ensures { result ≡ spec.nothing_begun }
    {
        Program {
            bytes: Vec::new(alloc),
            going: None,
        }
    }

    /// Appends the rows of a run, all at its start.
    pub fn add_run(
        &mut self,
        default_is_stmt: bool,
        start: u64,
        len: u64,
        rows: &[Registers],
    ) -> Result<(), NoMemory>
        requires { start + len < 2 ^ 64 }
        ensures written { OnOk result (self.new ≡ spec.with_piece (written_coding default_is_stmt) self.old
            (record { start = start; len = len; rows = moved start rows.now })) }
        ensures fits { OnOk result (All IsRow (moved start rows.now)) }
    {
        let registers = put_run(&mut self.bytes, self.going, default_is_stmt, start, rows)?;
        self.going = Some(Going {
            registers,
            end: start + len,
        });
        Ok(())
    }

    /// Ends the last sequence. No run may follow.
    pub fn close(&mut self) -> Result<(), NoMemory>
        ensures { OnOk result (self.new.bytes ≡ spec.closed self.old) }
    {
        match self.going {
            Some(going) => close(&mut self.bytes, going),
            None => Ok(()),
        }
    }

    /// The bytes written so far.
    pub fn bytes(&self) -> &[u8]
        ensures { result.now ≡ self.now.bytes }
    {
        &self.bytes
    }
}
