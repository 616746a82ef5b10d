// Operations as bytes. DWARF 5, sections 6.2.5 and 7.22.
ghost use Rattle.std.specs.Prelude.{◌≡◌, ◌≤◌, ◌++◌, ◌∷◌, length, OnOk};
ghost use Rattle.byteorder.specs.Endian.{little_bytes};
ghost use Rattle.rb_bytes.specs.Leb.{uleb, sleb};
ghost use Rattle.line_rewrite.specs.Written.{spelled, IsSpelled};

use crate::operation::*;
use byteorder::{ByteOrder, LittleEndian};
use rb_bytes::fault::NoMemory;
use rb_bytes::leb::{put_sleb, put_uleb};

/// The opcode base of units that are written: one more than the standard opcodes of version 5.
pub const OPCODE_BASE: u8 = 13;

// The extended opcode that version 5 reserves (DW_LNE_define_file before). It is used for unknown operations, none of
// which is ever written.
const RESERVED: u8 = 3;

/// Appends some bytes.
pub fn put_bytes(out: &mut Vec<u8>, bytes: &[u8]) -> Result<(), NoMemory>
    ensures { OnOk result (out.new.items ≡ out.old.items ++ bytes.now) }
{
    out.extend_from_slice(bytes)?;
    Ok(())
}

// Appends an opcode with an unsigned operand in LEB128.
fn put_operand(out: &mut Vec<u8>, opcode: u8, operand: u64) -> Result<(), NoMemory>
    ensures { OnOk result (out.new.items ≡ out.old.items ++ opcode ∷ uleb operand) }
{
    put_bytes(out, &[opcode])?;
    put_uleb(out, operand)
}

fn put_line(out: &mut Vec<u8>, by: i64) -> Result<(), NoMemory>
    ensures { OnOk result (out.new.items ≡ out.old.items ++ 3 ∷ sleb by) }
{
    put_bytes(out, &[DW_LNS_advance_line as u8])?;
    put_sleb(out, by)
}

// Appends DW_LNE_set_address. An extended opcode begins with a zero and the number of bytes that follow.
fn put_address(out: &mut Vec<u8>, address: u64) -> Result<(), NoMemory>
    ensures { OnOk result (out.new.items ≡ out.old.items ++ 0 ∷ 9 ∷ 2 ∷ little_bytes 8 address) }
{
    let mut field = [0; 8];
    LittleEndian::write_u64(&mut field, address);
    put_bytes(out, &[0, 9, DW_LNE_set_address as u8])?;
    put_bytes(out, &field)
}

// The number of bytes of an unsigned LEB128.
#[tactic(auto, using(rb_bytes::proofs::UnsignedLeb::spellings))]
fn uleb_size(n: u64) -> u8
    ensures size { result ≡ length (uleb n) }
    ensures bound { result ≤ 10 }
{
    let mut size = 1;
    let mut rest = n;
    'bytes: while rest >= 128 {
        size += 1;
        rest /= 128;
    }
    size
}

/// Appends an operation.
pub fn put_op(out: &mut Vec<u8>, op: LineOp) -> Result<(), NoMemory>
    requires { IsSpelled op }
    ensures { OnOk result (out.new.items ≡ out.old.items ++ spelled op) }
{
    match op {
        LineOp::Special(adjusted) => put_bytes(out, &[adjusted + OPCODE_BASE]),
        LineOp::Copy => put_bytes(out, &[DW_LNS_copy as u8]),
        LineOp::AdvancePc(n) => put_operand(out, DW_LNS_advance_pc as u8, n),
        LineOp::AdvanceLine(by) => put_line(out, by),
        LineOp::SetFile(n) => put_operand(out, DW_LNS_set_file as u8, n),
        LineOp::SetColumn(n) => put_operand(out, DW_LNS_set_column as u8, n),
        LineOp::NegateStmt => put_bytes(out, &[DW_LNS_negate_stmt as u8]),
        LineOp::SetBasicBlock => put_bytes(out, &[DW_LNS_set_basic_block as u8]),
        LineOp::ConstAddPc => put_bytes(out, &[DW_LNS_const_add_pc as u8]),
        LineOp::FixedAdvancePc(n) => {
            let mut field = [0; 2];
            LittleEndian::write_u16(&mut field, n);
            put_bytes(out, &[DW_LNS_fixed_advance_pc as u8])?;
            put_bytes(out, &field)
        }
        LineOp::SetPrologueEnd => put_bytes(out, &[DW_LNS_set_prologue_end as u8]),
        LineOp::SetEpilogueBegin => put_bytes(out, &[DW_LNS_set_epilogue_begin as u8]),
        LineOp::SetIsa(n) => put_operand(out, DW_LNS_set_isa as u8, n),
        LineOp::EndSequence => put_bytes(out, &[0, 1, DW_LNE_end_sequence as u8]),
        LineOp::SetAddress(address) => put_address(out, address),
        LineOp::SetDiscriminator(n) => {
            put_bytes(out, &[0, uleb_size(n) + 1])?;
            put_operand(out, DW_LNE_set_discriminator as u8, n)
        }
        LineOp::Unknown => put_bytes(out, &[0, 1, RESERVED]),
    }
}
