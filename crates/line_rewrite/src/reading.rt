// Operations read. DWARF 5, sections 6.2.5 and 7.22.
ghost use Rattle.std.specs.Prelude.{◌≡◌, ◌<◌, ◌≤◌, ◌+◌, ◌-◌, ℕ, List, length, IfOk, IfErr, OnOk, OnErr, Ok, Err};
ghost use Rattle.std.specs.Prelude.{slice_index};
ghost use Rattle.rb_bytes.specs.Readers.{Reading};
ghost use Rattle.line_rewrite.specs.Operations.{unknown_at, extended_in, extended_at, standard_at, op_at};

use crate::operation::*;
use rb_bytes::cursor::Cursor;
use rb_bytes::gap::Gap;

// Skips the operands of an unknown operation, which are LEB128 numbers.
#[tactic(auto, using(crate::proofs::Operands::unknown_step))]
fn unknown<'a>(cursor: &mut Cursor<'a>, operands: u8) -> Result<LineOp, Gap>
    ensures read { IfOk result (λ op. unknown_at operands cursor.old.left ≡ Ok (op, cursor.new.left)) }
    ensures gap { IfErr result (λ gap. unknown_at operands cursor.old.left ≡ Err gap) }
    ensures on { OnOk result (length cursor.new.left ≤ length cursor.old.left) }
{
    for _ in 0..operands {
        cursor.uleb()?;
    }
    Ok(LineOp::Unknown)
}

// The operation in the bytes of an extended one. Bytes after its operand are skipped.
fn extended_in(bytes: &[u8]) -> Result<LineOp, Gap>
    ensures read { IfOk result (λ op. extended_in bytes.now ≡ Ok op) }
    ensures gap { IfErr result (λ gap. extended_in bytes.now ≡ Err gap) }
{
    let mut cursor = Cursor::new(bytes);
    match cursor.u8()? as u64 {
        DW_LNE_end_sequence => Ok(LineOp::EndSequence),
        DW_LNE_set_address => Ok(LineOp::SetAddress(cursor.u64()?)),
        DW_LNE_set_discriminator => Ok(LineOp::SetDiscriminator(cursor.uleb()?)),
        _ => Ok(LineOp::Unknown),
    }
}

// An extended operation, after its zero: the number of its bytes, and the bytes.
fn extended<'a>(cursor: &mut Cursor<'a>) -> Result<LineOp, Gap>
    ensures read { IfOk result (λ op. extended_at cursor.old.left ≡ Ok (op, cursor.new.left)) }
    ensures gap { IfErr result (λ gap. extended_at cursor.old.left ≡ Err gap) }
    ensures on { OnOk result (length cursor.new.left ≤ length cursor.old.left) }
{
    let size = cursor.uleb()?;
    let bytes = cursor.take(size as usize)?;
    extended_in(bytes)
}

// A standard operation, after its opcode. `lengths` has the number of operands of each opcode from 1 on.
fn standard<'a>(cursor: &mut Cursor<'a>, lengths: &[u8], opcode: u8) -> Result<LineOp, Gap>
    requires known { 0 < opcode }
    requires counted { opcode ≤ length lengths.now }
    ensures read { IfOk result (λ op. standard_at lengths.now opcode cursor.old.left ≡ Ok (op, cursor.new.left)) }
    ensures gap { IfErr result (λ gap. standard_at lengths.now opcode cursor.old.left ≡ Err gap) }
    ensures on { OnOk result (length cursor.new.left ≤ length cursor.old.left) }
{
    match opcode as u64 {
        DW_LNS_copy => Ok(LineOp::Copy),
        DW_LNS_advance_pc => Ok(LineOp::AdvancePc(cursor.uleb()?)),
        DW_LNS_advance_line => Ok(LineOp::AdvanceLine(cursor.sleb()?)),
        DW_LNS_set_file => Ok(LineOp::SetFile(cursor.uleb()?)),
        DW_LNS_set_column => Ok(LineOp::SetColumn(cursor.uleb()?)),
        DW_LNS_negate_stmt => Ok(LineOp::NegateStmt),
        DW_LNS_set_basic_block => Ok(LineOp::SetBasicBlock),
        DW_LNS_const_add_pc => Ok(LineOp::ConstAddPc),
        DW_LNS_fixed_advance_pc => Ok(LineOp::FixedAdvancePc(cursor.u16()?)),
        DW_LNS_set_prologue_end => Ok(LineOp::SetPrologueEnd),
        DW_LNS_set_epilogue_begin => Ok(LineOp::SetEpilogueBegin),
        DW_LNS_set_isa => Ok(LineOp::SetIsa(cursor.uleb()?)),
        _ => unknown(cursor, lengths[opcode as usize - 1]),
    }
}

/// Reads the operation at the front, which has at least one byte.
#[tactic(auto, unfolding(crate::specs::Operations::op_at))]
pub fn read_op<'a>(cursor: &mut Cursor<'a>, opcode_base: u8, lengths: &[u8]) -> Result<LineOp, Gap>
    requires { opcode_base ≤ length lengths.now + 1 }
    ensures read { IfOk result (λ op. op_at opcode_base lengths.now cursor.old.left ≡ Ok (op, cursor.new.left)) }
    ensures gap { IfErr result (λ gap. op_at opcode_base lengths.now cursor.old.left ≡ Err gap) }
    ensures shorter { OnOk result (length cursor.new.left < length cursor.old.left) }
{
    let opcode = cursor.u8()?;
    if opcode >= opcode_base {
        Ok(LineOp::Special(opcode - opcode_base))
    } else if opcode == 0 {
        extended(cursor)
    } else {
        standard(cursor, lengths, opcode)
    }
}
