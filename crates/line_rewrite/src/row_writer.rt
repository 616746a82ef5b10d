// Rows as operations. DWARF 5, section 6.2.5.
ghost use Rattle.std.specs.Prelude.{◌≡◌, ◌++◌, OnOk};
ghost use Rattle.std.specs.Bool.{beq};
ghost use Rattle.line_rewrite.specs.declared.operation.LineOp.TheVariants as operation;
ghost use Rattle.line_rewrite.specs.Written.{IsRow, IsSpelled, unless, step_ops, row_ops, all_spelled};

use crate::op_writer::put_op;
use crate::operation::LineOp;
use crate::registers::Registers;
use rb_bytes::fault::NoMemory;

/// The least line advance of special opcodes: the line base of units that are written.
pub const LINE_BASE: i8 = -5;

/// The number of different line advances of special opcodes: the line range of units that are written.
pub const LINE_RANGE: u8 = 14;

// The most lines that a special opcode goes back.
const MAX_BACK: u64 = -(LINE_BASE as i64) as u64;

// The most bytes by which a special opcode advances the address, so that the opcode fits in a byte: 13 + 13 + 14 * 16
// is 250.
const MAX_ADVANCE: u64 = 16;

// Writes an operation, unless it is needless.
fn put_unless(out: &mut Vec<u8>, needless: bool, op: LineOp) -> Result<(), NoMemory>
    requires { IsSpelled op }
    ensures { OnOk result (out.new.items ≡ out.old.items ++ all_spelled (unless needless op)) }
{
    if needless {
        return Ok(());
    }
    put_op(out, op)
}

// Writes DW_LNS_negate_stmt if the flag is_stmt changes.
fn put_stmt_change(out: &mut Vec<u8>, from: bool, to: bool) -> Result<(), NoMemory>
    ensures { OnOk result (out.new.items
        ≡ out.old.items ++ all_spelled (unless (beq from to) operation.NegateStmt)) }
{
    match (from, to) {
        (true, true) | (false, false) => Ok(()),
        (true, false) | (false, true) => put_op(out, LineOp::NegateStmt),
    }
}

// Advances the line and the address, and appends the row: by one special opcode if there is one for both.
fn put_step(out: &mut Vec<u8>, from: Registers, row: Registers) -> Result<(), NoMemory>
    ensures { OnOk result (out.new.items ≡ out.old.items ++ all_spelled (step_ops from row)) }
{
    // Addresses of rows don't fall, so this difference isn't negative.
    let by = row.address.saturating_sub(from.address);
    let step = row.line.wrapping_sub(from.line);
    let above = step.wrapping_add(MAX_BACK);
    if above < LINE_RANGE as u64 && by <= MAX_ADVANCE {
        return put_op(out, LineOp::Special(above as u8 + LINE_RANGE * by as u8));
    }
    put_unless(
        out,
        from.line == row.line,
        LineOp::AdvanceLine(step.cast_signed()),
    )?;
    put_unless(out, from.address == row.address, LineOp::AdvancePc(by))?;
    put_op(out, LineOp::Copy)
}

/// Writes the operations that change the registers from `from` to `row`, and append that.
pub fn put_row(out: &mut Vec<u8>, from: Registers, row: Registers) -> Result<(), NoMemory>
    ensures written { OnOk result (out.new.items ≡ out.old.items ++ all_spelled (row_ops from row)) }
    ensures fits { IsRow row }
{
    put_unless(out, from.file == row.file, LineOp::SetFile(row.file))?;
    put_unless(
        out,
        from.column == row.column,
        LineOp::SetColumn(row.column),
    )?;
    put_stmt_change(out, from.is_stmt, row.is_stmt)?;
    put_unless(out, !row.basic_block, LineOp::SetBasicBlock)?;
    put_unless(out, !row.prologue_end, LineOp::SetPrologueEnd)?;
    put_unless(out, !row.epilogue_begin, LineOp::SetEpilogueBegin)?;
    put_unless(out, from.isa == row.isa, LineOp::SetIsa(row.isa))?;
    put_unless(
        out,
        row.discriminator == 0,
        LineOp::SetDiscriminator(row.discriminator),
    )?;
    put_step(out, from, row)?;
    Ok(())
}
