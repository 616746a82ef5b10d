// The instructions of an entry. DWARF 5, section 7.24.
ghost use Rattle.std.specs.Prelude.{◌≡◌, ◌≤◌, ◌+◌, length, sum_by, IfOk, IfErr, Ok, Err};
ghost use Rattle.cfi_rows.specs.EntryCounts.{bytes_in};
ghost use Rattle.cfi_rows.specs.FrameInstructions.{instruction_at, instructions_at};
ghost use Rattle.cfi_rows.specs.Reads.{Fails, context_of};
ghost use Rattle.cfi_rows.specs.declared.instruction.Malformed.TheVariants.{Entry};

use crate::factors::Factors;
use crate::failed::Failed;
use crate::instruction::*;
use crate::opcodes::extended::extended;
use crate::opcodes::frame::frame;
use crate::opcodes::location::location;
use crate::opcodes::primary::primary;
use crate::opcodes::register::register;
use crate::operand::byte;
use file_bounds::FRAME_INSTRUCTIONS;
use rb_bytes::cursor::Cursor;
use std::alloc::Global;

// The instruction at the front, by the range that its opcode is in. Opcodes above DW_CFA_hi_user have an operand in
// their low six bits.
fn instruction(
    alloc: Global,
    cursor: &mut Cursor<'_>,
    factors: &Factors,
) -> Result<Instruction, Failed>
    ensures ok { IfOk result (λ i. instruction_at (context_of factors.now) cursor.old.left ≡ Ok (i, cursor.new.left)) }
    ensures err { IfErr result (λ e. Fails e (instruction_at (context_of factors.now) cursor.old.left ≡ Err Entry)) }
    ensures room { IfOk result (λ i. bytes_in i + length cursor.new.left ≤ length cursor.old.left) }
{
    let op = byte(cursor)?;
    match op as u64 {
        DW_CFA_nop..=DW_CFA_advance_loc4 => location(cursor, op, factors),
        DW_CFA_offset_extended..=DW_CFA_register => register(cursor, op, factors),
        DW_CFA_remember_state..=DW_CFA_def_cfa_expression => frame(alloc, cursor, op, factors),
        DW_CFA_expression..=DW_CFA_hi_user => extended(alloc, cursor, op, factors),
        _ => primary(cursor, op, factors),
    }
}

/// The instructions that all bytes left spell.
pub(crate) fn instructions(
    alloc: Global,
    cursor: &mut Cursor<'_>,
    factors: &Factors,
) -> Result<Vec<Instruction>, Failed>
    ensures ok { IfOk result (λ is. instructions_at (context_of factors.now) cursor.old.left ≡ Ok is.items) }
    ensures err { IfErr result (λ e. Fails e (instructions_at (context_of factors.now) cursor.old.left ≡ Err Entry)) }
    ensures room { IfOk result (λ is. sum_by bytes_in is.items ≤ length cursor.old.left) }
{
    let mut list = Vec::new(alloc);
    // Each instruction takes a byte at least, so nothing is left after the loop.
    for count in 0..cursor.left() {
        if cursor.left() == 0 {
            return Ok(list);
        }
        if count >= FRAME_INSTRUCTIONS {
            return Err(Failed::Memory);
        }
        list.push(instruction(alloc, cursor, factors)?)?;
    }
    if cursor.left() > 0 {
        return Err(Failed::Malformed);
    }
    Ok(list)
}
