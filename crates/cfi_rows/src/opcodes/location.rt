// Opcodes that move the location, and the one that does nothing.
ghost use Rattle.std.specs.Prelude.{◌≡◌, ◌≤◌, ◌<◌, ◌+◌, length, IfOk, IfErr, Ok, Err};
ghost use Rattle.cfi_rows.specs.EntryCounts.{bytes_in};
ghost use Rattle.cfi_rows.specs.FrameInstructions.{instruction_of};
ghost use Rattle.cfi_rows.specs.Reads.{Fails, context_of};
ghost use Rattle.cfi_rows.specs.declared.instruction.Malformed.TheVariants.{Entry};

use crate::factors::Factors;
use crate::failed::Failed;
use crate::instruction::{
    DW_CFA_advance_loc1, DW_CFA_advance_loc2, DW_CFA_nop, DW_CFA_set_loc, Instruction,
};
use crate::operand::{byte, half, word};
use rb_bytes::cursor::Cursor;

pub(crate) fn location(
    cursor: &mut Cursor<'_>,
    op: u8,
    factors: &Factors,
) -> Result<Instruction, Failed>
    requires { op ≤ 4 }
    ensures ok { IfOk result (λ i. instruction_of (context_of factors.now) op cursor.old.left ≡ Ok
        (i, cursor.new.left)) }
    ensures err { IfErr result (λ e. Fails e (instruction_of (context_of factors.now) op cursor.old.left ≡ Err Entry)) }
    ensures room { IfOk result (λ i. bytes_in i + length cursor.new.left ≤ length cursor.old.left) }
{
    match op as u64 {
        DW_CFA_nop => Ok(Instruction::Nop),
        DW_CFA_set_loc => {
            let address = factors.encoding.pointer(factors.end, cursor)?;
            Ok(Instruction::SetLoc(address))
        }
        DW_CFA_advance_loc1 => {
            let units = byte(cursor)?;
            factors.advance(units as u64)
        }
        DW_CFA_advance_loc2 => {
            let units = half(cursor)?;
            factors.advance(units as u64)
        }
        _ => {
            let units = word(cursor)?;
            factors.advance(units as u64)
        }
    }
}
