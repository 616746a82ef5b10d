// Opcodes with an operand in their low six bits.
ghost use Rattle.std.specs.Prelude.{◌≡◌, ◌≤◌, ◌<◌, ◌+◌, length, IfOk, IfErr, Ok, Err};
ghost use Rattle.cfi_rows.specs.EntryCounts.{bytes_in};
ghost use Rattle.cfi_rows.specs.FrameInstructions.{instruction_of};
ghost use Rattle.cfi_rows.specs.Reads.{Fails, context_of};
ghost use Rattle.cfi_rows.specs.declared.instruction.Malformed.TheVariants.{Entry};

use crate::factors::Factors;
use crate::failed::Failed;
use crate::instruction::{DW_CFA_advance_loc, DW_CFA_offset, Instruction};
use crate::operand::unsigned;
use crate::row::Rule;
use rb_bytes::cursor::Cursor;

pub(crate) fn primary(
    cursor: &mut Cursor<'_>,
    op: u8,
    factors: &Factors,
) -> Result<Instruction, Failed>
    requires { 64 ≤ op }
    ensures ok { IfOk result (λ i. instruction_of (context_of factors.now) op cursor.old.left ≡ Ok
        (i, cursor.new.left)) }
    ensures err { IfErr result (λ e. Fails e (instruction_of (context_of factors.now) op cursor.old.left ≡ Err Entry)) }
    ensures room { IfOk result (λ i. bytes_in i + length cursor.new.left ≤ length cursor.old.left) }
{
    let low = (op % 64) as u64;
    match (op / 64) as u64 {
        DW_CFA_advance_loc => factors.advance(low),
        DW_CFA_offset => {
            let units = unsigned(cursor)?;
            Ok(Instruction::SetRule(low, Rule::Offset(factors.unsigned_offset(units))))
        }
        _ => Ok(Instruction::Restore(low)),
    }
}
