// Opcodes whose first operand is a register.
ghost use Rattle.std.specs.Prelude.{◌≡◌, ◌≤◌, ◌<◌, ◌+◌, length, IfOk, IfErr, Ok, Err};
ghost use Rattle.cfi_rows.specs.EntryCounts.{bytes_in};
ghost use Rattle.cfi_rows.specs.FrameInstructions.{instruction_of};
ghost use Rattle.cfi_rows.specs.Reads.{Fails, context_of};
ghost use Rattle.cfi_rows.specs.declared.instruction.Malformed.TheVariants.{Entry};

use crate::factors::Factors;
use crate::failed::Failed;
use crate::instruction::{
    DW_CFA_offset_extended, DW_CFA_restore_extended, DW_CFA_same_value, DW_CFA_undefined,
    Instruction,
};
use crate::operand::unsigned;
use crate::row::Rule;
use rb_bytes::cursor::Cursor;

pub(crate) fn register(
    cursor: &mut Cursor<'_>,
    op: u8,
    factors: &Factors,
) -> Result<Instruction, Failed>
    requires low { 5 ≤ op }
    requires high { op ≤ 9 }
    ensures ok { IfOk result (λ i. instruction_of (context_of factors.now) op cursor.old.left ≡ Ok
        (i, cursor.new.left)) }
    ensures err { IfErr result (λ e. Fails e (instruction_of (context_of factors.now) op cursor.old.left ≡ Err Entry)) }
    ensures room { IfOk result (λ i. bytes_in i + length cursor.new.left ≤ length cursor.old.left) }
{
    let register = unsigned(cursor)?;
    match op as u64 {
        DW_CFA_offset_extended => {
            let units = unsigned(cursor)?;
            Ok(Instruction::SetRule(register, Rule::Offset(factors.unsigned_offset(units))))
        }
        DW_CFA_restore_extended => Ok(Instruction::Restore(register)),
        DW_CFA_undefined => Ok(Instruction::SetRule(register, Rule::Undefined)),
        DW_CFA_same_value => Ok(Instruction::SetRule(register, Rule::Same)),
        _ => {
            let other = unsigned(cursor)?;
            Ok(Instruction::SetRule(register, Rule::Reg(other)))
        }
    }
}
