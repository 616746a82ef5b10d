// Opcodes that remember states and define the frame address.
ghost use Rattle.std.specs.Prelude.{◌≡◌, ◌≤◌, ◌<◌, ◌+◌, length, IfOk, IfErr, Ok, Err};
ghost use Rattle.cfi_rows.specs.EntryCounts.{bytes_in};
ghost use Rattle.cfi_rows.specs.FrameInstructions.{instruction_of};
ghost use Rattle.cfi_rows.specs.Reads.{Fails, context_of};
ghost use Rattle.cfi_rows.specs.declared.instruction.Malformed.TheVariants.{Entry};

use crate::factors::Factors;
use crate::failed::Failed;
use crate::instruction::{
    DW_CFA_def_cfa, DW_CFA_def_cfa_offset, DW_CFA_def_cfa_register, DW_CFA_remember_state,
    DW_CFA_restore_state, Instruction,
};
use crate::operand::{block, unsigned};
use crate::row::Cfa;
use rb_bytes::cursor::Cursor;
use std::alloc::Global;

pub(crate) fn frame(
    alloc: Global,
    cursor: &mut Cursor<'_>,
    op: u8,
    factors: &Factors,
) -> Result<Instruction, Failed>
    requires low { 10 ≤ op }
    requires high { op ≤ 15 }
    ensures ok { IfOk result (λ i. instruction_of (context_of factors.now) op cursor.old.left ≡ Ok
        (i, cursor.new.left)) }
    ensures err { IfErr result (λ e. Fails e (instruction_of (context_of factors.now) op cursor.old.left ≡ Err Entry)) }
    ensures room { IfOk result (λ i. bytes_in i + length cursor.new.left ≤ length cursor.old.left) }
{
    match op as u64 {
        DW_CFA_remember_state => Ok(Instruction::RememberState),
        DW_CFA_restore_state => Ok(Instruction::RestoreState),
        DW_CFA_def_cfa => {
            let reg = unsigned(cursor)?;
            let offset = unsigned(cursor)?.cast_signed();
            Ok(Instruction::DefCfa(Cfa::Reg { reg, offset }))
        }
        DW_CFA_def_cfa_register => Ok(Instruction::DefCfaRegister(unsigned(cursor)?)),
        DW_CFA_def_cfa_offset => Ok(Instruction::DefCfaOffset(unsigned(cursor)?.cast_signed())),
        _ => Ok(Instruction::DefCfa(Cfa::Expr(block(alloc, cursor)?))),
    }
}
