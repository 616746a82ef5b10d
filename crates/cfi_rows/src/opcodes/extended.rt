// Opcodes with expressions and with factored signed operands.
ghost use Rattle.std.specs.Prelude.{◌≡◌, ◌≤◌, ◌<◌, ◌+◌, length, IfOk, IfErr, Ok, Err};
ghost use Rattle.cfi_rows.specs.EntryCounts.{bytes_in};
ghost use Rattle.cfi_rows.specs.FrameInstructions.{instruction_of};
ghost use Rattle.cfi_rows.specs.Reads.{Fails, context_of};
ghost use Rattle.cfi_rows.specs.declared.instruction.Malformed.TheVariants.{Entry};

use crate::factors::Factors;
use crate::failed::Failed;
use crate::instruction::{
    DW_CFA_GNU_args_size, DW_CFA_def_cfa_offset_sf, DW_CFA_def_cfa_sf, DW_CFA_expression,
    DW_CFA_offset_extended_sf, DW_CFA_val_expression, DW_CFA_val_offset, DW_CFA_val_offset_sf,
    Instruction,
};
use crate::operand::{block, signed, unsigned};
use crate::row::{Cfa, Rule};
use rb_bytes::cursor::Cursor;
use std::alloc::Global;

pub(crate) fn extended(
    alloc: Global,
    cursor: &mut Cursor<'_>,
    op: u8,
    factors: &Factors,
) -> Result<Instruction, Failed>
    requires low { 16 ≤ op }
    requires high { op < 64 }
    ensures ok { IfOk result (λ i. instruction_of (context_of factors.now) op cursor.old.left ≡ Ok
        (i, cursor.new.left)) }
    ensures err { IfErr result (λ e. Fails e (instruction_of (context_of factors.now) op cursor.old.left ≡ Err Entry)) }
    ensures room { IfOk result (λ i. bytes_in i + length cursor.new.left ≤ length cursor.old.left) }
{
    match op as u64 {
        DW_CFA_def_cfa_sf => {
            let reg = unsigned(cursor)?;
            let offset = factors.signed_offset(signed(cursor)?);
            Ok(Instruction::DefCfa(Cfa::Reg { reg, offset }))
        }
        DW_CFA_def_cfa_offset_sf => {
            let offset = factors.signed_offset(signed(cursor)?);
            Ok(Instruction::DefCfaOffset(offset))
        }
        DW_CFA_GNU_args_size => {
            unsigned(cursor)?;
            Ok(Instruction::Nop)
        }
        DW_CFA_expression => {
            let register = unsigned(cursor)?;
            Ok(Instruction::SetRule(register, Rule::Expr(block(alloc, cursor)?)))
        }
        DW_CFA_val_expression => {
            let register = unsigned(cursor)?;
            Ok(Instruction::SetRule(register, Rule::ValExpr(block(alloc, cursor)?)))
        }
        DW_CFA_offset_extended_sf => {
            let register = unsigned(cursor)?;
            let offset = factors.signed_offset(signed(cursor)?);
            Ok(Instruction::SetRule(register, Rule::Offset(offset)))
        }
        DW_CFA_val_offset => {
            let register = unsigned(cursor)?;
            let offset = factors.unsigned_offset(unsigned(cursor)?);
            Ok(Instruction::SetRule(register, Rule::ValOffset(offset)))
        }
        DW_CFA_val_offset_sf => {
            let register = unsigned(cursor)?;
            let offset = factors.signed_offset(signed(cursor)?);
            Ok(Instruction::SetRule(register, Rule::ValOffset(offset)))
        }
        _ => Err(Failed::Malformed),
    }
}
