// Encodes two-byte instructions.
ghost use Rattle.std.specs.Prelude.{IsSome};
ghost use Rattle.rv_encode.specs.FittingOperands.{FitsHalf};
ghost use Rattle.rv_encode.specs.internal.SomeNumber.{FindsHalf};

use crate::arithmetic::{arithmetic_pair, c_add, c_andi, c_mv, c_slli, c_srai, c_srli};
use crate::constant::{c_addi, c_addi4spn, c_addi16sp, c_addiw, c_li, c_lui};
use crate::jump::{branch_on_zero, c_j, c_jalr, c_jr};
use crate::memory::{access_double, access_word, c_ldsp, c_lwsp, c_sdsp, c_swsp};
use rv_code::Inst;

/// The halfword that encodes an instruction, or None if there is none. Of several rows, the first that fits is used.
pub fn encode_half(inst: &Inst) -> Option<u16>
    ensures found { FindsHalf inst.now result }
    ensures room { FitsHalf inst.now → IsSome result }
{
    match *inst {
        Inst::Lui { rd, imm } => c_lui(rd, imm),
        Inst::Jal { rd, imm } => c_j(rd, imm),
        Inst::Jalr { rd, rs1, imm } => c_jr(rd, rs1, imm).or(c_jalr(rd, rs1, imm)),
        Inst::Beq { rs1, rs2, imm } => branch_on_zero(6, rs1, rs2, imm),
        Inst::Bne { rs1, rs2, imm } => branch_on_zero(7, rs1, rs2, imm),
        Inst::Lw { rd, rs1, imm } => access_word(2, rd, rs1, imm).or(c_lwsp(rd, rs1, imm)),
        Inst::Ld { rd, rs1, imm } => access_double(3, rd, rs1, imm).or(c_ldsp(rd, rs1, imm)),
        Inst::Sw { rs1, rs2, imm } => access_word(6, rs2, rs1, imm).or(c_swsp(rs1, rs2, imm)),
        Inst::Sd { rs1, rs2, imm } => access_double(7, rs2, rs1, imm).or(c_sdsp(rs1, rs2, imm)),
        Inst::Addi { rd, rs1, imm } => c_addi(rd, rs1, imm)
            .or(c_li(rd, rs1, imm))
            .or(c_addi16sp(rd, rs1, imm))
            .or(c_addi4spn(rd, rs1, imm)),
        Inst::Andi { rd, rs1, imm } => c_andi(rd, rs1, imm),
        Inst::Slli { rd, rs1, imm } => c_slli(rd, rs1, imm),
        Inst::Srli { rd, rs1, imm } => c_srli(rd, rs1, imm),
        Inst::Srai { rd, rs1, imm } => c_srai(rd, rs1, imm),
        Inst::Add { rd, rs1, rs2 } => c_mv(rd, rs1, rs2).or(c_add(rd, rs1, rs2)),
        Inst::Sub { rd, rs1, rs2 } => arithmetic_pair(0, 0, rd, rs1, rs2),
        Inst::Xor { rd, rs1, rs2 } => arithmetic_pair(0, 1, rd, rs1, rs2),
        Inst::Or { rd, rs1, rs2 } => arithmetic_pair(0, 2, rd, rs1, rs2),
        Inst::And { rd, rs1, rs2 } => arithmetic_pair(0, 3, rd, rs1, rs2),
        Inst::Addiw { rd, rs1, imm } => c_addiw(rd, rs1, imm),
        Inst::Addw { rd, rs1, rs2 } => arithmetic_pair(1, 1, rd, rs1, rs2),
        Inst::Subw { rd, rs1, rs2 } => arithmetic_pair(1, 0, rd, rs1, rs2),
        // C.EBREAK.
        Inst::Ebreak => Some(0x9002),
        _ => None,
    }
}
