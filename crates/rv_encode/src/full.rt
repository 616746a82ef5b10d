// Encodes four-byte instructions.
ghost use Rattle.std.specs.Prelude.{◌≡◌, IsSome, IfSome};
ghost use Rattle.rv_encode.specs.FittingOperands.{FitsFull};
ghost use Rattle.rv_code.specs.isa.Bits.{field};
ghost use Rattle.rv_encode.specs.internal.SomeNumber.{FindsFull};

use crate::format::{format_b, format_i, format_j, format_s, format_u};
use crate::integer::encode_computation;
use rv_code::Inst;
use rv_code::opcode::{AUIPC, BRANCH, JAL, JALR, LOAD, LUI, MISC_MEM, STORE};

/// The word that encodes an instruction, or None if there is none.
pub fn encode_full(inst: &Inst) -> Option<u32>
    ensures found { FindsFull inst.now result }
    ensures not_compressed { IfSome result (λ word. field word 0 2 ≡ 3) }
    ensures room { FitsFull inst.now → IsSome result }
{
    match *inst {
        Inst::Lui { rd, imm } => format_u(LUI, rd, imm),
        Inst::Auipc { rd, imm } => format_u(AUIPC, rd, imm),
        Inst::Jal { rd, imm } => format_j(JAL, rd, imm),
        Inst::Jalr { rd, rs1, imm } => format_i(JALR, 0, rd, rs1, imm),
        Inst::Beq { rs1, rs2, imm } => format_b(BRANCH, 0, rs1, rs2, imm),
        Inst::Bne { rs1, rs2, imm } => format_b(BRANCH, 1, rs1, rs2, imm),
        Inst::Blt { rs1, rs2, imm } => format_b(BRANCH, 4, rs1, rs2, imm),
        Inst::Bge { rs1, rs2, imm } => format_b(BRANCH, 5, rs1, rs2, imm),
        Inst::Bltu { rs1, rs2, imm } => format_b(BRANCH, 6, rs1, rs2, imm),
        Inst::Bgeu { rs1, rs2, imm } => format_b(BRANCH, 7, rs1, rs2, imm),
        Inst::Lb { rd, rs1, imm } => format_i(LOAD, 0, rd, rs1, imm),
        Inst::Lh { rd, rs1, imm } => format_i(LOAD, 1, rd, rs1, imm),
        Inst::Lw { rd, rs1, imm } => format_i(LOAD, 2, rd, rs1, imm),
        Inst::Ld { rd, rs1, imm } => format_i(LOAD, 3, rd, rs1, imm),
        Inst::Lbu { rd, rs1, imm } => format_i(LOAD, 4, rd, rs1, imm),
        Inst::Lhu { rd, rs1, imm } => format_i(LOAD, 5, rd, rs1, imm),
        Inst::Lwu { rd, rs1, imm } => format_i(LOAD, 6, rd, rs1, imm),
        Inst::Sb { rs1, rs2, imm } => format_s(STORE, 0, rs1, rs2, imm),
        Inst::Sh { rs1, rs2, imm } => format_s(STORE, 1, rs1, rs2, imm),
        Inst::Sw { rs1, rs2, imm } => format_s(STORE, 2, rs1, rs2, imm),
        Inst::Sd { rs1, rs2, imm } => format_s(STORE, 3, rs1, rs2, imm),
        Inst::Fence { rd, rs1, imm } => format_i(MISC_MEM, 0, rd, rs1, imm),
        Inst::Ecall => Some(0x0000_0073),
        Inst::Ebreak => Some(0x0010_0073),
        _ => encode_computation(inst),
    }
}
