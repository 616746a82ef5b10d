// Encodes four-byte integer computations. ISA manual, sections 2.4, 4.2, 13.1 and 13.2.
ghost use Rattle.std.specs.Prelude.{◌≡◌, IsSome, IfSome};
ghost use Rattle.rv_code.specs.isa.Bits.{field};
ghost use Rattle.rv_encode.specs.FittingOperands.{FitsFull};
ghost use Rattle.rv_encode.specs.internal.Computations.{IsComputation, IsRegisterComputation};
ghost use Rattle.rv_encode.specs.internal.SomeNumber.{FindsFull};

use crate::format::{format_i, format_r, shift_32, shift_64};
use rv_code::Inst;
use rv_code::opcode::{OP, OP_32, OP_IMM, OP_IMM_32};

/// The word of a computation, with an immediate or on two registers.
pub fn encode_computation(inst: &Inst) -> Option<u32>
    requires { IsComputation inst.now }
    ensures found { FindsFull inst.now result }
    ensures not_compressed { IfSome result (λ word. field word 0 2 ≡ 3) }
    ensures room { FitsFull inst.now → IsSome result }
{
    match *inst {
        Inst::Addi { rd, rs1, imm } => format_i(OP_IMM, 0, rd, rs1, imm),
        Inst::Slti { rd, rs1, imm } => format_i(OP_IMM, 2, rd, rs1, imm),
        Inst::Sltiu { rd, rs1, imm } => format_i(OP_IMM, 3, rd, rs1, imm),
        Inst::Xori { rd, rs1, imm } => format_i(OP_IMM, 4, rd, rs1, imm),
        Inst::Ori { rd, rs1, imm } => format_i(OP_IMM, 6, rd, rs1, imm),
        Inst::Andi { rd, rs1, imm } => format_i(OP_IMM, 7, rd, rs1, imm),
        Inst::Slli { rd, rs1, imm } => shift_64(OP_IMM, 1, 0x00, rd, rs1, imm),
        Inst::Srli { rd, rs1, imm } => shift_64(OP_IMM, 5, 0x00, rd, rs1, imm),
        Inst::Srai { rd, rs1, imm } => shift_64(OP_IMM, 5, 0x10, rd, rs1, imm),
        Inst::Addiw { rd, rs1, imm } => format_i(OP_IMM_32, 0, rd, rs1, imm),
        Inst::Slliw { rd, rs1, imm } => shift_32(OP_IMM_32, 1, 0x00, rd, rs1, imm),
        Inst::Srliw { rd, rs1, imm } => shift_32(OP_IMM_32, 5, 0x00, rd, rs1, imm),
        Inst::Sraiw { rd, rs1, imm } => shift_32(OP_IMM_32, 5, 0x20, rd, rs1, imm),
        _ => encode_register_computation(inst),
    }
}

// The word of a computation on two registers.
fn encode_register_computation(inst: &Inst) -> Option<u32>
    requires { IsRegisterComputation inst.now }
    ensures found { FindsFull inst.now result }
    ensures not_compressed { IfSome result (λ word. field word 0 2 ≡ 3) }
{
    match *inst {
        Inst::Add { rd, rs1, rs2 } => format_r(OP, 0, 0x00, rd, rs1, rs2),
        Inst::Sub { rd, rs1, rs2 } => format_r(OP, 0, 0x20, rd, rs1, rs2),
        Inst::Sll { rd, rs1, rs2 } => format_r(OP, 1, 0x00, rd, rs1, rs2),
        Inst::Slt { rd, rs1, rs2 } => format_r(OP, 2, 0x00, rd, rs1, rs2),
        Inst::Sltu { rd, rs1, rs2 } => format_r(OP, 3, 0x00, rd, rs1, rs2),
        Inst::Xor { rd, rs1, rs2 } => format_r(OP, 4, 0x00, rd, rs1, rs2),
        Inst::Srl { rd, rs1, rs2 } => format_r(OP, 5, 0x00, rd, rs1, rs2),
        Inst::Sra { rd, rs1, rs2 } => format_r(OP, 5, 0x20, rd, rs1, rs2),
        Inst::Or { rd, rs1, rs2 } => format_r(OP, 6, 0x00, rd, rs1, rs2),
        Inst::And { rd, rs1, rs2 } => format_r(OP, 7, 0x00, rd, rs1, rs2),
        Inst::Mul { rd, rs1, rs2 } => format_r(OP, 0, 0x01, rd, rs1, rs2),
        Inst::Mulh { rd, rs1, rs2 } => format_r(OP, 1, 0x01, rd, rs1, rs2),
        Inst::Mulhsu { rd, rs1, rs2 } => format_r(OP, 2, 0x01, rd, rs1, rs2),
        Inst::Mulhu { rd, rs1, rs2 } => format_r(OP, 3, 0x01, rd, rs1, rs2),
        Inst::Div { rd, rs1, rs2 } => format_r(OP, 4, 0x01, rd, rs1, rs2),
        Inst::Divu { rd, rs1, rs2 } => format_r(OP, 5, 0x01, rd, rs1, rs2),
        Inst::Rem { rd, rs1, rs2 } => format_r(OP, 6, 0x01, rd, rs1, rs2),
        Inst::Remu { rd, rs1, rs2 } => format_r(OP, 7, 0x01, rd, rs1, rs2),
        Inst::Addw { rd, rs1, rs2 } => format_r(OP_32, 0, 0x00, rd, rs1, rs2),
        Inst::Subw { rd, rs1, rs2 } => format_r(OP_32, 0, 0x20, rd, rs1, rs2),
        Inst::Sllw { rd, rs1, rs2 } => format_r(OP_32, 1, 0x00, rd, rs1, rs2),
        Inst::Srlw { rd, rs1, rs2 } => format_r(OP_32, 5, 0x00, rd, rs1, rs2),
        Inst::Sraw { rd, rs1, rs2 } => format_r(OP_32, 5, 0x20, rd, rs1, rs2),
        Inst::Mulw { rd, rs1, rs2 } => format_r(OP_32, 0, 0x01, rd, rs1, rs2),
        Inst::Divw { rd, rs1, rs2 } => format_r(OP_32, 4, 0x01, rd, rs1, rs2),
        Inst::Divuw { rd, rs1, rs2 } => format_r(OP_32, 5, 0x01, rd, rs1, rs2),
        Inst::Remw { rd, rs1, rs2 } => format_r(OP_32, 6, 0x01, rd, rs1, rs2),
        Inst::Remuw { rd, rs1, rs2 } => format_r(OP_32, 7, 0x01, rd, rs1, rs2),
        _ => None,
    }
}
