// Integer computations. ISA manual, sections 2.4, 4.2, 13.1 and 13.2.
ghost use Rattle.std.specs.Prelude.{◌≡◌, ◌⊎◌};
ghost use Rattle.rv_code.specs.isa.Bits.{field};
ghost use Rattle.rv_code.specs.isa.FullRows.{IsFull};
ghost use Rattle.rv_decode.specs.internal.OnlyInst.{FindsOnly};

use crate::field::{funct3, funct6, funct7, imm_i, imm_u, rd, rs1, rs2};
use rv_code::Inst;
use rv_code::field::bits;
use rv_code::opcode::{AUIPC, LUI, OP, OP_32, OP_IMM, OP_IMM_32};

/// LUI or AUIPC.
pub fn upper_immediate(word: u32) -> Option<Inst>
    requires { (field word 0 7 ≡ LUI) ⊎ (field word 0 7 ≡ AUIPC) }
    ensures { FindsOnly (IsFull word) result }
{
    let rd = rd(word);
    let imm = imm_u(word);
    if bits(word, 0, 7) == LUI {
        Some(Inst::Lui { rd, imm })
    } else {
        Some(Inst::Auipc { rd, imm })
    }
}

/// An operation with an immediate.
pub fn op_imm(word: u32) -> Option<Inst>
    requires { field word 0 7 ≡ OP_IMM }
    ensures { FindsOnly (IsFull word) result }
{
    let rd = rd(word);
    let rs1 = rs1(word);
    let imm = imm_i(word);
    match funct3(word) {
        0 => Some(Inst::Addi { rd, rs1, imm }),
        1 | 5 => shift_imm(word),
        2 => Some(Inst::Slti { rd, rs1, imm }),
        3 => Some(Inst::Sltiu { rd, rs1, imm }),
        4 => Some(Inst::Xori { rd, rs1, imm }),
        6 => Some(Inst::Ori { rd, rs1, imm }),
        7 => Some(Inst::Andi { rd, rs1, imm }),
        _ => None,
    }
}

// A shift by an immediate.
fn shift_imm(word: u32) -> Option<Inst>
    requires opcode { field word 0 7 ≡ OP_IMM }
    requires funct3 { (field word 12 3 ≡ 1) ⊎ (field word 12 3 ≡ 5) }
    ensures { FindsOnly (IsFull word) result }
{
    let rd = rd(word);
    let rs1 = rs1(word);
    let imm = i64::from(bits(word, 20, 6));
    match (funct6(word), funct3(word)) {
        (0x00, 1) => Some(Inst::Slli { rd, rs1, imm }),
        (0x00, 5) => Some(Inst::Srli { rd, rs1, imm }),
        (0x10, 5) => Some(Inst::Srai { rd, rs1, imm }),
        _ => None,
    }
}

/// An operation with an immediate on 32 bits.
pub fn op_imm_32(word: u32) -> Option<Inst>
    requires { field word 0 7 ≡ OP_IMM_32 }
    ensures { FindsOnly (IsFull word) result }
{
    let rd = rd(word);
    let rs1 = rs1(word);
    if funct3(word) == 0 {
        return Some(Inst::Addiw {
            rd,
            rs1,
            imm: imm_i(word),
        });
    }
    let imm = i64::from(bits(word, 20, 5));
    match (funct7(word), funct3(word)) {
        (0x00, 1) => Some(Inst::Slliw { rd, rs1, imm }),
        (0x00, 5) => Some(Inst::Srliw { rd, rs1, imm }),
        (0x20, 5) => Some(Inst::Sraiw { rd, rs1, imm }),
        _ => None,
    }
}

/// An operation on two registers, on 64 or on 32 bits.
pub fn op(word: u32) -> Option<Inst>
    requires { (field word 0 7 ≡ OP) ⊎ (field word 0 7 ≡ OP_32) }
    ensures { FindsOnly (IsFull word) result }
{
    let rd = rd(word);
    let rs1 = rs1(word);
    let rs2 = rs2(word);
    match (bits(word, 0, 7), funct7(word), funct3(word)) {
        (OP, 0x00, 0) => Some(Inst::Add { rd, rs1, rs2 }),
        (OP, 0x00, 1) => Some(Inst::Sll { rd, rs1, rs2 }),
        (OP, 0x00, 2) => Some(Inst::Slt { rd, rs1, rs2 }),
        (OP, 0x00, 3) => Some(Inst::Sltu { rd, rs1, rs2 }),
        (OP, 0x00, 4) => Some(Inst::Xor { rd, rs1, rs2 }),
        (OP, 0x00, 5) => Some(Inst::Srl { rd, rs1, rs2 }),
        (OP, 0x00, 6) => Some(Inst::Or { rd, rs1, rs2 }),
        (OP, 0x00, 7) => Some(Inst::And { rd, rs1, rs2 }),
        (OP, 0x20, 0) => Some(Inst::Sub { rd, rs1, rs2 }),
        (OP, 0x20, 5) => Some(Inst::Sra { rd, rs1, rs2 }),
        (OP, 0x01, 0) => Some(Inst::Mul { rd, rs1, rs2 }),
        (OP, 0x01, 1) => Some(Inst::Mulh { rd, rs1, rs2 }),
        (OP, 0x01, 2) => Some(Inst::Mulhsu { rd, rs1, rs2 }),
        (OP, 0x01, 3) => Some(Inst::Mulhu { rd, rs1, rs2 }),
        (OP, 0x01, 4) => Some(Inst::Div { rd, rs1, rs2 }),
        (OP, 0x01, 5) => Some(Inst::Divu { rd, rs1, rs2 }),
        (OP, 0x01, 6) => Some(Inst::Rem { rd, rs1, rs2 }),
        (OP, 0x01, 7) => Some(Inst::Remu { rd, rs1, rs2 }),
        (OP_32, 0x00, 0) => Some(Inst::Addw { rd, rs1, rs2 }),
        (OP_32, 0x00, 1) => Some(Inst::Sllw { rd, rs1, rs2 }),
        (OP_32, 0x00, 5) => Some(Inst::Srlw { rd, rs1, rs2 }),
        (OP_32, 0x20, 0) => Some(Inst::Subw { rd, rs1, rs2 }),
        (OP_32, 0x20, 5) => Some(Inst::Sraw { rd, rs1, rs2 }),
        (OP_32, 0x01, 0) => Some(Inst::Mulw { rd, rs1, rs2 }),
        (OP_32, 0x01, 4) => Some(Inst::Divw { rd, rs1, rs2 }),
        (OP_32, 0x01, 5) => Some(Inst::Divuw { rd, rs1, rs2 }),
        (OP_32, 0x01, 6) => Some(Inst::Remw { rd, rs1, rs2 }),
        (OP_32, 0x01, 7) => Some(Inst::Remuw { rd, rs1, rs2 }),
        _ => None,
    }
}
