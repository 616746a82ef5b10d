// Decodes four-byte instructions, by opcode. ISA manual, sections 2.5, 2.7 and 2.8.
ghost use Rattle.std.specs.Prelude.{◌≡◌};
ghost use Rattle.rv_code.specs.isa.Bits.{field};
ghost use Rattle.rv_code.specs.isa.FullRows.{IsFull};
ghost use Rattle.rv_decode.specs.internal.OnlyInst.{FindsOnly};

use crate::field::{funct3, imm_b, imm_i, imm_j, rd, rs1, rs2};
use crate::integer::{op, op_imm, op_imm_32, upper_immediate};
use crate::memory::{load, store};
use rv_code::Inst;
use rv_code::field::bits;
use rv_code::opcode::{
    AUIPC, BRANCH, JAL, JALR, LOAD, LUI, MISC_MEM, OP, OP_32, OP_IMM, OP_IMM_32, STORE, SYSTEM,
};

/// The instruction that a word encodes, or None if no row matches.
pub fn decode_full(word: u32) -> Option<Inst>
    ensures { FindsOnly (IsFull word) result }
{
    match bits(word, 0, 7) {
        LUI | AUIPC => upper_immediate(word),
        JAL => jal(word),
        JALR => jalr(word),
        BRANCH => branch(word),
        LOAD => load(word),
        STORE => store(word),
        OP_IMM => op_imm(word),
        OP_IMM_32 => op_imm_32(word),
        OP | OP_32 => op(word),
        MISC_MEM => fence(word),
        SYSTEM => system(word),
        _ => None,
    }
}

// JAL.
fn jal(word: u32) -> Option<Inst>
    requires { field word 0 7 ≡ JAL }
    ensures { FindsOnly (IsFull word) result }
{
    Some(Inst::Jal {
        rd: rd(word),
        imm: imm_j(word),
    })
}

// JALR.
fn jalr(word: u32) -> Option<Inst>
    requires { field word 0 7 ≡ JALR }
    ensures { FindsOnly (IsFull word) result }
{
    if funct3(word) != 0 {
        return None;
    }
    let offset = imm_i(word);
    Some(Inst::Jalr {
        rd: rd(word),
        rs1: rs1(word),
        imm: offset,
    })
}

// A conditional branch.
fn branch(word: u32) -> Option<Inst>
    requires { field word 0 7 ≡ BRANCH }
    ensures { FindsOnly (IsFull word) result }
{
    let rs1 = rs1(word);
    let rs2 = rs2(word);
    let imm = imm_b(word);
    match funct3(word) {
        0 => Some(Inst::Beq { rs1, rs2, imm }),
        1 => Some(Inst::Bne { rs1, rs2, imm }),
        4 => Some(Inst::Blt { rs1, rs2, imm }),
        5 => Some(Inst::Bge { rs1, rs2, imm }),
        6 => Some(Inst::Bltu { rs1, rs2, imm }),
        7 => Some(Inst::Bgeu { rs1, rs2, imm }),
        _ => None,
    }
}

// FENCE with any ordering.
fn fence(word: u32) -> Option<Inst>
    requires { field word 0 7 ≡ MISC_MEM }
    ensures { FindsOnly (IsFull word) result }
{
    if funct3(word) != 0 {
        return None;
    }
    Some(Inst::Fence {
        rd: rd(word),
        rs1: rs1(word),
        imm: imm_i(word),
    })
}

// ECALL or EBREAK.
fn system(word: u32) -> Option<Inst>
    requires { field word 0 7 ≡ SYSTEM }
    ensures { FindsOnly (IsFull word) result }
{
    match word {
        0x0000_0073 => Some(Inst::Ecall),
        0x0010_0073 => Some(Inst::Ebreak),
        _ => None,
    }
}
