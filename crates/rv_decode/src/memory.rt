// Loads and stores. ISA manual, sections 2.6 and 4.3.
ghost use Rattle.std.specs.Prelude.{◌≡◌};
ghost use Rattle.rv_code.specs.isa.Bits.{field};
ghost use Rattle.rv_code.specs.isa.FullRows.{IsFull};
ghost use Rattle.rv_decode.specs.internal.OnlyInst.{FindsOnly};

use crate::field::{funct3, imm_i, imm_s, rd, rs1, rs2};
use rv_code::Inst;
use rv_code::opcode::{LOAD, STORE};

/// A load.
pub fn load(word: u32) -> Option<Inst>
    requires { field word 0 7 ≡ LOAD }
    ensures { FindsOnly (IsFull word) result }
{
    let rd = rd(word);
    let rs1 = rs1(word);
    let imm = imm_i(word);
    match funct3(word) {
        0 => Some(Inst::Lb { rd, rs1, imm }),
        1 => Some(Inst::Lh { rd, rs1, imm }),
        2 => Some(Inst::Lw { rd, rs1, imm }),
        3 => Some(Inst::Ld { rd, rs1, imm }),
        4 => Some(Inst::Lbu { rd, rs1, imm }),
        5 => Some(Inst::Lhu { rd, rs1, imm }),
        6 => Some(Inst::Lwu { rd, rs1, imm }),
        _ => None,
    }
}

/// A store.
pub fn store(word: u32) -> Option<Inst>
    requires { field word 0 7 ≡ STORE }
    ensures { FindsOnly (IsFull word) result }
{
    let rs1 = rs1(word);
    let rs2 = rs2(word);
    let imm = imm_s(word);
    match funct3(word) {
        0 => Some(Inst::Sb { rs1, rs2, imm }),
        1 => Some(Inst::Sh { rs1, rs2, imm }),
        2 => Some(Inst::Sw { rs1, rs2, imm }),
        3 => Some(Inst::Sd { rs1, rs2, imm }),
        _ => None,
    }
}
