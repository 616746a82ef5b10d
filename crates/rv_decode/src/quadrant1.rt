// Decodes quadrant 1 of the two-byte instructions: constants, arithmetic, jumps and branches. ISA manual, table "RVC
// opcode map".
ghost use Rattle.std.specs.Prelude.{◌≡◌};
ghost use Rattle.rv_code.specs.isa.Bits.{field};
ghost use Rattle.rv_code.specs.isa.HalfRows.{IsHalf};
ghost use Rattle.rv_decode.specs.internal.OnlyInst.{FindsOnly};

use crate::compressed::{
    addi16sp_imm, branch_offset, jump_offset, lower_register, signed_six, six_bits, upper_register,
};
use crate::field::rd;
use rv_code::field::{bits, sign};
use rv_code::{Inst, STACK_POINTER, ZERO};

/// The instruction that a halfword of quadrant 1 encodes, or None if no row matches.
pub fn quadrant1(half: u32) -> Option<Inst>
    requires { field half 0 2 ≡ 1 }
    ensures { FindsOnly (IsHalf half) result }
{
    let rd = rd(half);
    let imm = signed_six(half);
    match bits(half, 13, 3) {
        0 => Some(Inst::Addi { rd, rs1: rd, imm }),
        1 => addiw(half),
        2 => Some(Inst::Addi { rd, rs1: ZERO, imm }),
        3 => upper_immediate(half),
        4 => arithmetic(half),
        5 => Some(Inst::Jal {
            rd: ZERO,
            imm: jump_offset(half),
        }),
        6 => Some(Inst::Beq {
            rs1: upper_register(half),
            rs2: ZERO,
            imm: branch_offset(half),
        }),
        7 => Some(Inst::Bne {
            rs1: upper_register(half),
            rs2: ZERO,
            imm: branch_offset(half),
        }),
        _ => None,
    }
}

// C.ADDIW. It is reserved for x0.
fn addiw(half: u32) -> Option<Inst>
    requires quadrant { field half 0 2 ≡ 1 }
    requires funct3 { field half 13 3 ≡ 1 }
    ensures { FindsOnly (IsHalf half) result }
{
    let rd = rd(half);
    if rd == ZERO {
        return None;
    }
    Some(Inst::Addiw {
        rd,
        rs1: rd,
        imm: signed_six(half),
    })
}

// C.ADDI16SP if the register is the stack pointer, and C.LUI otherwise.
fn upper_immediate(half: u32) -> Option<Inst>
    requires quadrant { field half 0 2 ≡ 1 }
    requires funct3 { field half 13 3 ≡ 3 }
    ensures { FindsOnly (IsHalf half) result }
{
    let rd = rd(half);
    if rd == STACK_POINTER {
        return addi16sp(half);
    }
    let imm = six_bits(half);
    if imm == 0 {
        return None;
    }
    Some(Inst::Lui {
        rd,
        imm: sign(imm, 5),
    })
}

// C.ADDI16SP.
fn addi16sp(half: u32) -> Option<Inst>
    requires quadrant { field half 0 2 ≡ 1 }
    requires funct3 { field half 13 3 ≡ 3 }
    requires rd { field half 7 5 ≡ 2 }
    ensures { FindsOnly (IsHalf half) result }
{
    let imm = addi16sp_imm(half);
    if imm == 0 {
        return None;
    }
    Some(Inst::Addi {
        rd: STACK_POINTER,
        rs1: STACK_POINTER,
        imm: sign(imm, 9),
    })
}

// Arithmetic on a register from 8 to 15.
fn arithmetic(half: u32) -> Option<Inst>
    requires quadrant { field half 0 2 ≡ 1 }
    requires funct3 { field half 13 3 ≡ 4 }
    ensures { FindsOnly (IsHalf half) result }
{
    let rd = upper_register(half);
    match bits(half, 10, 2) {
        0 => Some(Inst::Srli {
            rd,
            rs1: rd,
            imm: i64::from(six_bits(half)),
        }),
        1 => Some(Inst::Srai {
            rd,
            rs1: rd,
            imm: i64::from(six_bits(half)),
        }),
        2 => Some(Inst::Andi {
            rd,
            rs1: rd,
            imm: signed_six(half),
        }),
        _ => arithmetic_pair(half),
    }
}

// Arithmetic on two registers from 8 to 15.
fn arithmetic_pair(half: u32) -> Option<Inst>
    requires quadrant { field half 0 2 ≡ 1 }
    requires funct3 { field half 13 3 ≡ 4 }
    requires kind { field half 10 2 ≡ 3 }
    ensures { FindsOnly (IsHalf half) result }
{
    let rd = upper_register(half);
    let rs2 = lower_register(half);
    match (bits(half, 12, 1), bits(half, 5, 2)) {
        (0, 0) => Some(Inst::Sub { rd, rs1: rd, rs2 }),
        (0, 1) => Some(Inst::Xor { rd, rs1: rd, rs2 }),
        (0, 2) => Some(Inst::Or { rd, rs1: rd, rs2 }),
        (0, 3) => Some(Inst::And { rd, rs1: rd, rs2 }),
        (1, 0) => Some(Inst::Subw { rd, rs1: rd, rs2 }),
        (1, 1) => Some(Inst::Addw { rd, rs1: rd, rs2 }),
        _ => None,
    }
}
