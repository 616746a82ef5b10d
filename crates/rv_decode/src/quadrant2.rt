// Decodes quadrant 2 of the two-byte instructions: shifts, the stack, jumps to registers and moves. ISA manual, table
// "RVC opcode map".
ghost use Rattle.std.specs.Prelude.{◌≡◌, ◌⊎◌};
ghost use Rattle.rv_code.specs.isa.Bits.{field};
ghost use Rattle.rv_code.specs.isa.HalfRows.{IsHalf};
ghost use Rattle.rv_decode.specs.internal.OnlyInst.{FindsOnly};

use crate::compressed::{
    load_double_sp, load_word_sp, rs2, six_bits, store_double_sp, store_word_sp,
};
use crate::field::rd;
use rv_code::field::bits;
use rv_code::{Inst, RETURN_ADDRESS, STACK_POINTER, ZERO};

/// The instruction that a halfword of quadrant 2 encodes, or None if no row matches.
pub fn quadrant2(half: u32) -> Option<Inst>
    requires { field half 0 2 ≡ 2 }
    ensures { FindsOnly (IsHalf half) result }
{
    let rd = rd(half);
    let rs2 = rs2(half);
    match bits(half, 13, 3) {
        0 => Some(Inst::Slli {
            rd,
            rs1: rd,
            imm: i64::from(six_bits(half)),
        }),
        2 | 3 => load_from_stack(half),
        4 => register_pair(half),
        6 => Some(Inst::Sw {
            rs1: STACK_POINTER,
            rs2,
            imm: store_word_sp(half),
        }),
        7 => Some(Inst::Sd {
            rs1: STACK_POINTER,
            rs2,
            imm: store_double_sp(half),
        }),
        _ => None,
    }
}

// C.LWSP or C.LDSP. They are reserved for x0.
fn load_from_stack(half: u32) -> Option<Inst>
    requires quadrant { field half 0 2 ≡ 2 }
    requires funct3 { (field half 13 3 ≡ 2) ⊎ (field half 13 3 ≡ 3) }
    ensures { FindsOnly (IsHalf half) result }
{
    let rd = rd(half);
    if rd == ZERO {
        return None;
    }
    if bits(half, 13, 3) == 2 {
        Some(Inst::Lw {
            rd,
            rs1: STACK_POINTER,
            imm: load_word_sp(half),
        })
    } else {
        Some(Inst::Ld {
            rd,
            rs1: STACK_POINTER,
            imm: load_double_sp(half),
        })
    }
}

// C.MV or C.ADD or, if there is no second register, a jump or C.EBREAK.
fn register_pair(half: u32) -> Option<Inst>
    requires quadrant { field half 0 2 ≡ 2 }
    requires funct3 { field half 13 3 ≡ 4 }
    ensures { FindsOnly (IsHalf half) result }
{
    let rd = rd(half);
    let rs2 = rs2(half);
    if rs2 == ZERO {
        return jump_to_register(half);
    }
    if bits(half, 12, 1) == 0 {
        Some(Inst::Add { rd, rs1: ZERO, rs2 })
    } else {
        Some(Inst::Add { rd, rs1: rd, rs2 })
    }
}

// C.JR, C.JALR or C.EBREAK.
fn jump_to_register(half: u32) -> Option<Inst>
    requires quadrant { field half 0 2 ≡ 2 }
    requires funct3 { field half 13 3 ≡ 4 }
    requires rs2 { field half 2 5 ≡ 0 }
    ensures { FindsOnly (IsHalf half) result }
{
    let rs1 = rd(half);
    match (bits(half, 12, 1), rs1) {
        (0, ZERO) => None,
        (0, _) => Some(Inst::Jalr {
            rd: ZERO,
            rs1,
            imm: 0,
        }),
        (_, ZERO) => Some(Inst::Ebreak),
        _ => Some(Inst::Jalr {
            rd: RETURN_ADDRESS,
            rs1,
            imm: 0,
        }),
    }
}
