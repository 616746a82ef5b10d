// Decodes two-byte instructions, by quadrant. ISA manual, section 26.8.
ghost use Rattle.std.specs.Prelude.{◌≡◌};
ghost use Rattle.rv_code.specs.isa.Bits.{field};
ghost use Rattle.rv_code.specs.isa.HalfRows.{IsHalf};
ghost use Rattle.rv_decode.specs.internal.OnlyInst.{FindsOnly};

use crate::compressed::{addi4spn_imm, double_offset, lower_register, upper_register, word_offset};
use crate::quadrant1::quadrant1;
use crate::quadrant2::quadrant2;
use rv_code::field::bits;
use rv_code::{Inst, STACK_POINTER};

/// The instruction that a halfword encodes, or None if no row matches.
pub fn decode_half(half: u32) -> Option<Inst>
    ensures { FindsOnly (IsHalf half) result }
{
    match bits(half, 0, 2) {
        0 => quadrant0(half),
        1 => quadrant1(half),
        2 => quadrant2(half),
        _ => None,
    }
}

// Loads and stores relative to registers 8 to 15, and C.ADDI4SPN.
fn quadrant0(half: u32) -> Option<Inst>
    requires { field half 0 2 ≡ 0 }
    ensures { FindsOnly (IsHalf half) result }
{
    let upper = upper_register(half);
    let lower = lower_register(half);
    match bits(half, 13, 3) {
        0 => addi4spn(half),
        2 => Some(Inst::Lw {
            rd: lower,
            rs1: upper,
            imm: word_offset(half),
        }),
        3 => Some(Inst::Ld {
            rd: lower,
            rs1: upper,
            imm: double_offset(half),
        }),
        6 => Some(Inst::Sw {
            rs1: upper,
            rs2: lower,
            imm: word_offset(half),
        }),
        7 => Some(Inst::Sd {
            rs1: upper,
            rs2: lower,
            imm: double_offset(half),
        }),
        _ => None,
    }
}

// C.ADDI4SPN.
fn addi4spn(half: u32) -> Option<Inst>
    requires quadrant { field half 0 2 ≡ 0 }
    requires funct3 { field half 13 3 ≡ 0 }
    ensures { FindsOnly (IsHalf half) result }
{
    let imm = addi4spn_imm(half);
    let reserved = imm == 0;
    if reserved {
        return None;
    }
    Some(Inst::Addi {
        rd: lower_register(half),
        rs1: STACK_POINTER,
        imm: i64::from(imm),
    })
}
