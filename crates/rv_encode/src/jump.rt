// Encodes two-byte jumps and branches. ISA manual, section 26.4.
ghost use Rattle.std.specs.Prelude.{◌≡◌, ◌<◌, ◌≤◌, ◌^◌, IsSome};
ghost use Rattle.rv_code.specs.isa.Reach.{Reaches};
ghost use Rattle.rv_code.specs.isa.HalfRows.{C_J, C_JR, C_JALR};
ghost use Rattle.rv_code.specs.declared.inst.Inst.TheVariants.{Jal, Jalr};
ghost use Rattle.rv_encode.specs.internal.SomeNumber.{Finds, FindsRow};
ghost use Rattle.rv_encode.specs.internal.HalfForms.{ComparesWithZero};

use crate::layout::registers;
use crate::operand::{five_bits, three_bits, unsigned};
use rv_code::field::bits;
use rv_code::{RETURN_ADDRESS, ZERO};

/// C.J.
pub fn c_j(rd: u8, imm: i64) -> Option<u16>
    ensures found { FindsRow C_J (Jal rd imm) result }
    ensures room { rd ≡ 0 → Reaches (2 ^ 11) imm → IsSome result }
{
    if rd != ZERO {
        return None;
    }
    let number = unsigned(imm, 1 << 11)?;
    if number % 2 != 0 {
        return None;
    }
    let half = 1
        + (bits(number, 5, 1) << 2)
        + (bits(number, 1, 3) << 3)
        + (bits(number, 7, 1) << 6)
        + (bits(number, 6, 1) << 7)
        + (bits(number, 10, 1) << 8)
        + (bits(number, 8, 2) << 9)
        + (bits(number, 4, 1) << 11)
        + (bits(number, 11, 1) << 12)
        + (5 << 13);
    Some(half as u16)
}

/// C.BEQZ or C.BNEZ, selected by funct3.
pub fn branch_on_zero(funct3: u32, rs1: u8, rs2: u8, imm: i64) -> Option<u16>
    requires { funct3 < 8 }
    ensures found { Finds (λ half. ComparesWithZero half funct3 rs1 rs2 imm) result }
    ensures room { 8 ≤ rs1 → rs1 < 16 → rs2 ≡ 0 → Reaches (2 ^ 8) imm → IsSome result }
{
    if rs2 != ZERO {
        return None;
    }
    let rs1 = three_bits(rs1)?;
    let number = unsigned(imm, 1 << 8)?;
    if number % 2 != 0 {
        return None;
    }
    let half = 1
        + (bits(number, 5, 1) << 2)
        + (bits(number, 1, 2) << 3)
        + (bits(number, 6, 2) << 5)
        + (rs1 << 7)
        + (bits(number, 3, 2) << 10)
        + (bits(number, 8, 1) << 12)
        + (funct3 << 13);
    Some(half as u16)
}

/// C.JR.
pub fn c_jr(rd: u8, rs1: u8, imm: i64) -> Option<u16>
    ensures { FindsRow C_JR (Jalr rd rs1 imm) result }
{
    if rd != ZERO || rs1 == ZERO || imm != 0 {
        return None;
    }
    let rs1 = five_bits(rs1)?;
    Some(registers(0, rs1, 0))
}

/// C.JALR.
pub fn c_jalr(rd: u8, rs1: u8, imm: i64) -> Option<u16>
    ensures { FindsRow C_JALR (Jalr rd rs1 imm) result }
{
    if rd != RETURN_ADDRESS || rs1 == ZERO || imm != 0 {
        return None;
    }
    let rs1 = five_bits(rs1)?;
    Some(registers(1, rs1, 0))
}
