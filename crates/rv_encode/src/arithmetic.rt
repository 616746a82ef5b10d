// Encodes two-byte shifts and computations on registers. ISA manual, sections 26.5.2 and 26.5.3.
ghost use Rattle.std.specs.Prelude.{◌<◌};
ghost use Rattle.rv_code.specs.isa.HalfRows.{C_SLLI, C_SRLI, C_SRAI, C_ANDI, C_MV, C_ADD};
ghost use Rattle.rv_code.specs.declared.inst.Inst.TheVariants.{Slli, Srli, Srai, Andi, Add};
ghost use Rattle.rv_encode.specs.internal.SomeNumber.{Finds, FindsRow};
ghost use Rattle.rv_encode.specs.internal.HalfForms.{IsPairOf};

use crate::layout::{arithmetic, registers, six_bits};
use crate::operand::{five_bits, multiple, three_bits, unsigned};
use rv_code::ZERO;

/// C.SLLI.
pub fn c_slli(rd: u8, rs1: u8, imm: i64) -> Option<u16>
    ensures { FindsRow C_SLLI (Slli rd rs1 imm) result }
{
    if rs1 != rd {
        return None;
    }
    let rd = five_bits(rd)?;
    let number = multiple(imm, 1, 64)?;
    Some(six_bits(2, 0, rd, number))
}

/// C.SRLI.
pub fn c_srli(rd: u8, rs1: u8, imm: i64) -> Option<u16>
    ensures { FindsRow C_SRLI (Srli rd rs1 imm) result }
{
    if rs1 != rd {
        return None;
    }
    let rd = three_bits(rd)?;
    let number = multiple(imm, 1, 64)?;
    Some(arithmetic(0, rd, number))
}

/// C.SRAI.
pub fn c_srai(rd: u8, rs1: u8, imm: i64) -> Option<u16>
    ensures { FindsRow C_SRAI (Srai rd rs1 imm) result }
{
    if rs1 != rd {
        return None;
    }
    let rd = three_bits(rd)?;
    let number = multiple(imm, 1, 64)?;
    Some(arithmetic(1, rd, number))
}

/// C.ANDI.
pub fn c_andi(rd: u8, rs1: u8, imm: i64) -> Option<u16>
    ensures { FindsRow C_ANDI (Andi rd rs1 imm) result }
{
    if rs1 != rd {
        return None;
    }
    let rd = three_bits(rd)?;
    let number = unsigned(imm, 1 << 5)?;
    Some(arithmetic(2, rd, number))
}

/// C.SUB, C.XOR, C.OR, C.AND, C.SUBW or C.ADDW, selected by bit 12 and bits 6:5.
pub fn arithmetic_pair(bit12: u32, funct2: u32, rd: u8, rs1: u8, rs2: u8) -> Option<u16>
    requires bit12 { bit12 < 2 }
    requires funct2 { funct2 < 4 }
    ensures { Finds (λ half. IsPairOf half bit12 funct2 rd rs1 rs2) result }
{
    if rs1 != rd {
        return None;
    }
    let rd = three_bits(rd)?;
    let rs2 = three_bits(rs2)?;
    let half = 1 + (rs2 << 2) + (funct2 << 5) + (rd << 7) + (3 << 10) + (bit12 << 12) + (4 << 13);
    Some(half as u16)
}

/// C.MV.
pub fn c_mv(rd: u8, rs1: u8, rs2: u8) -> Option<u16>
    ensures { FindsRow C_MV (Add rd rs1 rs2) result }
{
    if rs1 != ZERO || rs2 == ZERO {
        return None;
    }
    let rd = five_bits(rd)?;
    let rs2 = five_bits(rs2)?;
    Some(registers(0, rd, rs2))
}

/// C.ADD.
pub fn c_add(rd: u8, rs1: u8, rs2: u8) -> Option<u16>
    ensures { FindsRow C_ADD (Add rd rs1 rs2) result }
{
    if rs1 != rd || rs2 == ZERO {
        return None;
    }
    let rd = five_bits(rd)?;
    let rs2 = five_bits(rs2)?;
    Some(registers(1, rd, rs2))
}
