// Encodes two-byte computations with a constant. ISA manual, sections 26.5.1 and 26.5.2.
ghost use Rattle.rv_code.specs.isa.HalfRows.{C_ADDI, C_ADDIW, C_LI, C_ADDI16SP, C_ADDI4SPN, C_LUI};
ghost use Rattle.rv_code.specs.declared.inst.Inst.TheVariants.{Addi, Addiw, Lui};
ghost use Rattle.rv_encode.specs.internal.SomeNumber.{FindsRow};

use crate::layout::six_bits;
use crate::operand::{five_bits, multiple, three_bits, unsigned};
use rv_code::field::bits;
use rv_code::{STACK_POINTER, ZERO};

/// C.ADDI or C.NOP.
pub fn c_addi(rd: u8, rs1: u8, imm: i64) -> Option<u16>
    ensures { FindsRow C_ADDI (Addi rd rs1 imm) result }
{
    if rs1 != rd {
        return None;
    }
    let rd = five_bits(rd)?;
    let number = unsigned(imm, 1 << 5)?;
    Some(six_bits(1, 0, rd, number))
}

/// C.ADDIW.
pub fn c_addiw(rd: u8, rs1: u8, imm: i64) -> Option<u16>
    ensures { FindsRow C_ADDIW (Addiw rd rs1 imm) result }
{
    if rs1 != rd || rd == ZERO {
        return None;
    }
    let rd = five_bits(rd)?;
    let number = unsigned(imm, 1 << 5)?;
    Some(six_bits(1, 1, rd, number))
}

/// C.LI.
pub fn c_li(rd: u8, rs1: u8, imm: i64) -> Option<u16>
    ensures { FindsRow C_LI (Addi rd rs1 imm) result }
{
    if rs1 != ZERO {
        return None;
    }
    let rd = five_bits(rd)?;
    let number = unsigned(imm, 1 << 5)?;
    Some(six_bits(1, 2, rd, number))
}

/// C.LUI.
pub fn c_lui(rd: u8, imm: i64) -> Option<u16>
    ensures { FindsRow C_LUI (Lui rd imm) result }
{
    if rd == STACK_POINTER || imm == 0 {
        return None;
    }
    let rd = five_bits(rd)?;
    let number = unsigned(imm, 1 << 5)?;
    Some(six_bits(1, 3, rd, number))
}

/// C.ADDI16SP.
pub fn c_addi16sp(rd: u8, rs1: u8, imm: i64) -> Option<u16>
    ensures { FindsRow C_ADDI16SP (Addi rd rs1 imm) result }
{
    if rd != STACK_POINTER || rs1 != STACK_POINTER || imm == 0 {
        return None;
    }
    let number = unsigned(imm, 1 << 9)?;
    if number % 16 != 0 {
        return None;
    }
    let half = 1
        + (bits(number, 5, 1) << 2)
        + (bits(number, 7, 2) << 3)
        + (bits(number, 6, 1) << 5)
        + (bits(number, 4, 1) << 6)
        + (2 << 7)
        + (bits(number, 9, 1) << 12)
        + (3 << 13);
    Some(half as u16)
}

/// C.ADDI4SPN.
pub fn c_addi4spn(rd: u8, rs1: u8, imm: i64) -> Option<u16>
    ensures { FindsRow C_ADDI4SPN (Addi rd rs1 imm) result }
{
    if rs1 != STACK_POINTER || imm == 0 {
        return None;
    }
    let rd = three_bits(rd)?;
    let number = multiple(imm, 4, 1 << 10)?;
    let half = (rd << 2)
        + (bits(number, 3, 1) << 5)
        + (bits(number, 2, 1) << 6)
        + (bits(number, 6, 4) << 7)
        + (bits(number, 4, 2) << 11);
    Some(half as u16)
}
