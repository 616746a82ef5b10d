// Encodes four-byte words by format. ISA manual, sections 2.2, 2.3 and 4.2.1.
//
// The result is None if no word has these fields: a register number is above 31, or the immediate is out of range or
// not a multiple of its unit.
ghost use Rattle.std.specs.Prelude.{◌<◌, ◌^◌, IsSome};
ghost use Rattle.rv_code.specs.isa.Reach.{IsWithin, Reaches};
ghost use Rattle.rv_code.specs.isa.FullRows.{FormatR, FormatI, FormatS, FormatB, FormatU, FormatJ, Shift64, Shift32};
ghost use Rattle.rv_encode.specs.internal.SomeNumber.{Finds};

use crate::operand::{five_bits, multiple, unsigned};
use rv_code::field::bits;

/// A word of format R.
pub fn format_r(opcode: u32, funct3: u32, funct7: u32, rd: u8, rs1: u8, rs2: u8) -> Option<u32>
    requires opcode { opcode < 2 ^ 7 }
    requires funct3 { funct3 < 2 ^ 3 }
    requires funct7 { funct7 < 2 ^ 7 }
    ensures { Finds (λ word. FormatR word opcode funct3 funct7 rd rs1 rs2) result }
{
    let rd = five_bits(rd)?;
    let rs1 = five_bits(rs1)?;
    let rs2 = five_bits(rs2)?;
    Some(opcode + (rd << 7) + (funct3 << 12) + (rs1 << 15) + (rs2 << 20) + (funct7 << 25))
}

/// A word of format I.
pub fn format_i(opcode: u32, funct3: u32, rd: u8, rs1: u8, imm: i64) -> Option<u32>
    requires opcode { opcode < 2 ^ 7 }
    requires funct3 { funct3 < 2 ^ 3 }
    ensures found { Finds (λ word. FormatI word opcode funct3 rd rs1 imm) result }
    ensures room { rd < 32 → rs1 < 32 → IsWithin (2 ^ 11) imm → IsSome result }
{
    let rd = five_bits(rd)?;
    let rs1 = five_bits(rs1)?;
    let number = unsigned(imm, 1 << 11)?;
    Some(opcode + (rd << 7) + (funct3 << 12) + (rs1 << 15) + (number << 20))
}

/// A shift with a six-bit amount.
pub fn shift_64(opcode: u32, funct3: u32, funct6: u32, rd: u8, rs1: u8, amount: i64) -> Option<u32>
    requires opcode { opcode < 2 ^ 7 }
    requires funct3 { funct3 < 2 ^ 3 }
    requires funct6 { funct6 < 2 ^ 6 }
    ensures { Finds (λ word. Shift64 word opcode funct3 funct6 rd rs1 amount) result }
{
    let rd = five_bits(rd)?;
    let rs1 = five_bits(rs1)?;
    let amount = multiple(amount, 1, 64)?;
    Some(opcode + (rd << 7) + (funct3 << 12) + (rs1 << 15) + (amount << 20) + (funct6 << 26))
}

/// A shift with a five-bit amount.
pub fn shift_32(opcode: u32, funct3: u32, funct7: u32, rd: u8, rs1: u8, amount: i64) -> Option<u32>
    requires opcode { opcode < 2 ^ 7 }
    requires funct3 { funct3 < 2 ^ 3 }
    requires funct7 { funct7 < 2 ^ 7 }
    ensures { Finds (λ word. Shift32 word opcode funct3 funct7 rd rs1 amount) result }
{
    let rd = five_bits(rd)?;
    let rs1 = five_bits(rs1)?;
    let amount = multiple(amount, 1, 32)?;
    Some(opcode + (rd << 7) + (funct3 << 12) + (rs1 << 15) + (amount << 20) + (funct7 << 25))
}

/// A word of format S.
pub fn format_s(opcode: u32, funct3: u32, rs1: u8, rs2: u8, imm: i64) -> Option<u32>
    requires opcode { opcode < 2 ^ 7 }
    requires funct3 { funct3 < 2 ^ 3 }
    ensures found { Finds (λ word. FormatS word opcode funct3 rs1 rs2 imm) result }
    ensures room { rs1 < 32 → rs2 < 32 → IsWithin (2 ^ 11) imm → IsSome result }
{
    let rs1 = five_bits(rs1)?;
    let rs2 = five_bits(rs2)?;
    let number = unsigned(imm, 1 << 11)?;
    Some(
        opcode
            + (bits(number, 0, 5) << 7)
            + (funct3 << 12)
            + (rs1 << 15)
            + (rs2 << 20)
            + (bits(number, 5, 7) << 25),
    )
}

/// A word of format B; `imm` is a distance in bytes.
pub fn format_b(opcode: u32, funct3: u32, rs1: u8, rs2: u8, imm: i64) -> Option<u32>
    requires opcode { opcode < 2 ^ 7 }
    requires funct3 { funct3 < 2 ^ 3 }
    ensures found { Finds (λ word. FormatB word opcode funct3 rs1 rs2 imm) result }
    ensures room { rs1 < 32 → rs2 < 32 → Reaches (2 ^ 12) imm → IsSome result }
{
    let rs1 = five_bits(rs1)?;
    let rs2 = five_bits(rs2)?;
    let offset = unsigned(imm, 1 << 12)?;
    if offset % 2 != 0 {
        return None;
    }
    Some(
        opcode
            + (bits(offset, 11, 1) << 7)
            + (bits(offset, 1, 4) << 8)
            + (funct3 << 12)
            + (rs1 << 15)
            + (rs2 << 20)
            + (bits(offset, 5, 6) << 25)
            + (bits(offset, 12, 1) << 31),
    )
}

/// A word of format U; `imm` is bits 31:12 as a signed number.
pub fn format_u(opcode: u32, rd: u8, imm: i64) -> Option<u32>
    requires { opcode < 2 ^ 7 }
    ensures found { Finds (λ word. FormatU word opcode rd imm) result }
    ensures room { rd < 32 → IsWithin (2 ^ 19) imm → IsSome result }
{
    let rd = five_bits(rd)?;
    let number = unsigned(imm, 1 << 19)?;
    Some(opcode + (rd << 7) + (number << 12))
}

/// A word of format J; `imm` is a distance in bytes.
pub fn format_j(opcode: u32, rd: u8, imm: i64) -> Option<u32>
    requires { opcode < 2 ^ 7 }
    ensures found { Finds (λ word. FormatJ word opcode rd imm) result }
    ensures room { rd < 32 → Reaches (2 ^ 20) imm → IsSome result }
{
    let rd = five_bits(rd)?;
    let number = unsigned(imm, 1 << 20)?;
    if number % 2 != 0 {
        return None;
    }
    Some(
        opcode
            + (rd << 7)
            + (bits(number, 12, 8) << 12)
            + (bits(number, 11, 1) << 20)
            + (bits(number, 1, 10) << 21)
            + (bits(number, 20, 1) << 31),
    )
}
