// Encodes two-byte loads and stores. ISA manual, section 26.3.
ghost use Rattle.std.specs.Prelude.{◌≡◌, ◌≢◌, ◌⊎◌, ◌<◌, ◌≤◌, IfSome, IfNone};
ghost use Rattle.rv_code.specs.isa.HalfRows.{C_LWSP, C_LDSP, C_SWSP, C_SDSP};
ghost use Rattle.rv_code.specs.declared.inst.Inst.TheVariants.{Lw, Ld, Sw, Sd};
ghost use Rattle.rv_encode.specs.internal.SomeNumber.{Finds, FindsRow};
ghost use Rattle.rv_encode.specs.internal.HalfForms.{AccessesWord, AccessesDouble};

use crate::operand::{five_bits, multiple, three_bits};
use rv_code::field::bits;
use rv_code::{STACK_POINTER, ZERO};

/// C.LW or C.SW, selected by funct3.
pub fn access_word(funct3: u32, register: u8, base: u8, imm: i64) -> Option<u16>
    requires { funct3 < 8 }
    ensures { Finds (λ half. AccessesWord half funct3 register base imm) result }
{
    let register = three_bits(register)?;
    let base = three_bits(base)?;
    let offset = multiple(imm, 4, 128)?;
    let half = (register << 2)
        + (bits(offset, 6, 1) << 5)
        + (bits(offset, 2, 1) << 6)
        + (base << 7)
        + (bits(offset, 3, 3) << 10)
        + (funct3 << 13);
    Some(half as u16)
}

/// C.LD or C.SD, selected by funct3.
pub fn access_double(funct3: u32, register: u8, base: u8, imm: i64) -> Option<u16>
    requires { funct3 < 8 }
    ensures { Finds (λ half. AccessesDouble half funct3 register base imm) result }
{
    let register = three_bits(register)?;
    let base = three_bits(base)?;
    let offset = multiple(imm, 8, 256)?;
    let half = (register << 2)
        + (bits(offset, 6, 2) << 5)
        + (base << 7)
        + (bits(offset, 3, 3) << 10)
        + (funct3 << 13);
    Some(half as u16)
}

// The destination of a load relative to the stack pointer, in a five-bit field. None for x0, which these loads don't
// take, and if the base isn't the stack pointer.
fn loaded_from_stack(rd: u8, rs1: u8) -> Option<u32>
    ensures found { IfSome result (λ n. (n < 32) × (n ≡ rd)) }
    ensures base { IfSome result (λ n. (rs1 ≡ 2) × (rd ≢ 0)) }
    ensures none { IfNone result ((rs1 ≢ 2) ⊎ ((rd ≡ 0) ⊎ (32 ≤ rd))) }
{
    if rs1 != STACK_POINTER || rd == ZERO {
        return None;
    }
    five_bits(rd)
}

/// C.LWSP.
pub fn c_lwsp(rd: u8, rs1: u8, imm: i64) -> Option<u16>
    ensures { FindsRow C_LWSP (Lw rd rs1 imm) result }
{
    let rd = loaded_from_stack(rd, rs1)?;
    let number = multiple(imm, 4, 256)?;
    let half = 2
        + (bits(number, 6, 2) << 2)
        + (bits(number, 2, 3) << 4)
        + (rd << 7)
        + (bits(number, 5, 1) << 12)
        + (2 << 13);
    Some(half as u16)
}

/// C.LDSP.
pub fn c_ldsp(rd: u8, rs1: u8, imm: i64) -> Option<u16>
    ensures { FindsRow C_LDSP (Ld rd rs1 imm) result }
{
    let rd = loaded_from_stack(rd, rs1)?;
    let number = multiple(imm, 8, 512)?;
    let half = 2
        + (bits(number, 6, 3) << 2)
        + (bits(number, 3, 2) << 5)
        + (rd << 7)
        + (bits(number, 5, 1) << 12)
        + (3 << 13);
    Some(half as u16)
}

/// C.SWSP.
pub fn c_swsp(rs1: u8, rs2: u8, imm: i64) -> Option<u16>
    ensures { FindsRow C_SWSP (Sw rs1 rs2 imm) result }
{
    if rs1 != STACK_POINTER {
        return None;
    }
    let rs2 = five_bits(rs2)?;
    let number = multiple(imm, 4, 256)?;
    let half = 2 + (rs2 << 2) + (bits(number, 6, 2) << 7) + (bits(number, 2, 4) << 9) + (6 << 13);
    Some(half as u16)
}

/// C.SDSP.
pub fn c_sdsp(rs1: u8, rs2: u8, imm: i64) -> Option<u16>
    ensures { FindsRow C_SDSP (Sd rs1 rs2 imm) result }
{
    if rs1 != STACK_POINTER {
        return None;
    }
    let rs2 = five_bits(rs2)?;
    let number = multiple(imm, 8, 512)?;
    let half = 2 + (rs2 << 2) + (bits(number, 6, 3) << 7) + (bits(number, 3, 3) << 10) + (7 << 13);
    Some(half as u16)
}
