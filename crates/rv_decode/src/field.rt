// Fields of instruction words, and sign-extended immediates.
ghost use Rattle.std.specs.Prelude.{◌≡◌};
ghost use Rattle.rv_code.specs.isa.Bits.{field, imm_i, imm_s, imm_b, imm_u, imm_j};

use rv_code::field::{bits, sign};

/// The destination register.
pub fn rd(word: u32) -> u8
    ensures { result ≡ field word 7 5 }
{
    bits(word, 7, 5) as u8
}

/// The first source register.
pub fn rs1(word: u32) -> u8
    ensures { result ≡ field word 15 5 }
{
    bits(word, 15, 5) as u8
}

/// The second source register.
pub fn rs2(word: u32) -> u8
    ensures { result ≡ field word 20 5 }
{
    bits(word, 20, 5) as u8
}

/// Bits 14:12, which select the operation of an opcode.
pub fn funct3(word: u32) -> u32
    ensures { result ≡ field word 12 3 }
{
    bits(word, 12, 3)
}

/// Bits 31:25, which select among operations with the same funct3 in format R and among 32-bit shifts.
pub fn funct7(word: u32) -> u32
    ensures { result ≡ field word 25 7 }
{
    bits(word, 25, 7)
}

/// Bits 31:26, which select among 64-bit shifts by an immediate.
pub fn funct6(word: u32) -> u32
    ensures { result ≡ field word 26 6 }
{
    bits(word, 26, 6)
}

/// The immediate of format I.
pub fn imm_i(word: u32) -> i64
    ensures { result ≡ imm_i word }
{
    sign(bits(word, 20, 12), 11)
}

/// The immediate of format S.
pub fn imm_s(word: u32) -> i64
    ensures { result ≡ imm_s word }
{
    let number = (bits(word, 25, 7) << 5) + bits(word, 7, 5);
    sign(number, 11)
}

/// The immediate of format B.
pub fn imm_b(word: u32) -> i64
    ensures { result ≡ imm_b word }
{
    let number = (bits(word, 31, 1) << 12)
        + (bits(word, 7, 1) << 11)
        + (bits(word, 25, 6) << 5)
        + (bits(word, 8, 4) << 1);
    sign(number, 12)
}

/// The immediate of format U: bits 31:12 as a signed 20-bit number.
pub fn imm_u(word: u32) -> i64
    ensures { result ≡ imm_u word }
{
    sign(bits(word, 12, 20), 19)
}

/// The immediate of format J.
pub fn imm_j(word: u32) -> i64
    ensures { result ≡ imm_j word }
{
    let number = (bits(word, 31, 1) << 20)
        + (bits(word, 12, 8) << 12)
        + (bits(word, 20, 1) << 11)
        + (bits(word, 21, 10) << 1);
    sign(number, 20)
}
