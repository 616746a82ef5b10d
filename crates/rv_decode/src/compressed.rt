// Fields of the two-byte instructions. ISA manual, section 26.2.
ghost use Rattle.std.specs.Prelude.{◌≡◌, ◌<◌, pos};
ghost use Rattle.rv_code.specs.isa.Bits.{field, signed};
ghost use Rattle.rv_code.specs.isa.HalfRows.{rs2, upper_register, lower_register, six_bits, addi4spn_imm, addi16sp_imm};
ghost use Rattle.rv_code.specs.isa.HalfRows.{word_offset, double_offset, jump_offset, branch_offset, load_word_sp};
ghost use Rattle.rv_code.specs.isa.HalfRows.{load_double_sp, store_word_sp, store_double_sp};

use rv_code::field::{bits, sign};

/// The second source register.
pub fn rs2(half: u32) -> u8
    ensures { result ≡ rs2 half }
{
    bits(half, 2, 5) as u8
}

/// The register from 8 to 15 in bits 9:7.
pub fn upper_register(half: u32) -> u8
    ensures { result ≡ upper_register half }
{
    8 + bits(half, 7, 3) as u8
}

/// The register from 8 to 15 in bits 4:2.
pub fn lower_register(half: u32) -> u8
    ensures { result ≡ lower_register half }
{
    8 + bits(half, 2, 3) as u8
}

/// Bits 12 and 6:2: the amount of a shift, or an immediate in two's complement.
pub fn six_bits(half: u32) -> u32
    ensures value { result ≡ six_bits half }
    ensures below { result < 64 }
{
    (bits(half, 12, 1) << 5) + bits(half, 2, 5)
}

/// Bits 12 and 6:2 as a signed immediate.
pub fn signed_six(half: u32) -> i64
    ensures { result ≡ signed 5 (six_bits half) }
{
    sign(six_bits(half), 5)
}

/// The distance from the stack pointer in C.ADDI4SPN. The halfword is reserved if the distance is 0.
pub fn addi4spn_imm(half: u32) -> u32
    ensures { result ≡ addi4spn_imm half }
{
    (bits(half, 7, 4) << 6)
        + (bits(half, 11, 2) << 4)
        + (bits(half, 5, 1) << 3)
        + (bits(half, 6, 1) << 2)
}

/// The ten bits of the immediate of C.ADDI16SP, with the sign as the highest bit. The halfword is reserved if the
/// immediate is 0.
pub fn addi16sp_imm(half: u32) -> u32
    ensures value { result ≡ addi16sp_imm half }
    ensures below { result < 1024 }
{
    (bits(half, 12, 1) << 9)
        + (bits(half, 3, 2) << 7)
        + (bits(half, 5, 1) << 6)
        + (bits(half, 2, 1) << 5)
        + (bits(half, 6, 1) << 4)
}

/// The offset of C.LW and C.SW.
pub fn word_offset(half: u32) -> i64
    ensures { result ≡ pos (word_offset half) }
{
    i64::from((bits(half, 5, 1) << 6) + (bits(half, 10, 3) << 3) + (bits(half, 6, 1) << 2))
}

/// The offset of C.LD and C.SD.
pub fn double_offset(half: u32) -> i64
    ensures { result ≡ pos (double_offset half) }
{
    i64::from((bits(half, 5, 2) << 6) + (bits(half, 10, 3) << 3))
}

/// The distance of C.J.
pub fn jump_offset(half: u32) -> i64
    ensures { result ≡ signed 11 (jump_offset half) }
{
    let number = (bits(half, 12, 1) << 11)
        + (bits(half, 8, 1) << 10)
        + (bits(half, 9, 2) << 8)
        + (bits(half, 6, 1) << 7)
        + (bits(half, 7, 1) << 6)
        + (bits(half, 2, 1) << 5)
        + (bits(half, 11, 1) << 4)
        + (bits(half, 3, 3) << 1);
    sign(number, 11)
}

/// The distance of C.BEQZ and C.BNEZ.
pub fn branch_offset(half: u32) -> i64
    ensures { result ≡ signed 8 (branch_offset half) }
{
    let number = (bits(half, 12, 1) << 8)
        + (bits(half, 5, 2) << 6)
        + (bits(half, 2, 1) << 5)
        + (bits(half, 10, 2) << 3)
        + (bits(half, 3, 2) << 1);
    sign(number, 8)
}

/// The offset of C.LWSP.
pub fn load_word_sp(half: u32) -> i64
    ensures { result ≡ pos (load_word_sp half) }
{
    i64::from((bits(half, 2, 2) << 6) + (bits(half, 12, 1) << 5) + (bits(half, 4, 3) << 2))
}

/// The offset of C.LDSP.
pub fn load_double_sp(half: u32) -> i64
    ensures { result ≡ pos (load_double_sp half) }
{
    i64::from((bits(half, 2, 3) << 6) + (bits(half, 12, 1) << 5) + (bits(half, 5, 2) << 3))
}

/// The offset of C.SWSP.
pub fn store_word_sp(half: u32) -> i64
    ensures { result ≡ pos (store_word_sp half) }
{
    i64::from((bits(half, 7, 2) << 6) + (bits(half, 9, 4) << 2))
}

/// The offset of C.SDSP.
pub fn store_double_sp(half: u32) -> i64
    ensures { result ≡ pos (store_double_sp half) }
{
    i64::from((bits(half, 7, 3) << 6) + (bits(half, 10, 3) << 3))
}
