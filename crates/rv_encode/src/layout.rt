// Halfwords with a layout that several rows share. ISA manual, section 26.2.
ghost use Rattle.std.specs.Prelude.{◌<◌, ◌+◌};
ghost use Rattle.rv_encode.specs.internal.HalfForms.{HasSixBits, HasArithmetic, HasRegisters};

use rv_code::field::bits;

/// Shifts and computations with a constant: a register in bits 11:7, and a six-bit number in bits 12 and 6:2.
pub fn six_bits(quadrant: u32, funct3: u32, register: u32, number: u32) -> u16
    requires quadrant { quadrant < 4 }
    requires funct3 { funct3 < 8 }
    requires register { register < 32 }
    requires number { number < 64 }
    ensures { HasSixBits result quadrant funct3 register number }
{
    let half = quadrant
        + (bits(number, 0, 5) << 2)
        + (register << 7)
        + (bits(number, 5, 1) << 12)
        + (funct3 << 13);
    half as u16
}

/// C.SRLI, C.SRAI and C.ANDI, selected by bits 11:10: a register from 8 to 15, as a number from 0 to 7, and a six-bit
/// number in bits 12 and 6:2.
pub fn arithmetic(kind: u32, register: u32, number: u32) -> u16
    requires kind { kind < 4 }
    requires register { register < 8 }
    requires number { number < 64 }
    ensures { HasArithmetic result kind (8 + register) number }
{
    let half = 1
        + (bits(number, 0, 5) << 2)
        + (register << 7)
        + (kind << 10)
        + (bits(number, 5, 1) << 12)
        + (4 << 13);
    half as u16
}

/// C.JR and C.MV, or C.JALR and C.ADD, selected by bit 12: a register in bits 11:7 and another in bits 6:2.
pub fn registers(bit12: u32, first: u32, second: u32) -> u16
    requires bit12 { bit12 < 2 }
    requires first { first < 32 }
    requires second { second < 32 }
    ensures { HasRegisters result bit12 first second }
{
    let half = 2 + (second << 2) + (first << 7) + (bit12 << 12) + (4 << 13);
    half as u16
}
