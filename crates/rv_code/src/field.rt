// Bit fields of words, and signed numbers in them.
ghost use Rattle.std.specs.Prelude.{◌≡◌, ◌<◌, ◌^◌};
ghost use Rattle.rv_code.specs.isa.Bits.{field, signed};

/// The `width` bits from bit `low` on.
pub fn bits(word: u32, low: u32, width: u32) -> u32
    requires low_in_word { low < 32 }
    requires width_in_word { width < 32 }
    ensures value { result ≡ field word low width }
    ensures below { result < 2 ^ width }
{
    (word >> low) % (1 << width)
}

/// A number of `top` + 1 bits, read in two's complement.
pub fn sign(number: u32, top: u32) -> i64
    requires { top < 32 }
    ensures { result ≡ signed top number }
{
    let weight = 1_i64 << top;
    let number = i64::from(number);
    if number < weight {
        number
    } else {
        number - 2 * weight
    }
}
