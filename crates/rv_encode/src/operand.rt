// Operands as the numbers in their fields.
ghost use Rattle.std.specs.Prelude.{◌≡◌, ◌≢◌, ◌⊎◌, ◌<◌, ◌≤◌, ◌+◌, ◌*◌, ◌^◌, ◌<ℤ◌, ◌≤ℤ◌, ℕ, pos, IsSome, IfSome, IfNone};
ghost use Rattle.rv_code.specs.isa.Reach.{IsWithin};
ghost use Rattle.std.specs.Int.RustNames.{int_rem};
ghost use Rattle.rv_code.specs.isa.Bits.{signed_by};

/// `imm` in two's complement, for a field whose highest bit has the value `weight`. None if it doesn't fit.
pub fn unsigned(imm: i64, weight: u32) -> Option<u32>
    requires { weight < 2 ^ 31 }
    ensures below { IfSome result (λ n. n < 2 * weight) }
    ensures found { IfSome result (λ n. signed_by weight n ≡ imm) }
    ensures room { IsWithin weight imm → IsSome result }
    ensures none { IfNone result ((n : ℕ) → n < 2 * weight → signed_by weight n ≢ imm) }
{
    let weight = i64::from(weight);
    if imm < -weight || weight <= imm {
        return None;
    }
    let number = if imm < 0 { imm + 2 * weight } else { imm };
    Some(number as u32)
}

/// `imm` as the number in a field, if it is a multiple of `unit` from 0 to before `end`. The greatest `end` of an
/// encoding is 1024, for C.ADDI4SPN.
pub fn multiple(imm: i64, unit: i64, end: i64) -> Option<u32>
    requires unit { pos 0 <ℤ unit }
    requires end { end ≤ℤ pos 1024 }
    ensures found { IfSome result (λ n. pos n ≡ imm) }
    ensures whole { IfSome result (λ n. int_rem imm unit ≡ pos 0) }
    ensures below { IfSome result (λ n. imm <ℤ end) }
    ensures none { IfNone result ((imm <ℤ pos 0) ⊎ ((end ≤ℤ imm) ⊎ (int_rem imm unit ≢ pos 0))) }
{
    if imm < 0 || imm >= end || imm % unit != 0 {
        return None;
    }
    Some(imm as u32)
}

/// A register in a five-bit field, or None if there is no such register.
pub fn five_bits(register: u8) -> Option<u32>
    ensures found { IfSome result (λ n. (n < 32) × (n ≡ register)) }
    ensures none { IfNone result (32 ≤ register) }
{
    if register >= 32 {
        return None;
    }
    Some(register as u32)
}

/// A register from 8 to 15 in a three-bit field, or None for other registers.
pub fn three_bits(register: u8) -> Option<u32>
    ensures found { IfSome result (λ n. (n < 8) × (8 + n ≡ register)) }
    ensures none { IfNone result ((register < 8) ⊎ (16 ≤ register)) }
{
    if register < 8 || register >= 16 {
        return None;
    }
    Some((register - 8) as u32)
}
