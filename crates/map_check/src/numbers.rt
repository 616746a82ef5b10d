// Numbers in the lines of a map, which have no leading zeros.
ghost use Rattle.std.specs.Prelude.{◌≡◌, ◌==◌, ◌++◌, ◌∷◌, ◌<◌, ◌^◌, ℕ, List, All, IfSome, IfNone, false, decimal};
ghost use Rattle.rb_bytes.specs.Text.{hexadecimal, is_lower_hex_digit};
ghost use Rattle.map_check.specs.internal.LineNumbers.{has_leading_zero};

use rb_bytes::number::{decimal_number, hex_number};
use rb_bytes::split::split_once;

// Whether there is a zero before other digits.
fn has_leading_zero(digits: &[u8]) -> bool
    ensures { result ≡ has_leading_zero digits.now }
{
    digits.len() > 1 && digits[0] == b'0'
}

// The number below 2^64 whose hexadecimal text `digits` is.
fn hex_of(digits: &[u8]) -> Option<u64>
    ensures some { IfSome result (λ n. digits.now ≡ hexadecimal n) }
    ensures small { IfSome result (λ n. n < 2 ^ 64) }
    ensures none { IfNone result ((n : ℕ) → n < 2 ^ 64 → digits.now ≡ hexadecimal n → ⊥) }
{
    if has_leading_zero(digits) {
        return None;
    }
    hex_number(digits)
}

/// The number below 256 whose decimal text `digits` is.
pub fn byte_of(digits: &[u8]) -> Option<u8>
    ensures some { IfSome result (λ n. digits.now ≡ decimal n) }
    ensures small { IfSome result (λ n. n < 256) }
    ensures none { IfNone result ((n : ℕ) → n < 256 → digits.now ≡ decimal n → ⊥) }
{
    if has_leading_zero(digits) {
        return None;
    }
    let number = decimal_number(digits)?;
    if number > 255 {
        return None;
    }
    Some(number as u8)
}

/// The hexadecimal number before the first byte `end`, and the text after this byte.
pub fn hex_before(text: &[u8], end: u8) -> Option<(u64, &[u8])>
    requires { is_lower_hex_digit end ≡ false }
    ensures some { IfSome result (λ p. text.now ≡ hexadecimal p.0 ++ end ∷ p.1.now) }
    ensures small { IfSome result (λ p. p.0 < 2 ^ 64) }
    ensures none { IfNone result ((n : ℕ) (rest : List ℕ) → n < 2 ^ 64 → text.now ≡ hexadecimal n ++ end ∷ rest → ⊥) }
{
    let (digits, rest) = split_once(text, end)?;
    let number = hex_of(digits)?;
    Some((number, rest))
}

/// The decimal number below 256 before the first byte `end`, and the text after this byte.
pub fn byte_before(text: &[u8], end: u8) -> Option<(u8, &[u8])>
    requires { is_lower_hex_digit end ≡ false }
    ensures some { IfSome result (λ p. text.now ≡ decimal p.0 ++ end ∷ p.1.now) }
    ensures small { IfSome result (λ p. p.0 < 256) }
    ensures none { IfNone result ((n : ℕ) (rest : List ℕ) → n < 256 → text.now ≡ decimal n ++ end ∷ rest → ⊥) }
{
    let (digits, rest) = split_once(text, end)?;
    let number = byte_of(digits)?;
    Some((number, rest))
}
