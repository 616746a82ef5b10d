// Arguments that are numbers: an address, and the number of a sample.
ghost use Rattle.std.specs.Prelude.{◌≡◌, ◌+◌, ◌*◌, ◌^◌, IfSome, IsTrue, Some, None, if◌then◌else◌, nat_lt};
ghost use Rattle.std.specs.Char as char;
ghost use Rattle.std.specs.List.{list_all};
ghost use Rattle.std.specs.Str.Parse.{digits_value};
ghost use Rattle.cli_args.specs.Args.{IsSampleNumber};
ghost use Rattle.cli_args.specs.Words as spec;

use rb_bytes::number::decimal_number;

// The greatest number of hexadecimal digits of an address, which has 64 bits.
const MOST_DIGITS: usize = 16;

// The number of samples.
const SAMPLE_COUNT: u64 = 1000;

/// The address that 1 to 16 hexadecimal digits write, in upper or lower case, with or without `0x` before them.
pub fn address(word: &[u8]) -> Option<u64>
    ensures { result ≡ spec.address_of word.now }
{
    let digits = unprefixed(word);
    if digits.is_empty() {
        return None;
    }
    if digits.len() > MOST_DIGITS {
        return None;
    }
    if !are_hex(digits) {
        return None;
    }
    value(digits)
}

/// The number of a sample, from 1 to 1000, that decimal digits write.
pub fn sample_number(digits: &[u8]) -> Option<u16>
    ensures is { result ≡ spec.sample_number_of digits.now }
    ensures there { IfSome result IsSampleNumber }
{
    let number = decimal_number(digits)?;
    if number == 0 || number > SAMPLE_COUNT {
        return None;
    }
    Some(number as u16)
}

// The part of `word` after `0x`, or all of `word` if it doesn't begin with `0x`.
fn unprefixed(word: &[u8]) -> &[u8]
    ensures { result.now ≡ spec.unprefixed word.now }
{
    if word.starts_with(b"0x") {
        &word[2..]
    } else {
        word
    }
}

fn are_hex(digits: &[u8]) -> bool
    ensures { result ≡ list_all char.is_ascii_hexdigit digits.now }
{
    digits.iter().all(|c| c.is_ascii_hexdigit())
}

// The number that hexadecimal digits write, if it is below 2^64.
fn value(digits: &[u8]) -> Option<u64>
    requires digits { IsTrue (list_all char.is_ascii_hexdigit digits.now) }
    ensures { result ≡ (if nat_lt (digits_value 16 digits.now) (2 ^ 64) then Some
        (digits_value 16 digits.now) else None) }
{
    let mut value = 0;
    for c in digits {
        value = appended(value, digit_value(*c))?;
    }
    Some(value)
}

// `value` with one more hexadecimal digit appended.
fn appended(value: u64, digit: u64) -> Option<u64>
    ensures { result ≡ (if nat_lt (value * 16 + digit) (2 ^ 64) then Some (value * 16 + digit) else None) }
{
    let shifted = value.checked_mul(16)?;
    shifted.checked_add(digit)
}

fn digit_value(c: u8) -> u64
    requires { IsTrue (char.is_ascii_hexdigit c) }
    ensures { result ≡ char.digit_value c }
{
    if c < b'A' {
        (c - b'0') as u64
    } else if c < b'a' {
        (c - b'A') as u64 + 10
    } else {
        (c - b'a') as u64 + 10
    }
}
