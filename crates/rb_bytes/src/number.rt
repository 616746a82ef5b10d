// Numbers read from text.
ghost use Rattle.std.specs.Prelude.{◌≡◌, ◌+◌, ◌*◌, ◌^◌, ◌<◌, ◌≤◌, Some, None, IsTrue, if◌then◌else◌, nat_lt};
ghost use Rattle.std.specs.Char.{digit_value, is_ascii_digit};
ghost use Rattle.std.specs.List.{list_all};
ghost use Rattle.std.specs.Str.Parse.{digits_value};
ghost use Rattle.rb_bytes.specs.Text.{is_lower_hex_digit, hex_number, decimal_number};

// The digits of the greatest 64-bit number in hexadecimal, and in decimal.
const HEX_DIGITS: usize = 16;

const DECIMAL_DIGITS: usize = 20;

/// The number that 1 to 16 lower-case hexadecimal digits write; `None` for any other text.
pub fn hex_number(digits: &[u8]) -> Option<u64>
    ensures { result ≡ hex_number digits.now }
{
    if digits.is_empty() {
        return None;
    }
    if digits.len() > HEX_DIGITS {
        return None;
    }
    if !are_lower_hex(digits) {
        return None;
    }
    value(digits, 16)
}

/// The number below 2^64 that 1 to 20 decimal digits write; `None` for any other text.
pub fn decimal_number(digits: &[u8]) -> Option<u64>
    ensures { result ≡ decimal_number digits.now }
{
    if digits.is_empty() {
        return None;
    }
    if digits.len() > DECIMAL_DIGITS {
        return None;
    }
    if !are_decimal(digits) {
        return None;
    }
    value(digits, 10)
}

fn are_decimal(digits: &[u8]) -> bool
    ensures { result ≡ list_all is_ascii_digit digits.now }
{
    digits.iter().all(|c| c.is_ascii_digit())
}

fn are_lower_hex(digits: &[u8]) -> bool
    ensures { result ≡ list_all is_lower_hex_digit digits.now }
{
    digits.iter().all(|c| is_lower_hex_digit(*c))
}

fn is_lower_hex_digit(c: u8) -> bool
    ensures { result ≡ is_lower_hex_digit c }
{
    c.is_ascii_digit() || (c >= b'a' && c <= b'f')
}

// The number below 2^64 that digits in base `radix` write. Decimal digits are also hexadecimal ones.
fn value(digits: &[u8], radix: u64) -> Option<u64>
    requires digits { IsTrue (list_all is_lower_hex_digit digits.now) }
    requires radix { 0 < radix }
    ensures { result ≡ (if nat_lt (digits_value radix digits.now) (2 ^ 64) then Some
        (digits_value radix digits.now) else None) }
{
    let mut value = 0;
    for c in digits {
        value = appended(value, radix, digit_value(*c))?;
    }
    Some(value)
}

// `value` with one more digit.
fn appended(value: u64, radix: u64, digit: u64) -> Option<u64>
    ensures { result ≡ (if nat_lt (value * radix + digit) (2 ^ 64) then Some (value * radix + digit) else None) }
{
    value.checked_mul(radix)?.checked_add(digit)
}

fn digit_value(c: u8) -> u64
    requires { IsTrue (is_lower_hex_digit c) }
    ensures { result ≡ digit_value c }
{
    if c < b'a' {
        (c - b'0') as u64
    } else {
        (c - b'a') as u64 + 10
    }
}
