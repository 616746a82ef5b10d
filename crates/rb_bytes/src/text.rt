// Numbers as text.
ghost use Rattle.std.specs.Prelude.{◌≡◌, ◌+◌, ◌<◌, ◌≤◌, ◌++◌, OnOk, OnErr, decimal, drop, false, length};
ghost use Rattle.std.specs.Fmt.{digit_glyph};
ghost use Rattle.rb_bytes.specs.Text.{hexadecimal};

use crate::fault::NoMemory;
use itoa::Buffer;

// A 64-bit number has at most 16 hexadecimal digits.
const HEX_LENGTH: usize = 16;

fn hex_digit(digit: u8) -> u8
    requires { digit < 16 }
    ensures { result ≡ digit_glyph false digit }
{
    if digit < 10 {
        b'0' + digit
    } else {
        b'a' + (digit - 10)
    }
}

/// Writes `v` to `buf` in lower-case hexadecimal with no leading zeros, so that the last digit is just before index
/// `end`; zero is `0`. Returns the index of the first digit.
#[tactic(auto, using(crate::proofs::HexDigits::hex_onto_start))]
pub fn write_hex(v: u64, buf: &mut [u8], end: usize) -> usize
    requires room { 16 ≤ end }
    requires inside { end ≤ length buf.old }
    ensures start { result + length (hexadecimal v) ≡ end }
    ensures short { end ≤ result + 16 }
    ensures written { drop result buf.new ≡ hexadecimal v ++ drop end buf.old }
{
    let mut start = end;
    let mut rest = v;
    'digits: loop {
        start -= 1;
        buf[start] = hex_digit((rest % 16) as u8);
        rest /= 16;
        if rest == 0 {
            break;
        }
    }
    start
}

/// Appends the number in lower-case hexadecimal, with no leading zeros; zero is `0`.
pub fn put_hex(out: &mut Vec<u8>, v: u64) -> Result<(), NoMemory>
    ensures ok { OnOk result (out.new.items ≡ out.old.items ++ hexadecimal v) }
    ensures err { OnErr result (out.new.items ≡ out.old.items) }
{
    let mut text = [0u8; HEX_LENGTH];
    let start = write_hex(v, &mut text, HEX_LENGTH);
    out.extend_from_slice(&text[start..])?;
    Ok(())
}

/// Appends the number in decimal, with no leading zeros; zero is `0`.
pub fn put_decimal(out: &mut Vec<u8>, v: u64) -> Result<(), NoMemory>
    ensures ok { OnOk result (out.new.items ≡ out.old.items ++ decimal v) }
    ensures err { OnErr result (out.new.items ≡ out.old.items) }
{
    out.extend_from_slice(Buffer::new().format(v).as_bytes())?;
    Ok(())
}

/// Appends a number of up to 128 bits in decimal, with no leading zeros; zero is `0`.
pub fn put_count(out: &mut Vec<u8>, count: u128) -> Result<(), NoMemory>
    ensures { OnOk result (out.new.items ≡ out.old.items ++ decimal count) }
{
    out.extend_from_slice(Buffer::new().format(count).as_bytes())?;
    Ok(())
}
