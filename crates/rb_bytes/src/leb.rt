// LEB128 numbers. DWARF 5, section 7.6.
ghost use Rattle.std.specs.Prelude.{◌≡◌, ◌<◌, ◌^◌, ◌++◌, FitsSigned, length, OnOk, OnErr, position};
ghost use Rattle.std.specs.Int.{w64};
ghost use Rattle.std.specs.Option.{SomeIff};
ghost use Rattle.rb_bytes.specs.Leb.{is_last, uleb_value, sleb_value, signed_bits, low_bits, high_bits};
ghost use Rattle.rb_bytes.specs.Leb.{fits_seven_bits, uleb, sleb, IsShortestUleb, IsShortestSleb};

use crate::fault::NoMemory;

/// The base of the digits. Each byte has one digit, and only the last byte is below the base.
pub(crate) const BASE: u8 = 128;

// A 64-bit number takes at most ten bytes of seven bits each.
const MAX_LENGTH: usize = 10;

/// The index of the last byte of the number at the front.
pub(crate) fn end_at(left: &[u8]) -> Option<usize>
    ensures { result ≡ position is_last left.now }
{
    left.iter().position(|byte| *byte < BASE)
}

/// The value of the bytes of an unsigned number, if it fits 64 bits.
pub(crate) fn unsigned_value(bytes: &[u8]) -> Option<u64>
    ensures { SomeIff result (uleb_value bytes.now < 2 ^ 64) (uleb_value bytes.now) }
{
    let mut value: u64 = 0;
    // The product is a multiple of 128, so adding a digit can't overflow.
    'bytes: for index in (0..bytes.len()).rev() {
        value = value.checked_mul(BASE as u64)? + (bytes[index] % BASE) as u64;
    }
    Some(value)
}

// The low seven bits of the last byte of a number, sign-extended.
fn sign_extended(byte: u8) -> i64
    ensures { result ≡ signed_bits byte }
{
    let bits = (byte % BASE) as i64;
    if bits < 64 { bits } else { bits - BASE as i64 }
}

/// The value of the bytes of a signed number, if it fits 64 bits.
pub(crate) fn signed_value(bytes: &[u8]) -> Option<i64>
    requires { 0 < length bytes.now }
    ensures { SomeIff result (FitsSigned w64 (sleb_value bytes.now)) (sleb_value bytes.now) }
{
    let last = bytes.len() - 1;
    let mut value = sign_extended(bytes[last]);
    'bytes: for index in (0..last).rev() {
        value = value.checked_mul(BASE as i64)? + (bytes[index] % BASE) as i64;
    }
    Some(value)
}

/// Appends the shortest encoding of an unsigned number. After an error the bytes are as before.
#[tactic(auto, using(crate::proofs::UnsignedLeb::spellings))]
pub fn put_uleb(out: &mut Vec<u8>, v: u64) -> Result<(), NoMemory>
    ensures ok { OnOk result (out.new.items ≡ out.old.items ++ uleb v) }
    ensures err { OnErr result (out.new.items ≡ out.old.items) }
    ensures shortest { IsShortestUleb v (uleb v) }
{
    // After this call no `push` below can fail.
    out.reserve(MAX_LENGTH)?;
    let mut rest = v;
    'bytes: while rest >= BASE as u64 {
        out.push((rest % BASE as u64) as u8 + BASE).unwrap();
        rest /= BASE as u64;
    }
    out.push(rest as u8).unwrap();
    Ok(())
}

// Whether seven bits can hold the number including its sign.
fn fits_seven_bits(value: i64) -> bool
    ensures { result ≡ fits_seven_bits value }
{
    (-64..64).contains(&value)
}

// The seven lowest bits of a number in two's complement.
fn low_bits(value: i64) -> u8
    ensures { result ≡ low_bits value }
{
    (value.cast_unsigned() % BASE as u64) as u8
}

// The bits above the seven lowest, with the sign.
fn high_bits(value: i64) -> i64
    ensures { result ≡ high_bits value }
{
    value >> 7
}

/// Appends the shortest encoding of a signed number. After an error the bytes are as before.
#[tactic(auto, using(crate::proofs::SignedLeb::spellings))]
pub fn put_sleb(out: &mut Vec<u8>, v: i64) -> Result<(), NoMemory>
    ensures ok { OnOk result (out.new.items ≡ out.old.items ++ sleb v) }
    ensures err { OnErr result (out.new.items ≡ out.old.items) }
    ensures shortest { IsShortestSleb v (sleb v) }
{
    // After this call no `push` below can fail.
    out.reserve(MAX_LENGTH)?;
    let mut rest = v;
    'bytes: while !fits_seven_bits(rest) {
        out.push(low_bits(rest) + BASE).unwrap();
        rest = high_bits(rest);
    }
    out.push(low_bits(rest)).unwrap();
    Ok(())
}
