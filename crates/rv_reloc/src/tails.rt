// LEB128 numbers of any length. The end of numbers that end together is searched only once.
ghost use Rattle.std.specs.Prelude.{◌≡◌, ◌<◌, ◌≤◌, ◌+◌, ◌-◌, ◌*◌, ◌^◌, ◌↔◌, ℕ, ℤ, pos, negsuc, ◌∷◌, [], ◌%◌, List};
ghost use Rattle.std.specs.Prelude.{IsTrue, IfOk, IfSome, OnSome, OnOk, All, length, Option};
ghost use Rattle.std.specs.List.Sorted.{IsPermutation};
ghost use Rattle.rb_bytes.specs.Leb.{is_last, low_bits, high_bits};
ghost use Rattle.elf_code.specs.Fields.{HoldBits};
ghost use Rattle.elf_image.specs.memory.LoadedBytes.{byte_at};
ghost use Rattle.code_starts.specs.LoadedMemory.{IsLow};
ghost use Rattle.rv_reloc.specs.Tails.{TailAt, IsKnown, ends_with, magnitude, AreLebBytes};

use code_starts::loaded::byte_at;
use elf_image::Elf;
use rb_bytes::fault::NoMemory;
use std::alloc::Global;

/// The rest of a LEB128 number from one of its bytes on.
#[derive(Clone, Copy)]
pub struct LebRest {
    /// The address after the last byte.
    pub end: u64,
    /// Whether the seven low bits of each byte are 0: the bytes only have sign bits of a nonnegative number.
    pub is_zeros: bool,
    /// Whether the seven low bits of each byte are set: the bytes only have sign bits of a negative number.
    pub is_ones: bool,
}

/// The rest (tail) of a number from the address `place` on. None if the loaded bytes end before the number does.
#[derive(Clone, Copy)]
pub struct Known {
    pub place: u64,
    pub tail: Option<LebRest>,
}

/// The number of LEB128 bytes of a difference of labels that can have bits other than sign bits. It is below 2^70.
pub const DIFFERENCE_BYTES: u8 = 10;

// The tail of a single byte, which is the last.
fn last_tail(address: u64, byte: u8) -> LebRest
    requires low { address + 1 < 2 ^ 64 }
    ensures end { result.end ≡ address + 1 }
    ensures zeros { IsTrue result.is_zeros ↔ HoldBits (byte ∷ []) (pos 0) }
    ensures ones { IsTrue result.is_ones ↔ HoldBits (byte ∷ []) (negsuc 0) }
{
    LebRest {
        end: address + 1,
        is_zeros: byte % 128 == 0,
        is_ones: byte % 128 == 127,
    }
}

// The tail with one more byte in front.
fn longer_tail(byte: u8, tail: LebRest) -> LebRest
    ensures end { result.end ≡ tail.end }
    ensures zeros { IsTrue result.is_zeros ↔ ((byte % 128 ≡ 0) × IsTrue tail.is_zeros) }
    ensures ones { IsTrue result.is_ones ↔ ((byte % 128 ≡ 127) × IsTrue tail.is_ones) }
{
    LebRest {
        end: tail.end,
        is_zeros: byte % 128 == 0 && tail.is_zeros,
        is_ones: byte % 128 == 127 && tail.is_ones,
    }
}

// The tail at an address, from the tail at the next address.
fn tail_before(elf: &Elf, address: u64, next: Option<LebRest>) -> Option<LebRest>
    requires low { IsLow elf.now }
    requires next { TailAt elf.now (address + 1) next }
    ensures { TailAt elf.now address result }
{
    let byte = byte_at(elf, address)?;
    if byte < 128 {
        return Some(last_tail(address, byte));
    }
    let tail = next?;
    Some(longer_tail(byte, tail))
}

// The tail at a byte that ends a number, or at an address that isn't loaded.
fn tail_of_last(elf: &Elf, address: u64) -> Option<LebRest>
    requires low { IsLow elf.now }
    requires ends { IsTrue (ends_with (byte_at elf.now address)) }
    ensures { TailAt elf.now address result }
{
    let byte = byte_at(elf, address)?;
    Some(last_tail(address, byte))
}

fn ends_with(byte: Option<u8>) -> bool
    ensures { result ≡ ends_with byte }
{
    match byte {
        None => true,
        Some(byte) => byte < 128,
    }
}

// The first address from `from` on that has the last byte of a number or isn't loaded, and at most `to`.
fn stop_between(elf: &Elf, from: u64, to: u64) -> u64
    requires low { IsLow elf.now }
    requires order { from ≤ to }
    ensures from { from ≤ result }
    ensures to { result ≤ to }
    ensures ends { result < to → IsTrue (ends_with (byte_at elf.now result)) }
{
    for address in from..to {
        if ends_with(byte_at(elf, address)) {
            return address;
        }
    }
    to
}

// The tail at the address `from`, from the tail at a higher address `to`.
fn tail_below(elf: &Elf, from: u64, to: u64, known: Option<LebRest>) -> Option<LebRest>
    requires low { IsLow elf.now }
    requires order { from ≤ to }
    requires known { TailAt elf.now to known }
    ensures { TailAt elf.now from result }
{
    let stop = stop_between(elf, from, to);
    let mut tail = if stop < to {
        tail_of_last(elf, stop)
    } else {
        known
    };
    for address in (from..stop).rev() {
        tail = tail_before(elf, address, tail);
    }
    tail
}

/// The tails at ascending addresses. They are computed from the last address to the first, so that no byte is read
/// twice. Only this needs the order.
pub fn tails_at(alloc: Global, elf: &Elf, places: &[u64]) -> Result<Vec<Known>, NoMemory>
    requires { IsLow elf.now }
    ensures { IfOk result (λ known. All (IsKnown elf.now) known.items) }
{
    let mut known = Vec::new(alloc);
    let mut next = Known {
        place: u64::MAX,
        tail: None,
    };
    for place in places.iter().rev() {
        let tail = if *place <= next.place {
            tail_below(elf, *place, next.place, next.tail)
        } else {
            tail_from(elf, *place)
        };
        next = Known {
            place: *place,
            tail,
        };
        known.push(next)?;
    }
    known.reverse();
    Ok(known)
}

// The tail at an address, without other known tails.
fn tail_from(elf: &Elf, place: u64) -> Option<LebRest>
    requires { IsLow elf.now }
    ensures { TailAt elf.now place result }
{
    tail_below(elf, place, u64::MAX, None)
}

/// The tail at an address. Known tails save the search for the end of the number.
pub fn tail_at(elf: &Elf, known: &[Known], place: u64) -> Option<LebRest>
    requires low { IsLow elf.now }
    requires known { All (IsKnown elf.now) known.now }
    ensures { TailAt elf.now place result }
{
    let index = known.partition_point(|k| k.place < place);
    if index < known.len() && known[index].place == place {
        known[index].tail
    } else {
        tail_from(elf, place)
    }
}

// The seven lowest bits of a number in two's complement.
fn low_bits(value: i128) -> u8
    ensures { result ≡ low_bits value }
{
    (value.cast_unsigned() % 128) as u8
}

// The bits above the seven lowest, with the sign.
fn high_bits(value: i128) -> i128
    ensures { result ≡ high_bits value }
{
    value >> 7
}

// Whether all bytes of the LEB128 number at an address only have sign bits. `sign` is 0 or -1.
fn holds_sign(elf: &Elf, known: &[Known], address: u64, sign: i128) -> bool
    requires low { IsLow elf.now }
    requires known { All (IsKnown elf.now) known.now }
    requires sign { magnitude sign ≡ 0 }
    ensures { (bytes : List ℕ) → AreLebBytes elf.now address bytes → IsTrue result ↔ HoldBits bytes sign }
{
    match tail_at(elf, known, address) {
        Some(tail) => {
            if sign == 0 {
                tail.is_zeros
            } else {
                tail.is_ones
            }
        }
        None => false,
    }
}

// Whether the LEB128 number at an address has the lowest bits of `number`. Only its first `steps` bytes can differ from
// sign bits.
fn holds_within(elf: &Elf, known: &[Known], address: u64, number: i128, steps: u8) -> bool
    requires low { IsLow elf.now }
    requires known { All (IsKnown elf.now) known.now }
    requires steps { magnitude number < 128 ^ steps }
    ensures { (bytes : List ℕ) → AreLebBytes elf.now address bytes → IsTrue result ↔ HoldBits bytes number }
{
    if steps == 0 {
        return holds_sign(elf, known, address, number);
    }
    match byte_at(elf, address) {
        Some(byte) => {
            if byte % 128 != low_bits(number) {
                return false;
            }
            byte < 128 || holds_within(elf, known, address + 1, high_bits(number), steps - 1)
        }
        None => false,
    }
}

/// Whether the LEB128 number at an address has the lowest bits of a difference of labels.
pub fn holds_bits(elf: &Elf, known: &[Known], address: u64, difference: i128) -> bool
    requires low { IsLow elf.now }
    requires known { All (IsKnown elf.now) known.now }
    requires difference { magnitude difference < 128 ^ 10 }
    ensures { (bytes : List ℕ) → AreLebBytes elf.now address bytes → IsTrue result ↔ HoldBits bytes difference }
{
    holds_within(elf, known, address, difference, DIFFERENCE_BYTES)
}
