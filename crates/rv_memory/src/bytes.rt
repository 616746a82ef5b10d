// Writes bytes and numbers over a part of a list of bytes.
ghost use Rattle.std.specs.Prelude.{◌≡◌, ◌≤◌, ◌<◌, ◌+◌, ◌^◌, IfSome, is_some, length, replicate};
ghost use Rattle.elf_image.specs.file.Header.{number_at};
ghost use Rattle.rv_code.specs.machine.Machine.{low_bytes};
ghost use Rattle.rv_memory.specs.Patches.{patched, is_width};

use byteorder::{ByteOrder, LittleEndian};
use elf_image::number::{u16_at, u32_at, u64_at};

/// Writes `new` over the bytes from index `at` on.
pub fn put_bytes(bytes: &mut [u8], at: usize, new: &[u8])
    requires { at + length new.now ≤ length bytes.old }
    ensures { bytes.new ≡ patched at new.now bytes.old }
{
    bytes[at..at + new.len()].copy_from_slice(new);
}

/// Writes zeros over `count` bytes from index `at` on.
pub fn clear_bytes(bytes: &mut [u8], at: usize, count: usize)
    requires { at + count ≤ length bytes.old }
    ensures { bytes.new ≡ patched at (replicate count 0) bytes.old }
{
    bytes[at..at + count].fill(0);
}

/// Writes the `count` low bytes of a number over those from index `at` on, in little-endian order.
pub fn put_number(bytes: &mut [u8], at: usize, count: u8, number: u64)
    requires few { count ≤ 8 }
    requires within { at + count ≤ length bytes.old }
    ensures { bytes.new ≡ patched at (low_bytes count number) bytes.old }
{
    match count {
        1 => put_u8(bytes, at, number),
        2 => put_u16(bytes, at, number),
        4 => put_u32(bytes, at, number),
        8 => put_u64(bytes, at, number),
        _ => put_front(bytes, at, count, number),
    }
}

fn put_u8(bytes: &mut [u8], at: usize, number: u64)
    requires { at + 1 ≤ length bytes.old }
    ensures { bytes.new ≡ patched at (low_bytes 1 number) bytes.old }
{
    bytes[at] = (number % 0x100) as u8;
}

fn put_u16(bytes: &mut [u8], at: usize, number: u64)
    requires { at + 2 ≤ length bytes.old }
    ensures { bytes.new ≡ patched at (low_bytes 2 number) bytes.old }
{
    LittleEndian::write_u16(&mut bytes[at..], (number % 0x1_0000) as u16);
}

fn put_u32(bytes: &mut [u8], at: usize, number: u64)
    requires { at + 4 ≤ length bytes.old }
    ensures { bytes.new ≡ patched at (low_bytes 4 number) bytes.old }
{
    LittleEndian::write_u32(&mut bytes[at..], (number % 0x1_0000_0000) as u32);
}

fn put_u64(bytes: &mut [u8], at: usize, number: u64)
    requires { at + 8 ≤ length bytes.old }
    ensures { bytes.new ≡ patched at (low_bytes 8 number) bytes.old }
{
    LittleEndian::write_u64(&mut bytes[at..], number);
}

// Writes a number of a width that stores don't have: not 1, 2, 4 or 8.
fn put_front(bytes: &mut [u8], at: usize, count: u8, number: u64)
    requires few { count ≤ 8 }
    requires within { at + count ≤ length bytes.old }
    ensures { bytes.new ≡ patched at (low_bytes count number) bytes.old }
{
    let low = number.to_le_bytes();
    let (front, _) = low.split_at(count as usize);
    put_bytes(bytes, at, front);
}

/// The little-endian number of the `count` bytes from index `at` on. None if `count` isn't 1, 2, 4 or 8.
pub fn number_in(bytes: &[u8], at: usize, count: u8) -> Option<u64>
    requires { at + count ≤ length bytes.now }
    ensures value { IfSome result (λ number. number ≡ number_at bytes.now at count) }
    ensures below { IfSome result (λ number. number < 256 ^ count) }
    ensures there { is_some result ≡ is_width count }
{
    match count {
        1 => Some(bytes[at] as u64),
        2 => Some(u16_at(bytes, at) as u64),
        4 => Some(u32_at(bytes, at) as u64),
        8 => Some(u64_at(bytes, at)),
        _ => None,
    }
}
