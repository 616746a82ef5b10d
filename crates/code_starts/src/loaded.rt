// Bytes and numbers in the memory that a file describes.
ghost use Rattle.std.specs.Prelude.{◌≡◌, ◌<◌, ◌≤◌, ◌+◌, ◌^◌, ℕ, OnSome, IfSome, length};
ghost use Rattle.byteorder.specs.Endian.{little_number};
ghost use Rattle.elf_image.specs.declared.elf.Elf.{Elf};
ghost use Rattle.elf_image.specs.memory.LoadedBytes.{byte_at};
ghost use Rattle.elf_code.specs.LoadedNumbers.{loaded_number};
ghost use Rattle.rv_code.specs.layout.FunctionLists.{address_end};
ghost use Rattle.code_starts.specs.LoadedMemory.{IsLow, AreBytesFrom};

use byteorder::{ByteOrder, LittleEndian};
use elf_image::Elf;

/// The bytes that a segment loads from the file from an address on, up to the segment's last one. Empty if no segment
/// loads the address from the file.
pub fn bytes_from<'a>(elf: &Elf<'a>, address: u64) -> &'a [u8]
    ensures { AreBytesFrom elf.now address result.now }
{
    let Some(segment) = elf.segment_at(address) else {
        return &elf.file[..0];
    };
    let place = address - segment.vaddr;
    let loaded = segment.filesz.min(segment.memsz);
    let length = elf.file.len() as u64;
    if place > loaded || segment.offset > length || loaded > length - segment.offset {
        return &elf.file[..0];
    }
    let start = segment.offset + place;
    let end = segment.offset + loaded;
    &elf.file[start as usize..end as usize]
}

/// The bytes of memory that follow the first `count` of `bytes`; none if there are fewer.
pub fn bytes_after(bytes: &[u8], count: usize) -> &[u8]
    ensures { (elf : Elf) (a : ℕ) → AreBytesFrom elf a bytes.now → AreBytesFrom elf (a + count) result.now }
{
    let (_, after) = bytes.split_at(count.min(bytes.len()));
    after
}

/// The byte at an address, if it is loaded. Loaded addresses are below `ADDRESS_END`, so the next one also fits 64
/// bits.
pub fn byte_at(elf: &Elf, address: u64) -> Option<u8>
    requires { IsLow elf.now }
    ensures value { result ≡ byte_at elf.now address }
    ensures low { OnSome result (address < address_end) }
{
    elf.image_byte(address)
}

/// The little-endian number in the `size` bytes at an address, if all are loaded. `size` is at most eight.
pub fn loaded_number(elf: &Elf, address: u64, size: u8) -> Option<u64>
    requires low { IsLow elf.now }
    requires size { size ≤ 8 }
    ensures value { result ≡ loaded_number elf.now address size }
    ensures below { IfSome result (λ x. x < 256 ^ size) }
{
    let bytes = bytes_from(elf, address);
    if size == 0 || bytes.len() < size as usize {
        return number_by_bytes(elf, address, size);
    }
    Some(first_number(bytes, size as usize))
}

// The little-endian number in the first `size` bytes.
fn first_number(bytes: &[u8], size: usize) -> u64
    requires some { 1 ≤ size }
    requires high { size ≤ 8 }
    requires room { size ≤ length bytes.now }
    ensures value { result ≡ little_number size bytes.now }
    ensures below { result < 256 ^ size }
{
    LittleEndian::read_uint(bytes, size)
}

// The number at an address, with one search for each byte. For numbers that no single segment loads from the file.
fn number_by_bytes(elf: &Elf, address: u64, size: u8) -> Option<u64>
    requires low { IsLow elf.now }
    requires size { size ≤ 8 }
    ensures value { result ≡ loaded_number elf.now address size }
    ensures below { IfSome result (λ x. x < 256 ^ size) }
{
    if size == 0 {
        return Some(0);
    }
    let first = byte_at(elf, address)?;
    let rest = number_by_bytes(elf, address + 1, size - 1)?;
    Some(first as u64 + 256 * rest)
}
