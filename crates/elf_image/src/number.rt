// Numbers in the bytes of a file, and bits of flags. ELF files of this machine are little-endian. psABI, "File Header".
ghost use Rattle.std.specs.Prelude.{◌≡◌, ◌≤◌, ◌<◌, ◌+◌, length};
ghost use Rattle.elf_image.specs.file.Header.{number_at, is_set};

use byteorder::{ByteOrder, LittleEndian};

/// The number of two bytes at an offset.
pub fn u16_at(file: &[u8], offset: usize) -> u16
    requires { offset + 2 ≤ length file.now }
    ensures { result ≡ number_at file.now offset 2 }
{
    LittleEndian::read_u16(&file[offset..])
}

/// The number of four bytes at an offset.
pub fn u32_at(file: &[u8], offset: usize) -> u32
    requires { offset + 4 ≤ length file.now }
    ensures { result ≡ number_at file.now offset 4 }
{
    LittleEndian::read_u32(&file[offset..])
}

/// The number of eight bytes at an offset.
pub fn u64_at(file: &[u8], offset: usize) -> u64
    requires { offset + 8 ≤ length file.now }
    ensures { result ≡ number_at file.now offset 8 }
{
    LittleEndian::read_u64(&file[offset..])
}

/// Whether the bit `flag`, a power of two, is set in `flags`.
pub fn is_set(flags: u64, flag: u64) -> bool
    requires { 0 < flag }
    ensures { result ≡ is_set flag flags }
{
    flags / flag % 2 == 1
}
