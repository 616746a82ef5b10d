// Numbers put over bytes of a file.
ghost use Rattle.std.specs.Prelude.{◌≡◌, ◌≤◌, ◌<◌, ◌+◌, ◌^◌, ◌⊎◌, length, All, map};
ghost use Rattle.byteorder.specs.Endian.{little_bytes};
ghost use Rattle.elf_parts.specs.Patches.{put, put_all};
ghost use Rattle.elf_parts.specs.Numbers.{CanPut, patch_of};

use crate::patch::put_bytes;

/// A number, and where in a file it is to be.
#[derive(Clone, Copy)]
pub struct NumberAt {
    pub offset: u64,
    /// How many bytes it has: 1, 2, 4 or 8.
    pub width: u8,
    pub value: u64,
}

/// Puts a number at its offset.
pub fn put_number(file: &mut [u8], number: &NumberAt)
    requires { CanPut (length file.old) number.now }
    ensures { file.new ≡ put number.now.offset (little_bytes number.now.width number.now.value) file.old }
{
    let offset = number.offset as usize;
    if number.width == 1 {
        put_bytes(file, offset, &(number.value as u8).to_le_bytes());
    } else if number.width == 2 {
        put_bytes(file, offset, &(number.value as u16).to_le_bytes());
    } else if number.width == 4 {
        put_bytes(file, offset, &(number.value as u32).to_le_bytes());
    } else {
        put_bytes(file, offset, &number.value.to_le_bytes());
    }
}

/// Puts each number at its offset.
pub fn put_numbers(file: &mut [u8], numbers: &[NumberAt])
    requires { All (CanPut (length file.old)) numbers.now }
    ensures { file.new ≡ put_all file.old (map patch_of numbers.now) }
{
    for number in numbers {
        put_number(file, number);
    }
}
