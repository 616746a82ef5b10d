// Ranges of a file's bytes.
ghost use Rattle.std.specs.Prelude.{◌↔◌, IsTrue};
ghost use Rattle.elf_image.specs.faults.Truncation.{IsWhole};

/// Whether a file contains all `size` bytes from an offset on. An empty range is always contained.
pub fn is_whole(file: &[u8], offset: u64, size: u64) -> bool
    ensures { IsTrue result ↔ IsWhole file.now offset size }
{
    let length = file.len() as u64;
    size == 0 || (offset <= length && size <= length - offset)
}
