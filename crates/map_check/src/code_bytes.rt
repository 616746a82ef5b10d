// Bytes of an output that are code.
ghost use Rattle.std.specs.Prelude.{◌↔◌, IsTrue};
ghost use Rattle.elf_image.specs.memory.Executables.{AreCodeBytes, IsCodeByte, executable_read};
ghost use Rattle.code_starts.specs.LoadedMemory.{IsLow};

use elf_image::Elf;
use elf_image::segment::{PF_W, PF_X};

// Whether the byte at `address` is loaded, may be executed and may not be written.
fn is_code_byte(elf: &Elf, address: u64) -> bool
    ensures { IsTrue result ↔ IsCodeByte (executable_read elf.now) address }
{
    match elf.segment_at(address) {
        Some(p) => p.has_flag(PF_X) && !p.has_flag(PF_W),
        None => false,
    }
}

/// Whether the `len` bytes from `start` on are loaded, may be executed and may not be written.
pub fn are_code_bytes(elf: &Elf, start: u64, len: u8) -> bool
    requires { IsLow elf.now }
    ensures { IsTrue result ↔ AreCodeBytes (executable_read elf.now) start len }
{
    for i in 0..len {
        match start.checked_add(i as u64) {
            Some(address) => {
                if !is_code_byte(elf, address) {
                    return false;
                }
            }
            None => return false,
        }
    }
    true
}
