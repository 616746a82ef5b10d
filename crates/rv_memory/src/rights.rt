// A program's permissions for an address.
ghost use Rattle.std.specs.Prelude.{◌≡◌, ◌↔◌, ◌<◌, ◌≤◌, ◌+◌, IsTrue};
ghost use Rattle.elf_image.specs.memory.Image.{is_loaded_with};
ghost use Rattle.rv_memory.specs.Start.{in_stack};

use elf_image::Elf;

/// An access to a byte of memory.
#[derive(Clone, Copy)]
pub enum Access {
    Read,
    Write,
    Execute,
}

/// The first address after the stack, which is above all addresses that a file can load.
pub const STACK_END: u64 = 0x40_0000_0000;

/// The stack's size in bytes: 8 MiB.
pub const STACK_SIZE: u64 = 0x80_0000;

/// Whether an address is in the stack.
pub fn in_stack(address: u64) -> bool
    ensures { result ≡ in_stack address }
{
    STACK_END - STACK_SIZE <= address && address < STACK_END
}

/// Whether an address is loaded with one of the flags `PF_R`, `PF_W` and `PF_X`.
pub fn is_loaded_with(elf: &Elf, flag: u32, address: u64) -> bool
    requires { 0 < flag }
    ensures { result ≡ is_loaded_with flag elf.now.segments.items address }
{
    match elf.segment_at(address) {
        Some(segment) => segment.has_flag(flag),
        None => false,
    }
}

/// Whether the `count` addresses from `address` on are all between `from` and before `to`.
pub fn lies_in(from: u64, to: u64, address: u64, count: usize) -> bool
    ensures { IsTrue result ↔ ((from ≤ address) × (address + count ≤ to)) }
{
    from <= address && address <= to && count as u64 <= to - address
}
