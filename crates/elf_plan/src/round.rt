// Arithmetic on addresses and offsets. The error is `Layout` if a result doesn't fit 64 bits.
ghost use Rattle.std.specs.Prelude.{◌≡◌, ◌+◌, ◌<◌, ◌≤◌, IfOk};
ghost use Rattle.elf_image.specs.memory.Break.{rounded_up};

use crate::unwritable::Unwritable;
use file_room::rounded_up;

/// `n` rounded up to a multiple of `unit`.
pub fn checked_rounded_up(unit: u64, n: u64) -> Result<u64, Unwritable>
    requires { 0 < unit }
    ensures up { IfOk result (λ up. up ≡ rounded_up unit n) }
    ensures above { IfOk result (λ up. n ≤ up) }
{
    in_64_bits(rounded_up(unit, n as u128))
}

/// The sum of `a` and `b`.
pub fn sum(a: u64, b: u64) -> Result<u64, Unwritable>
    ensures { IfOk result (λ sum. sum ≡ a + b) }
{
    a.checked_add(b).ok_or(Unwritable::Layout)
}

/// An address or offset as a 64-bit number.
pub fn in_64_bits(place: u128) -> Result<u64, Unwritable>
    ensures { IfOk result (λ n. n ≡ place) }
{
    if place <= u64::MAX as u128 {
        Ok(place as u64)
    } else {
        Err(Unwritable::Layout)
    }
}
