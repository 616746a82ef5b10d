// Rounds numbers up, and saturates them at 64 bits.
ghost use Rattle.std.specs.Prelude.{◌≡◌, ◌+◌, ◌^◌, ◌<◌, ◌≤◌};
ghost use Rattle.elf_image.specs.memory.Break.{rounded_up};
ghost use Rattle.file_room.specs.Numbers.{capped};

/// The first multiple of `unit` at or above `n`.
pub fn rounded_up(unit: u64, n: u128) -> u128
    requires some { 0 < unit }
    requires low { n < 2 ^ 66 }
    ensures up { result ≡ rounded_up unit n }
    ensures above { n ≤ result }
    ensures low { result < n + unit }
{
    let unit = unit as u128;
    (n + (unit - 1)) / unit * unit
}

/// `n`, saturated at 2^64 - 1.
pub fn capped(n: u128) -> u64
    ensures { result ≡ capped n }
{
    n.min(u64::MAX as u128) as u64
}
