// Targets of pairs of instructions.
ghost use Rattle.std.specs.Prelude.{◌≡◌, ◌↔◌, ◌<◌, ◌^◌, ℕ, pos, IfSome, IsSome, Some};
ghost use Rattle.elf_code.specs.Roles.{pair_target};
ghost use Rattle.elf_code.specs.ReferenceFaults.{IsAddress};

use elf_image::segment::ADDRESS_END;

/// The target of an AUIPC at `hi` and an instruction with the lower part. It may be any number.
pub fn pair_target(hi: u64, upper: i64, lower: i64) -> i128
    ensures { result ≡ pair_target hi upper lower }
{
    hi as i128 + (4096 * upper as i128 + lower as i128)
}

/// The number as an address that a label can have, if it is from 0 to `ADDRESS_END`.
pub fn address_of(number: i128) -> Option<u64>
    ensures there { IfSome result (λ a. pos a ≡ number) }
    ensures exact { IsSome result ↔ IsAddress number }
{
    if 0 <= number && number <= ADDRESS_END as i128 {
        Some(number as u64)
    } else {
        None
    }
}

/// The number as an unsigned 64-bit number, if it fits.
pub fn natural(number: i128) -> Option<u64>
    ensures there { IfSome result (λ n. pos n ≡ number) }
    ensures each { (n : ℕ) → n < 2 ^ 64 → pos n ≡ number → result ≡ Some n }
{
    if 0 <= number && number <= u64::MAX as i128 {
        Some(number as u64)
    } else {
        None
    }
}
