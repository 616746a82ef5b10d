// The addresses of a sample's parts, and their sizes.
ghost use Rattle.std.specs.Prelude.{◌≡◌, ◌≤◌};
ghost use Rattle.sample_file.specs.SampleCode.{function_at};

/// The start of the executable segment.
pub const BASE: u64 = 0x10000;

/// The start of the code.
pub const CODE: u64 = 0x11000;

/// The start of the writable segment.
pub const DATA: u64 = 0x800000;

/// The size of a function's code in bytes.
pub const FUNCTION_SIZE: u64 = 48;

/// The size of the code at the entry point in bytes.
pub const START_SIZE: u64 = 20;

/// The start of function `k`. The entry point comes after the last function.
pub fn function_at(k: u64) -> u64
    requires { k ≤ 1000 }
    ensures { result ≡ function_at k }
{
    CODE + FUNCTION_SIZE * k
}

/// The least multiple of `align` that is at least `n`, or `n` if there is none below 2^64.
pub fn round_up(n: u64, align: u64) -> u64 {
    n.checked_next_multiple_of(align).unwrap_or(n)
}
