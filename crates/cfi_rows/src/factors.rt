// What the bytes of an entry are read under.
ghost use Rattle.std.specs.Prelude.{◌^◌, ◌<◌};

use crate::encoding::Encoding;

/// The factors of advances and of offsets of a CIE, the encoding of addresses, and the address at which the entry
/// ends.
#[derive(Clone, Copy)]
pub struct Factors {
    pub code: u64,
    pub data: i64,
    pub encoding: Encoding,
    pub end: u128,
    ghost small: { end < 2 ^ 66 },
}
