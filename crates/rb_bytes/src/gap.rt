// Why a value cannot be read.
use thiserror::Error;

/// Why no value can be read at the front of some bytes.
#[derive(Clone, Copy, PartialEq, Eq, Debug, Error)]
pub enum Gap {
    /// The bytes end before the value does.
    #[error("too few bytes are left")]
    Short,
    /// A complete LEB128 number is there, but its value does not fit 64 bits.
    #[error("a number does not fit 64 bits")]
    Wide,
}
