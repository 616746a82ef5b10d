// Encoded instructions.

/// The bits of an instruction.
#[derive(Clone, Copy, PartialEq, Eq, Debug)]
pub enum Word {
    /// The halfword of a compressed instruction.
    Half(u16),
    /// The word of a four-byte instruction. Its low 16 bits come first in memory.
    Full(u32),
}
