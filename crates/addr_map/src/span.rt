// The spans of a map.

/// The new code of one instruction of the input.
#[derive(Clone, Copy, PartialEq, Eq, Debug)]
pub struct Span {
    /// The address of the first byte in the new code. An instruction that was left out has no bytes; its address is the
    /// one at which control continues.
    pub out: u64,
    /// The length in bytes, including a jump that was added after the instruction.
    pub len: u8,
    /// The address of the instruction in the input.
    pub input: u64,
}
