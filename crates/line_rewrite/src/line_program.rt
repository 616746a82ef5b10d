// Programs of line units. DWARF 5, section 6.2.5.
ghost use Rattle.std.specs.Prelude.{◌<◌, ◌≤◌, ◌+◌, length};

use crate::coding::Coding;

/// The bytes of a unit's program, and the numbers that its operations depend on.
#[derive(Clone, Copy)]
pub struct LineProgram<'a> {
    pub coding: &'a Coding,
    /// The number of operands of each standard opcode.
    pub lengths: &'a [u8],
    pub bytes: &'a [u8],
    ghost has_range: { 0 < coding.now.line_range },
    ghost has_lengths: { coding.now.opcode_base ≤ length lengths.now + 1 },
}
