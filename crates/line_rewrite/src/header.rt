// The fields that are kept of the headers of line units. DWARF 5, section 6.2.4.
ghost use Rattle.std.specs.Prelude.{◌≡◌, ◌<◌, ◌+◌, length};

use crate::coding::Coding;
use crate::entry::Entry;

/// A header after its length.
#[derive(Drop)]
pub struct Header {
    pub coding: Coding,
    /// The number of operands of each standard opcode.
    pub lengths: Vec<u8>,
    /// The bytes after the numbers of operands: the tables of directories and files, and bytes that are skipped.
    pub rest: Vec<u8>,
    /// The number of bytes of `rest` that these two tables take.
    pub table_size: usize,
    pub directories: Vec<Entry>,
    pub files: Vec<Entry>,
    ghost has_range: { 0 < coding.line_range },
    ghost has_lengths: { length lengths.items + 1 ≡ coding.opcode_base },
}
