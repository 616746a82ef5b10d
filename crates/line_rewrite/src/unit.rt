// Kept line units. DWARF 5, section 6.2.
ghost use Rattle.std.specs.Prelude.{IsTrue, length};
ghost use Rattle.line_rewrite.specs.SoundPrograms.{is_sound};
ghost use Rattle.line_rewrite.specs.KeptSequences.{AreSequences};

use crate::header::Header;
use crate::kept::KeptSequence;

/// A line unit.
#[derive(Drop)]
pub struct Unit {
    pub header: Header,
    /// The bytes of its program.
    pub program: Vec<u8>,
    pub sequences: Vec<KeptSequence>,
    ghost sound: { IsTrue (is_sound header.coding (length header.files.items) header.lengths.items program.items) },
    ghost listed: { AreSequences header.coding header.lengths.items program.items sequences.items },
}
