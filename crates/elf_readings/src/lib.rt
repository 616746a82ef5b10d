//! The law that statements on a file's code don't depend on how the file was read, with its lemmas.
#![tactic(auto)]

ghost use Rattle.elf_readings.specs.Laws.{ReadingLaw};

/// Does nothing: its contract is the law. Two readings of one file have the same faults of code, of which the same one
/// is reported, and the same functions, starts of instructions, roles and code cells.
pub fn reading_law()
    ensures { ReadingLaw }
{}
