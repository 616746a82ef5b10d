// The result of a step.

use rv_code::Cause;

/// The result of a step.
#[derive(Clone, Copy, PartialEq, Eq, Debug)]
pub enum Stepped {
    /// The machine goes on.
    Going,
    /// The program ended with this status.
    Ended(u8),
    /// The step at this pc traps.
    Trap(u64, Cause),
    /// Standard input could not be read.
    ReadFault,
    /// The output could not be written.
    WriteFault,
    /// Memory ran out.
    Memory,
}
