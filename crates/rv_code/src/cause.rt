// Causes for which a machine stops without ending.

/// The cause of a trap. ISA manual, section 1.6; here no trap is handled, so each one stops the run.
#[derive(Clone, Copy, PartialEq, Eq, Debug)]
pub enum Cause {
    /// The pc is odd, or a byte of the instruction may not be executed.
    Fetch,
    /// The bytes at the pc are not an instruction of RV64IMC.
    Illegal,
    /// A byte that is loaded or output by a system call may not be read.
    Load,
    /// A byte that is stored or filled by a system call may not be written.
    Store,
    /// EBREAK.
    Break,
}
