// Results of commands.
ghost use Rattle.std.specs.Prelude.{◌≡◌};
ghost use Rattle.cli_base.specs.Status.{exit_number, is_outcome};

use map_check::Clause;
use rb_bytes::fault::Fault;
use rv_code::Cause;
use sym_machine::Reason;

/// The result of a command. The program exits with its number.
#[derive(Clone, Copy, Debug)]
pub enum Status {
    /// The command was done completely.
    Ok,
    /// The program that was run ended with this status. The status can be any byte, even one of the numbers 220 to 228.
    Ended(u8),
    /// The arguments are no command.
    Usage,
    /// A file is refused, for this fault.
    Refused(Fault),
    /// A file, or the input of a run, could not be read.
    ReadFault,
    /// A file, a line, or the output of a run could not be written.
    WriteFault,
    /// Memory ran out.
    NoMemory,
    /// The program that was run trapped, at this pc.
    Trapped(u64, Cause),
    /// The program that was run reached its limit of steps.
    OutOfSteps,
    /// The symbol machine is stuck in the program that was run, at this pc.
    Stuck(u64, Reason),
    /// An output and a map aren't a faithful rewrite: the first clause that is false, at its lowest place.
    Unfaithful(Clause, u64),
}

impl Status {
    /// The number that the program exits with.
    pub fn number(self) -> u8
        ensures { result ≡ exit_number self }
    {
        match self {
            Status::Ok => 0,
            Status::Ended(value) => value,
            Status::Usage => 220,
            Status::Refused(_) => 221,
            Status::ReadFault => 222,
            Status::WriteFault => 223,
            Status::NoMemory => 224,
            Status::Trapped(_, _) => 225,
            Status::OutOfSteps => 226,
            Status::Stuck(_, _) => 227,
            Status::Unfaithful(_, _) => 228,
        }
    }

    /// Whether it is the result of a run, so that a closing line is printed.
    pub fn is_outcome(self) -> bool
        ensures { result ≡ is_outcome self }
    {
        match self {
            Status::Ended(_) | Status::Trapped(_, _) | Status::Stuck(_, _) => true,
            Status::OutOfSteps => true,
            _ => false,
        }
    }
}
