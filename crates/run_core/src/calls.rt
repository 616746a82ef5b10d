// System calls, by their registers. Linux, syscall(2) and asm-generic/unistd.h.
ghost use Rattle.std.specs.Prelude.{◌≡◌, ◌==◌, ◌||◌};

/// The register of the first argument, and of the result. psABI, "Integer Register Convention".
pub const A0: u8 = 10;

/// The register of the second argument.
pub const A1: u8 = 11;

/// The register of the third argument.
pub const A2: u8 = 12;

/// The register of a call's number.
pub const A7: u8 = 17;

// The numbers of calls.
const READ: u64 = 63;

const WRITE: u64 = 64;

const EXIT: u64 = 93;

const EXIT_GROUP: u64 = 94;

const BRK: u64 = 214;

// The file descriptors that are open.
const STANDARD_INPUT: u64 = 0;

const STANDARD_OUTPUT: u64 = 1;

const STANDARD_ERROR: u64 = 2;

/// The most bytes that one call moves.
pub const MOST_MOVED: u64 = 65536;

/// `EBADF` as a result: the negative of 9.
pub const BAD_FILE: u64 = 0xffff_ffff_ffff_fff7;

/// `ENOSYS` as a result: the negative of 38.
pub const NO_SUCH_CALL: u64 = 0xffff_ffff_ffff_ffda;

/// The system calls that machines know. `Exit` is both exit and exit_group.
#[derive(Clone, Copy)]
pub enum SystemCall {
    Read,
    Write,
    Exit,
    Brk,
    Unknown,
}

impl SystemCall {
    ghost use Rattle.rv_code.specs.machine.Machine.{call_of};
    ghost use Rattle.run_core.specs.Calls.{call};

    /// The system call with a number.
    pub fn of(number: u64) -> SystemCall
        ensures { call result ≡ call_of number }
    {
        if number == READ {
            SystemCall::Read
        } else if number == WRITE {
            SystemCall::Write
        } else if number == EXIT || number == EXIT_GROUP {
            SystemCall::Exit
        } else if number == BRK {
            SystemCall::Brk
        } else {
            SystemCall::Unknown
        }
    }
}

/// Whether a file descriptor is open for reading.
pub fn is_input(file: u64) -> bool
    ensures { result ≡ (file == 0) }
{
    file == STANDARD_INPUT
}

/// Whether a file descriptor is open for writing.
pub fn is_output(file: u64) -> bool
    ensures { result ≡ (file == 1 || file == 2) }
{
    file == STANDARD_OUTPUT || file == STANDARD_ERROR
}
