// Why an entry is not read.
ghost use Rattle.std.specs.Prelude.{◌≡◌};

use rb_bytes::fault::NoMemory;
use rb_bytes::gap::Gap;
use std::alloc::{AllocError, AllocFailed};

/// Why an entry is not read.
#[derive(Clone, Copy)]
pub enum Failed {
    /// It isn't as the format has it.
    Malformed,
    /// Memory ran out.
    Memory,
}

impl From<Gap> for Failed {
    ghost use Rattle.cfi_rows.specs.declared.failed.Failed.TheVariants as failed;

    ghost from_gives = { λ _ e. e ≡ failed.Malformed };

    fn from(_gap: Gap) -> Failed {
        Failed::Malformed
    }
}

impl From<AllocError> for Failed {
    ghost use Rattle.cfi_rows.specs.declared.failed.Failed.TheVariants as failed;

    ghost from_gives = { λ _ e. e ≡ failed.Memory };

    fn from(_error: AllocError) -> Failed {
        Failed::Memory
    }
}

impl<T: Drop> From<AllocFailed<T>> for Failed {
    ghost use Rattle.cfi_rows.specs.declared.failed.Failed.TheVariants as failed;

    ghost from_gives = { λ _ e. e ≡ failed.Memory };

    fn from(_failed: AllocFailed<T>) -> Failed {
        Failed::Memory
    }
}

impl From<NoMemory> for Failed {
    ghost use Rattle.cfi_rows.specs.declared.failed.Failed.TheVariants as failed;

    ghost from_gives = { λ _ e. e ≡ failed.Memory };

    fn from(_error: NoMemory) -> Failed {
        Failed::Memory
    }
}
