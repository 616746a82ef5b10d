// Why a line unit can't be read.
ghost use Rattle.std.specs.Prelude.{◌≡◌};
ghost use Rattle.line_rewrite.specs.declared.trouble.Trouble.TheVariants.{Malformed, Memory};

use rb_bytes::fault::NoMemory;
use rb_bytes::gap::Gap;
use std::alloc::{AllocError, AllocFailed};

/// Why a line unit can't be read.
#[derive(Clone, Copy)]
pub enum Trouble {
    /// It violates the format.
    Malformed,
    Memory,
}

impl From<Gap> for Trouble {
    ghost from_gives = { λ _ e. e ≡ Malformed };

    fn from(_gap: Gap) -> Trouble {
        Trouble::Malformed
    }
}

impl From<NoMemory> for Trouble {
    ghost from_gives = { λ _ e. e ≡ Memory };

    fn from(_error: NoMemory) -> Trouble {
        Trouble::Memory
    }
}

impl From<AllocError> for Trouble {
    ghost from_gives = { λ _ e. e ≡ Memory };

    fn from(_error: AllocError) -> Trouble {
        Trouble::Memory
    }
}

impl<T: Drop> From<AllocFailed<T>> for Trouble {
    ghost from_gives = { λ _ e. e ≡ Memory };

    fn from(_failed: AllocFailed<T>) -> Trouble {
        Trouble::Memory
    }
}
