// Errors of writing a file.
ghost use Rattle.std.specs.Prelude.{◌≡◌};

use rb_bytes::fault::NoMemory;
use std::alloc::{AllocError, AllocFailed};

/// Why a file isn't written.
#[derive(Clone, Copy)]
pub enum Unwritable {
    /// Memory ran out.
    Memory,
    /// There is no such layout: a number doesn't fit its field, parts would overlap, or a table has no section.
    Layout,
    /// The file would be larger than the limit.
    TooLarge,
    /// The file was made, but the reader refuses it.
    ReadBack,
}

impl From<NoMemory> for Unwritable {
    ghost use Rattle.elf_plan.specs.declared.unwritable.Unwritable.TheVariants.{Memory};

    ghost from_gives = { λ _ e. e ≡ Memory };

    fn from(_error: NoMemory) -> Unwritable {
        Unwritable::Memory
    }
}

impl From<AllocError> for Unwritable {
    ghost use Rattle.elf_plan.specs.declared.unwritable.Unwritable.TheVariants.{Memory};

    ghost from_gives = { λ _ e. e ≡ Memory };

    fn from(_error: AllocError) -> Unwritable {
        Unwritable::Memory
    }
}

impl<T: Drop> From<AllocFailed<T>> for Unwritable {
    ghost use Rattle.elf_plan.specs.declared.unwritable.Unwritable.TheVariants.{Memory};

    ghost from_gives = { λ _ e. e ≡ Memory };

    fn from(_failed: AllocFailed<T>) -> Unwritable {
        Unwritable::Memory
    }
}
