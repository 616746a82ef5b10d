// Errors of building a file.
use std::alloc::AllocError;
use thiserror::Error;

/// Why a test file could not be built.
#[derive(Clone, Copy, Debug, Error)]
pub enum BuildError {
    #[error(transparent)]
    Memory(#[from(alloc)] AllocError),
    /// A word of the description has no meaning.
    #[error("a word says nothing")]
    NoWord,
    /// A relocation refers to a symbol that doesn't exist.
    #[error("a relocation names no symbol")]
    NoSymbol,
    /// A number doesn't fit its field.
    #[error("a number doesn't fit its field")]
    TooLarge,
}
