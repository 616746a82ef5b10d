//! Builds executables for tests from named parts.
#![tactic(auto)]

pub mod assembly;
pub mod bytes;
mod error;
pub mod file;
mod headers;
pub mod parts;
pub mod programs;
pub mod samples;
pub mod tables;
pub mod words;
mod writer;

pub use error::BuildError;
pub use file::{ElfFile, HeaderTable};
pub use parts::{Piece, Relocation, Section, Symbol, of_code, of_section};
