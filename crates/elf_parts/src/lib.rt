//! The parts of an ELF file that is written: its headers as bytes, what is put over the input's bytes, and what is
//! added after them.
#![tactic(auto)]

mod assembly;
pub mod number_at;
pub mod parts;
pub mod patch;
pub mod spell;

pub use assembly::assemble;
pub use number_at::NumberAt;
pub use parts::Parts;
