//! The parts of a file's code, and the start addresses of their instructions.
#![tactic(auto)]

pub mod address_set;
pub mod code;
mod halves;
pub mod instruction_starts;
pub mod loaded;
pub mod parts;
pub mod ranges;
pub mod start_index;
pub mod whole;

pub use instruction_starts::starts;
