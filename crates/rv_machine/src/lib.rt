//! The byte machine: runs an ELF file by the rules of the instruction set, one step at a time.
#![tactic(auto)]

mod calls;
mod execute;
mod fetch;
pub mod known;
mod load;
pub mod machine;
mod run;
mod step;
mod stepped;

pub use machine::Machine;
pub use run::Ran;
pub use rv_code::Cause;
pub use stepped::Stepped;
