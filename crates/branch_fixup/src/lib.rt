//! Forms: the ending of each block in the new code, which gives the new address of each instruction.
#![tactic(auto)]

pub mod block_insts;
mod endings;
mod ends;
mod fixup;
mod growth;
pub mod lengths;
mod lookup;
mod settling;
mod spans;

pub use fixup::forms;
