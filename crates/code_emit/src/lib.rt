//! The bytes of the new code, and the new content of code cells.
#![tactic(auto)]

mod anew;
mod block;
mod cells;
mod code;
mod emission;
mod piece;

pub use emission::emit;
