//! What the program does with its arguments: all commands in one call.
#![tactic(auto)]

pub mod commands;
pub mod lines;
pub mod running;
pub mod serving;

pub use commands::tool;
pub use serving::serve;
