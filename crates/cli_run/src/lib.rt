//! The commands that run a file: `run`, on the byte machine or on the symbol machine, and `record`.
#![tactic(auto)]

mod byte_run;
mod closing;
pub mod recording;
pub mod running;
mod symbol_run;

pub use recording::record;
pub use running::{RunMode, run};
