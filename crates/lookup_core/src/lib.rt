//! What the tables of a file say at an address, as text.
#![tactic(auto)]

mod covers;
mod lines;
mod places;
mod report;
mod texts;
mod unwind;
mod unwinding;

pub use report::{Report, look};
