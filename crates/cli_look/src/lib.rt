//! Commands that make sample files, and that show what a file's tables say.
#![tactic(auto)]

mod frame_lines;
mod lines;
mod looking_up;
mod question;
mod sampling;

pub use looking_up::look_up;
pub use question::Question;
pub use sampling::sample;
