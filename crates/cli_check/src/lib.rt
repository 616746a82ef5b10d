//! The commands that check profiles and outputs: `repair`, which repairs a profile, and `verify`, which decides whether
//! an output and a map are a faithful rewrite.
#![tactic(auto)]

mod given;
mod judging;
mod making;
pub mod repairing;
mod verdict_lines;
pub mod verifying;

pub use repairing::repair;
pub use verifying::verify;
