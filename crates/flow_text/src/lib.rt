//! Repaired profiles as text: the profile itself, and lines that show that no other repaired profile changes less.
#![tactic(auto)]

mod flows;
mod lines;
mod merging;
mod repaired;
mod reporting;

pub use repaired::repaired_profile;
pub use reporting::report;
