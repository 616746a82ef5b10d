//! Ranges of addresses with the same answer, their sizes, and an index for the first range that contains an address.
#![tactic(auto)]

mod first_range;
mod last_run;
mod pieces;
pub mod range;
pub mod run;
mod weights;

pub use first_range::FirstRange;
pub use last_run::{ends_at, lengthen};
pub use range::Range;
pub use run::Run;
pub use weights::{ANSWER_SIZE, RUN_WEIGHT, WEIGHT_LIMIT};
