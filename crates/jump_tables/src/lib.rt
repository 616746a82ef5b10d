//! Indirect jumps through jump tables, and their possible targets.
#![tactic(auto)]

mod labels;
mod table_pairs;

pub use table_pairs::tables;
