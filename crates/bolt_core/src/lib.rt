//! Rewriting a file by a profile.
#![tactic(auto)]

mod carrying;
mod cold_parts;
mod counting;
mod limits;
mod reading;
pub mod rewriting;
mod table_list;

pub use rewriting::{Rewritten, rewrite};
