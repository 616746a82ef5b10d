//! Whether an output and a map are a faithful rewrite of an input, whoever made them.
#![tactic(auto)]

mod bytes;
mod cells;
mod changes;
mod checking;
mod clause;
mod code_bytes;
mod code_spans;
mod found;
mod headers;
mod insts;
mod keeps;
mod layout;
mod names;
mod numbers;
mod others;
mod output;
mod sorted_spans;
mod spans;
mod text;

pub use checking::check;
pub use clause::{Clause, Verdict, verdict_law};
