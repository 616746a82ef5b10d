//! Finds functions: the parts of a file's code that are functions, and their instructions.
#![tactic(auto)]

mod finding;
mod function_parts;
mod inst_lists;
pub mod referred;
mod targets;
mod valid;

pub use finding::functions;
