//! Reads and writes bytes: a cursor, LEB128 numbers, numbers as text, and the kinds of refusal that all other crates
//! use.
#![tactic(auto)]

pub mod cursor;
pub mod fault;
pub mod gap;
pub mod leb;
pub mod limit;
pub mod lists;
pub mod little;
pub mod number;
pub mod split;
pub mod text;
