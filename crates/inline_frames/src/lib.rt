//! The functions that an address belongs to, inlined ones among them.
#![tactic(auto)]

mod chain;
mod follow;
mod holding;
mod link;
mod naming;
mod position;
mod tag;
mod text;
mod unit_chain;
mod walk;

pub use chain::{Frame, frames};
