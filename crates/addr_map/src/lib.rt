//! The map from the instructions of the input to their new code.
#![tactic(auto)]

mod addr_map;
mod column;
mod fields;
mod new_order;
mod old_order;
mod order;
pub mod span;
mod stretches;
mod text;

pub use addr_map::AddrMap;
pub use span::Span;
