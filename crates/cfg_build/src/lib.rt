//! Basic blocks of functions, and the edges of their control-flow graphs.
#![tactic(auto)]

mod block_lists;
mod edge_lists;
mod ends;
mod named;

pub use block_lists::blocks;
pub use edge_lists::edges;
