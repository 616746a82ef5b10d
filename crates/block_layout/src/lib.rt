//! The order of blocks within their functions: chains of blocks that often follow one another, hot chains first.
#![tactic(auto)]

mod edge_counts;
mod functions;
mod hot_chains;
mod layout;
mod links;
mod parts;
mod walks;

ghost use Rattle.block_layout.specs.Laws.{LinksLaw, PartsLaw};

pub use layout::{chains, chains_by};

/// A law: edges and counts determine the links. Any two `Links` that satisfy `AreLinks` for the same edges and counts
/// are equal. The function does nothing.
pub fn links_law()
    ensures { LinksLaw }
{}

/// A law: a profile determines the order of blocks. Any two `Chains` that satisfy `AreChains` for the same program and
/// counts have the same lists of blocks. The function does nothing.
pub fn parts_law()
    ensures { PartsLaw }
{}
