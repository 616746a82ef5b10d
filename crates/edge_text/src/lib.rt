//! Profiles as text: the lines of pairs of instructions with their counts.
#![tactic(auto)]

mod splitting;
mod text;

ghost use Rattle.edge_text.specs.LineCounts.{SplitLaw};

pub use text::edge_text;

/// A law: the lines of pairs have the counts of the pairs. The function does nothing.
pub fn split_law()
    ensures { SplitLaw }
{}
