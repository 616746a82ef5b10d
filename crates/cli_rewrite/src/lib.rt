//! The commands that rewrite a file: `rewrite`, and `map`, which prints the map from old to new code.
#![tactic(auto)]

ghost use Rattle.cli_rewrite.specs.FramesLaw.{FramesLaw};

mod inputs;
mod lines;
mod mapping;
pub mod rewriting;

pub use mapping::print_map;
pub use rewriting::rewrite;

/// A law: in a rewritten file, the functions at each byte of new code, with the source position in each, are those at
/// the byte's owner in the input. The function does nothing.
pub fn frames_law()
    ensures { FramesLaw }
{}
