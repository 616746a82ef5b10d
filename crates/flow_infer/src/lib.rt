//! Repaired profiles: counts that balance at each block, with the least change.
#![tactic(auto)]

mod arcs;
mod counts;
mod direction;
mod distances;
mod entries;
mod flow;
mod joining;
mod leaving;
mod lifting;
mod links;
mod network;
mod nodes;
mod pushing;
mod repairing;
mod rooms;
mod searching;
mod settling;
mod source;
mod ways;

ghost use Rattle.flow_infer.specs.Laws.{LeastChangeLaw};

pub use flow::{Flow, Link};
pub use repairing::repair;
pub use ways::block_end;

/// A law: if prices hold for links whose flow balances, no other balancing flow of these links changes less. The
/// function does nothing.
pub fn least_change_law()
    ensures { LeastChangeLaw }
{}
