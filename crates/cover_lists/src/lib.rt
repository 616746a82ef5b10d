//! Ranges and location lists by the addresses in them, and their runs of new code.
#![tactic(auto)]

pub mod bounds;
pub mod carried_lists;
pub mod cost;
pub mod cover_index;
pub mod cover_tree;
pub mod entry_order;
pub mod expressions;
pub mod group_runs;
pub mod groups;
pub mod kept_list;
pub mod kept_lists;
mod list_finder;
pub mod list_place;
pub mod list_runs;
pub mod list_weight;
pub mod range_weight;
mod stretches;
