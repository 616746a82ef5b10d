//! Records a profile of a program from one run of it on the byte machine.
#![tactic(auto)]

mod address_set;
mod edge_counts;
mod record;
mod text;
mod watch;
mod watched;

pub use record::{Recorded, trace_edges};
