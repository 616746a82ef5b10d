//! Sample programs: files with the layout of a usual compiler and linker, each with a profile.
#![tactic(auto)]

mod fault_check;
mod sampling;
mod weight_check;

pub use sampling::sample;
