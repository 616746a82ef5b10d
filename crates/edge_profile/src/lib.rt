//! Profiles of a program's runs: how often control went from one instruction to another, read from text.
#![tactic(auto)]

mod fields;
mod function_names;
mod lines;
mod name_ends;
pub mod pairs;
pub mod places;
mod profile;
mod reading;
mod symbol_values;
pub mod weights;

pub use profile::Profile;
pub use reading::read;
