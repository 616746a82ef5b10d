//! The ranges and locations of the entries of all units, or the first fault of the sections that they are read from.
#![tactic(auto)]

pub mod both_entries;
mod gathering;
pub mod listing;
pub mod located_attr;
mod open_entries;
pub mod place_entries;
mod place_reading;
mod placing;
pub mod range_entries;
mod range_reading;
mod unit_locations;
