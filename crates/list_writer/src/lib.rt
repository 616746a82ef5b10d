//! Range lists and location lists, written in tables.
#![tactic(auto)]

pub mod list_tables;
mod list_writing;
pub mod location_spelling;
pub mod range_tables;
mod table_groups;
