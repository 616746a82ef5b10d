//! The plan of a written file: the positions of its parts, and the contents of its sections.
#![tactic(auto)]

pub mod area;
pub mod first_names;
pub mod fragments;
pub mod given_tables;
pub mod header_table;
mod homes;
mod kept_bytes;
mod loaded_ranges;
pub mod name_tables;
pub mod old_name;
pub mod plan;
mod range_tree;
pub mod round;
pub mod section_bytes;
pub mod sections;
pub mod segments;
pub mod source;
pub mod unwritable;
pub mod weights;
