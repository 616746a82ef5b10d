//! The contents of range lists and location lists, as units read them.
#![tactic(auto)]

pub mod addresses;
pub mod expression_block;
pub mod indexed_unit;
pub mod list_bound;
pub mod list_entry;
mod list_item;
pub mod list_kind;
mod list_reading;
pub mod list_section;
pub mod named_list;
pub mod unit_lists;
pub mod unit_ranges;
