//! The references of a file: its relocations, and the roles, cells and faults that follow from them.
#![tactic(auto)]

mod absolute;
mod applies_to;
mod bad_entries;
mod calls;
mod candidates;
mod cells;
mod claim_lists;
mod claims;
mod differences;
mod entry_run;
mod entry_runs;
mod faults;
mod fields;
mod got_fields;
mod ifunc;
mod index;
mod instructions;
mod labels;
mod low_mismatch;
mod lows;
mod merged_runs;
mod misfits;
mod named;
mod pairs;
pub mod records;
pub mod refs;
mod reloc_type;
mod roles;
mod run_parts;
mod slots;
mod sweep;
mod tails;
mod targets;
mod types;
mod uppers;

pub use code_starts::starts;
pub use refs::{Refs, references};
