//! The command line: which command the arguments are.
#![tactic(auto)]

mod args;
pub mod command_line;
mod words;

pub use args::{
    InputArgs, LookupArgs, RecordArgs, RepairArgs, RewriteArgs, RunArgs, SampleArgs, VerifyArgs,
};
