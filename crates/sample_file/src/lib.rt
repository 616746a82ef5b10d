//! The files of sample programs and their profiles, and whether the code that was read of a file is a sample's.
#![tactic(auto)]

mod code;
pub mod code_check;
mod debug_info;
mod debug_line;
pub mod file;
mod frames;
mod inst_check;
mod numbers;
mod places;
pub mod profile;
mod relocations;
mod sections;
mod symbols;
