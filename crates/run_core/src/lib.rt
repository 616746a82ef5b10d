//! Parts shared by machines that run over a source and a sink, whatever the contents of their registers and memory.
#![tactic(auto)]

pub mod calls;
mod input_end;

pub use input_end::InputEnd;
