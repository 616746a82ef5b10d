//! The memory of a program: what it wrote, on top of its file's image, and the initial stack.
#![tactic(auto)]

mod bytes;
mod code_range;
mod image;
pub mod memory;
mod page_group;
pub mod page_index;
mod pages;
mod program_break;
pub mod rights;
pub mod stack;

pub use memory::Memory;
pub use rights::Access;
