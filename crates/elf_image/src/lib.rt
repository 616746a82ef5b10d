//! Reads ELF files: their headers, and the memory that they describe.
#![tactic(auto)]

pub mod code_segment;
pub mod elf;
pub mod entries;
pub mod extent;
mod faults;
pub mod function_bounds;
pub mod header;
mod image;
pub mod lowest;
pub mod named;
pub mod names;
pub mod number;
mod range;
mod reader;
pub mod relocation;
pub mod section;
pub mod segment;
pub mod start;
pub mod symbol;
mod tables;
mod text;
mod text_end;

pub use elf::Elf;
pub use faults::refuse_at;
pub use function_bounds::cuts;
pub use reader::read;
pub use section::{Section, SectionHeader};
pub use segment::Segment;
pub use symbol::Symbol;
