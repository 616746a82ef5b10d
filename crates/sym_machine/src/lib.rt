//! The symbol machine: runs a file's functions with code addresses as symbols, so that a run doesn't depend on the
//! addresses of the code.
#![tactic(auto)]

mod accesses;
mod arithmetic;
mod branches;
mod calls;
mod execute;
mod fields;
mod hidden;
mod inst_index;
mod jumps;
mod known;
pub mod machine;
mod memory;
mod other_bytes;
pub mod outcome;
mod parts;
mod run;
mod start;
mod start_bytes;
mod step;
mod stores;
mod symbols;
pub mod value;

pub use hidden::entry_address;
pub use machine::SymMachine;
pub use outcome::{Reason, SymRan, SymStepped};
pub use value::{CodeSymbol, Comparing, MemoryByte, Pointer, Signedness, Value};
