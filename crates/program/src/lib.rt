//! Programs: files that were read, with the functions and blocks of their code; and the faults for which a file isn't
//! read.
#![tactic(auto)]

mod limits;
pub mod program;
mod reading;
mod room;

pub use limits::{FILE_LIMIT, check_code, has_too_much_code};
pub use program::Program;
pub use reading::read_program;
pub use room::{is_tight, new_start};
