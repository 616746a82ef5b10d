//! What the commands share: their results, the lines that show these, refusals, and the reading of files.
#![tactic(auto)]

mod images;
mod inputs;
pub mod lines;
mod printing;
mod programs;
mod reading;
mod refusal;
pub mod status;

pub use images::file_image;
pub use inputs::{Inputs, read_inputs};
pub use printing::print_line;
pub use programs::file_program;
pub use reading::{read_file, read_within};
pub use refusal::refuse;
pub use status::Status;
