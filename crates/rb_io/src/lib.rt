//! Input and output of the program: files by name, sources and sinks of bytes, in memory and of the operating system.
#![tactic(auto)]

mod calls;
mod copy;
mod files;
mod host_files;
mod host_streams;
mod mem_files;
mod mem_sink;
mod mem_source;
mod print;
mod sink;
mod slot;
mod slots;
mod source;
mod whole_files;

pub use files::{Files, ReadAll, Wrote};
pub use host_files::HostFiles;
pub use host_streams::{HostSink, HostSource};
pub use mem_files::MemFiles;
pub use mem_sink::MemSink;
pub use mem_source::MemSource;
pub use print::print_all;
pub use sink::{Put, Sink};
pub use source::{Got, Source};
