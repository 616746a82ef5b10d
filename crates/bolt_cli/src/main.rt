//! The program: it does what its arguments say, and exits with the number of the answer.
#![tactic(auto)]

mod permissions;

use crate::permissions::files_for;
use bolt_tool::serve;
pub use bolt_tool::tool;
use cli_base::Status;
use rb_io::{HostSink, HostSource};
use std::env;
use std::process::ExitCode;

// The program's arguments, without its own name. `None` if there isn't enough memory for them.
fn read_args(rt: &HostRuntime) -> Option<Vec<String>> {
    let mut args = Vec::new(rt.alloc());
    let Ok(given) = env::args(rt) else {
        return None;
    };
    for arg in given.skip(1) {
        if args.push(arg).is_err() {
            return None;
        }
    }
    Some(args)
}

fn main(rt: HostRuntime) -> ExitCode {
    let Some(args) = read_args(&rt) else {
        return ExitCode::from(Status::NoMemory.number());
    };
    let mut files = files_for(&rt, &args);
    let mut input = HostSource::new(rt.stdin());
    let mut out = HostSink::new(rt.stdout());
    serve(rt.alloc(), &args, &mut files, &mut input, &mut out)
}
