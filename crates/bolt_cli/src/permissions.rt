// The permissions of written files.
use cli_args::command_line::{Command, parse};
use rb_io::HostFiles;
use std::rt::Files;

/// The system's files. The output of a rewrite gets the permissions of its input, so that the same users can run it.
/// `args` are the program's arguments, without its name.
pub fn files_for<'a, R: Files>(rt: &'a R, args: &'a [String]) -> HostFiles<'a, R> {
    let files = HostFiles::new(rt);
    match parse(args) {
        Some(Command::Rewrite(names)) => files.with_permissions_of(names.inputs.file, names.out),
        _ => files,
    }
}
