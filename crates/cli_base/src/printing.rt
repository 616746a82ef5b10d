// Printing a whole line.
ghost use Rattle.std.specs.Prelude.{◌≡◌, ◌≤◌, ℕ, List, IfOk};
ghost use Rattle.cli_base.specs.Printing.{LinePrinted};

use crate::status::Status;
use rb_bytes::fault::NoMemory;
use rb_io::{Put, Sink, print_all};

/// Prints `line`, if there was memory to make it. The result is `done` after all of it was written, otherwise
/// `NoMemory` or `WriteFault`.
pub fn print_line<O: Sink>(line: Result<Vec<u8>, NoMemory>, done: Status, out: &mut O) -> Status
    ensures printed { (text : List ℕ) → IfOk line (λ l. l.items ≡ text) →
        LinePrinted result done text (O.seen out.old) (O.seen out.new) }
    ensures never_falls { (O.seen out.old).faults ≤ (O.seen out.new).faults }
{
    let line = match line {
        Ok(line) => line,
        Err(NoMemory) => return Status::NoMemory,
    };
    match print_all(out, &line) {
        Put::Took(_) => done,
        Put::Failed => Status::WriteFault,
    }
}
