// The result of a command that refuses a file.
ghost use Rattle.std.specs.Prelude.{◌≤◌};
ghost use Rattle.cli_base.specs.Printing.{Refuses};

use crate::lines;
use crate::printing::print_line;
use crate::status::Status;
use rb_bytes::fault::Refusal;
use rb_io::Sink;
use std::alloc::Global;

/// Prints the line of a refusal, and returns the command's result.
pub fn refuse<O: Sink>(alloc: Global, refusal: Refusal, out: &mut O) -> Status
    ensures refused { Refuses refusal result (O.seen out.old) (O.seen out.new) }
    ensures never_falls { (O.seen out.old).faults ≤ (O.seen out.new).faults }
{
    match refusal {
        Refusal::Fault(fault) => print_line(
            lines::refused(alloc, &fault),
            Status::Refused(fault),
            out,
        ),
        Refusal::Memory => Status::NoMemory,
    }
}
