// The ends of runs.
ghost use Rattle.std.specs.Prelude.{◌≡◌, ◌≤◌, IfOk};
ghost use Rattle.rv_machine.specs.StepResults.{answered};
ghost use Rattle.cli_run.specs.run.RunOutcomes.{closing_line};
ghost use Rattle.cli_run.specs.run.Phases.{Closed, status_of};

use cli_base::{Status, lines, print_line};
use rb_bytes::fault::NoMemory;
use rb_io::Sink;
use rv_machine::Stepped;
use std::alloc::Global;

/// The command's result for a run on the byte machine, or for a run that was interrupted.
pub fn status_of(end: Stepped) -> Status
    ensures { result ≡ status_of Status.Trapped (answered end) }
{
    match end {
        Stepped::Going => Status::OutOfSteps,
        Stepped::Ended(value) => Status::Ended(value),
        Stepped::Trap(pc, cause) => Status::Trapped(pc, cause),
        Stepped::ReadFault => Status::ReadFault,
        Stepped::WriteFault => Status::WriteFault,
        Stepped::Memory => Status::NoMemory,
    }
}

/// The closing line, which shows the result of a run. It is empty if `came` isn't a result, because memory ran out or
/// an I/O error occurred.
pub fn closing_line(alloc: Global, came: Status, steps: u64) -> Result<Vec<u8>, NoMemory>
    ensures { IfOk result (λ line. line.items ≡ closing_line came steps) }
{
    match came {
        Status::OutOfSteps => lines::out_of_steps(alloc, steps),
        Status::Ended(value) => lines::ended(alloc, value, steps),
        Status::Trapped(pc, cause) => lines::trapped(alloc, pc, cause, steps),
        Status::Stuck(pc, reason) => lines::stuck(alloc, pc, reason, steps),
        _ => Ok(Vec::new(alloc)),
    }
}

/// Prints the closing line, if `came` is the result of a run, and returns the command's result.
pub fn close<O: Sink>(alloc: Global, came: Status, steps: u64, out: &mut O) -> Status
    ensures closed { Closed result steps (O.seen out.old) (O.seen out.new) came }
    ensures never_falls { (O.seen out.old).faults ≤ (O.seen out.new).faults }
{
    if came.is_outcome() {
        print_line(closing_line(alloc, came, steps), came, out)
    } else {
        came
    }
}
