// The command `verify`: three files are read, then checked, and then the verdict is printed.
ghost use Rattle.std.specs.Prelude.{◌≤◌};
ghost use Rattle.rb_io.specs.Views.{SourceSeen};
ghost use Rattle.cli_base.specs.World.{world};
ghost use Rattle.cli_check.specs.VerdictLines.{status_of};
ghost use Rattle.cli_check.specs.VerifyAnswers.{VerifyServes};
ghost use Rattle.cli_args.specs.Args.{verify_given};
ghost use Rattle.cli_check.specs.Judged.{Announces};

use crate::given::read_given;
use crate::judging::{Judged, judge};
use crate::verdict_lines::{refused_output, status_of, verdict_line};
use cli_args::VerifyArgs;
use cli_base::{Status, print_line, refuse};
use rb_bytes::fault::{NoMemory, Refusal};
use rb_io::{Files, Sink};
use std::alloc::Global;

// Prints the result of the check, and returns the command's result.
fn announce<O: Sink>(alloc: Global, judged: Judged, out: &mut O) -> Status
    ensures announced { Announces judged result (O.seen out.old) (O.seen out.new) }
    ensures never_falls { (O.seen out.old).faults ≤ (O.seen out.new).faults }
{
    match judged {
        Judged::Verdict(verdict) => {
            print_line(verdict_line(alloc, verdict), status_of(verdict), out)
        }
        Judged::Refused(fault) => refuse(alloc, Refusal::Fault(fault), out),
        Judged::RefusedOutput(fault) => {
            print_line(refused_output(alloc, &fault), Status::Refused(fault), out)
        }
    }
}

/// Does `verify`.
pub fn verify<F: Files, O: Sink>(
    alloc: Global,
    args: &VerifyArgs<'_>,
    files: &mut F,
    out: &mut O,
) -> Status
    // For any standard input, which is unchanged.
    ensures { (input : SourceSeen) → VerifyServes (verify_given args.now) result
        (world (F.seen files.old) input (O.seen out.old)) (world (F.seen files.new) input (O.seen out.new)) }
{
    let given = match read_given(alloc, args, files) {
        Ok(given) => given,
        Err(answer) => return answer,
    };
    match judge(alloc, &given) {
        Ok(judged) => announce(alloc, judged, out),
        Err(NoMemory) => Status::NoMemory,
    }
}
