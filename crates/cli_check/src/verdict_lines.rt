// The lines of verdicts, and of outputs that are refused.
ghost use Rattle.std.specs.Prelude.{◌≡◌, IfOk};
ghost use Rattle.cli_check.specs.VerdictLines.{clause_name, refused_output_line, status_of, verdict_line};

use cli_base::Status;
use cli_base::lines::refused_front;
use map_check::{Clause, Verdict};
use rb_bytes::fault::{Fault, NoMemory};
use rb_bytes::text::put_hex;
use std::alloc::Global;

fn clause_name(clause: Clause) -> &'static [u8]
    ensures { result.now ≡ clause_name clause }
{
    match clause {
        Clause::MapText => b"MapText",
        Clause::MapSpan => b"MapSpan",
        Clause::SpanBytes => b"SpanBytes",
        Clause::Instruction => b"Instruction",
        Clause::Next => b"Next",
        Clause::Entry => b"Entry",
        Clause::Byte => b"Byte",
        Clause::Cell => b"Cell",
        Clause::Table => b"Table",
    }
}

/// The line of a verdict.
pub fn verdict_line(alloc: Global, verdict: Verdict) -> Result<Vec<u8>, NoMemory>
    ensures { IfOk result (λ line. line.items ≡ verdict_line verdict) }
{
    match verdict {
        Verdict::Faithful => {
            let line = Vec::from_slice(alloc, b"faithful\n")?;
            Ok(line)
        }
        Verdict::Unfaithful(clause, place) => {
            let mut line = Vec::from_slice(alloc, b"unfaithful ")?;
            line.extend_from_slice(clause_name(clause))?;
            line.extend_from_slice(b" at ")?;
            put_hex(&mut line, place)?;
            line.extend_from_slice(b"\n")?;
            Ok(line)
        }
    }
}

/// The line for an output that is refused: the line for any file, followed by ` in OUT`.
pub fn refused_output(alloc: Global, fault: &Fault) -> Result<Vec<u8>, NoMemory>
    ensures { IfOk result (λ line. line.items ≡ refused_output_line fault.now) }
{
    let mut line = refused_front(alloc, fault)?;
    line.extend_from_slice(b" in OUT\n")?;
    Ok(line)
}

/// The result of a command that printed a verdict.
pub fn status_of(verdict: Verdict) -> Status
    ensures { result ≡ status_of verdict }
{
    match verdict {
        Verdict::Faithful => Status::Ok,
        Verdict::Unfaithful(clause, place) => Status::Unfaithful(clause, place),
    }
}
