// The lines of refusals and of runs.
ghost use Rattle.std.specs.Prelude.{◌≡◌, ◌*◌, ◌++◌, OnOk, OnErr, IfOk, codes};
ghost use Rattle.rb_bytes.specs.Text.{hexadecimal};
ghost use Rattle.cli_base.specs.Lines.{refused_front, refused_line, refused_end, after_steps, ended_line, cause_name};
ghost use Rattle.cli_base.specs.Lines.{trapped_line, reason_name, stuck_line, out_of_steps_line};

use rb_bytes::fault::{Fault, FaultKind, NoMemory};
use rb_bytes::text::{put_decimal, put_hex};
use rv_code::Cause;
use std::alloc::Global;
use sym_machine::Reason;

// Appends the end of the line of a refusal: for `NoRoom` how much room is needed and how much there is, in bytes.
fn put_refused_end(line: &mut Vec<u8>, fault: &Fault) -> Result<(), NoMemory>
    ensures { OnOk result (line.new.items ≡ line.old.items
        ++ refused_end fault.now.kind fault.now.need fault.now.room) }
{
    if fault.kind == FaultKind::NoRoom {
        line.extend_from_slice(b": need ")?;
        put_decimal(line, fault.need)?;
        line.extend_from_slice(b" room ")?;
        put_decimal(line, fault.room)?;
    }
    line.extend_from_slice(b"\n")?;
    Ok(())
}

/// The beginning of the line for a file that is refused: `refused NUMBER NAME at PLACE`.
pub fn refused_front(alloc: Global, fault: &Fault) -> Result<Vec<u8>, NoMemory>
    ensures { IfOk result (λ line. line.items ≡ refused_front fault.now) }
{
    let mut line = Vec::from_slice(alloc, b"refused ")?;
    put_decimal(&mut line, fault.kind.number() as u64)?;
    line.extend_from_slice(b" ")?;
    line.extend_from_slice(fault.kind.name().as_bytes())?;
    line.extend_from_slice(b" at ")?;
    put_hex(&mut line, fault.place)?;
    Ok(line)
}

/// The line for a file that is refused: `refused NUMBER NAME at PLACE`, and for `NoRoom` the bytes that are needed and
/// that there are.
pub fn refused(alloc: Global, fault: &Fault) -> Result<Vec<u8>, NoMemory>
    ensures { IfOk result (λ line. line.items ≡ refused_line fault.now) }
{
    let mut line = refused_front(alloc, fault)?;
    put_refused_end(&mut line, fault)?;
    Ok(line)
}

fn put_after_steps(line: &mut Vec<u8>, steps: u64) -> Result<(), NoMemory>
    ensures { OnOk result (line.new.items ≡ line.old.items ++ after_steps steps) }
{
    line.extend_from_slice(b" after ")?;
    put_decimal(line, steps)?;
    line.extend_from_slice(b" steps]\n")?;
    Ok(())
}

// Appends why a run stopped, at which pc, and after how many steps.
fn put_stop(line: &mut Vec<u8>, why: &[u8], pc: u64, steps: u64) -> Result<(), NoMemory>
    ensures { OnOk result
        (line.new.items ≡ line.old.items ++ why.now ++ codes " at " ++ hexadecimal pc ++ after_steps steps) }
{
    line.extend_from_slice(why)?;
    line.extend_from_slice(b" at ")?;
    put_hex(line, pc)?;
    put_after_steps(line, steps)?;
    Ok(())
}

/// The line for a run that ended with `status`.
pub fn ended(alloc: Global, status: u8, steps: u64) -> Result<Vec<u8>, NoMemory>
    ensures { IfOk result (λ line. line.items ≡ ended_line status steps) }
{
    let mut line = Vec::from_slice(alloc, b"[ended ")?;
    put_decimal(&mut line, status as u64)?;
    put_after_steps(&mut line, steps)?;
    Ok(line)
}

/// The line for a run that reached its limit of steps.
pub fn out_of_steps(alloc: Global, steps: u64) -> Result<Vec<u8>, NoMemory>
    ensures { IfOk result (λ line. line.items ≡ out_of_steps_line steps) }
{
    let mut line = Vec::from_slice(alloc, b"[out of steps")?;
    put_after_steps(&mut line, steps)?;
    Ok(line)
}

fn cause_name(cause: Cause) -> &'static [u8]
    ensures { result.now ≡ cause_name cause }
{
    match cause {
        Cause::Fetch => b"Fetch",
        Cause::Illegal => b"Illegal",
        Cause::Load => b"Load",
        Cause::Store => b"Store",
        Cause::Break => b"Break",
    }
}

fn reason_name(reason: Reason) -> &'static [u8]
    ensures { result.now ≡ reason_name reason }
{
    match reason {
        Reason::NotCode => b"NotCode",
        Reason::EndOfFunction => b"EndOfFunction",
        Reason::FellOff => b"FellOff",
        Reason::Operate => b"Operate",
        Reason::Compare => b"Compare",
        Reason::Mixed => b"Mixed",
        Reason::Hidden => b"Hidden",
        Reason::Access => b"Access",
        Reason::CallArg => b"CallArg",
        Reason::Break => b"Break",
    }
}

/// The line for a run that ended with a trap at the address `pc`.
pub fn trapped(alloc: Global, pc: u64, cause: Cause, steps: u64) -> Result<Vec<u8>, NoMemory>
    ensures { IfOk result (λ line. line.items ≡ trapped_line pc cause steps) }
{
    let mut line = Vec::from_slice(alloc, b"[trapped ")?;
    put_stop(&mut line, cause_name(cause), pc, steps)?;
    Ok(line)
}

/// The line for a run in which the symbol machine is stuck at the address `pc`.
pub fn stuck(alloc: Global, pc: u64, reason: Reason, steps: u64) -> Result<Vec<u8>, NoMemory>
    ensures { IfOk result (λ line. line.items ≡ stuck_line pc reason steps) }
{
    let mut line = Vec::from_slice(alloc, b"[stuck ")?;
    put_stop(&mut line, reason_name(reason), pc, steps)?;
    Ok(line)
}
