// Checking the three files of `verify`, one after another.
ghost use Rattle.std.specs.Prelude.{◌≡◌, ℕ, List, IfErr, IfOk};
ghost use Rattle.program.specs.Limits.{file_limit};
ghost use Rattle.program.specs.Program.{program_seen};
ghost use Rattle.program.specs.Refusals.{IsRefusalFor};
ghost use Rattle.map_check.specs.FirstFalse.{IsVerdict};
ghost use Rattle.rb_bytes.specs.declared.fault.Refusal.TheVariants as refusal;
ghost use Rattle.cli_base.specs.ImageFiles.{IsNoImage};
ghost use Rattle.cli_base.specs.ProgramFiles.{IsFileProgram, IsNoProgram};
ghost use Rattle.cli_base.specs.WithinLimit.{AreBytesGiven, FitsLimit};
ghost use Rattle.cli_check.specs.GivenFiles.{map_limit};
ghost use Rattle.cli_check.specs.Judged.{AreFilesGiven, IsJudged};
ghost use Rattle.cli_check.specs.VerifiedFiles.{IsOutputFile, claim_of};

use crate::given::Given;
use cli_base::{file_image, file_program};
use elf_image::Elf;
use map_check::{Verdict, check};
use program::{Program, is_tight};
use rb_bytes::fault::{Fault, FaultKind, NoMemory, Refusal};
use rb_bytes::limit::{FILE_BYTES, MAP_BYTES};
use std::alloc::Global;

/// The result of checking the files.
#[derive(Clone, Copy)]
pub enum Judged {
    /// No file is refused, and this is the verdict on them.
    Verdict(Verdict),
    /// The input is refused, or the map.
    Refused(Fault),
    /// The output is refused.
    RefusedOutput(Fault),
}

// The verdict on an input's program, an output and the text of a map.
fn verdict(
    alloc: Global,
    program: &Program<'_>,
    output: &Elf<'_>,
    map: &[u8],
) -> Result<Verdict, NoMemory>
    requires program { IsFileProgram program.now.elf.file.now (program_seen program.now) }
    requires output { IsOutputFile output.now.file.now output.now }
    ensures { IfOk result (IsVerdict (claim_of (program_seen program.now) output.now map.now)) }
{
    let tight = is_tight(alloc, program)?;
    check(
        alloc,
        &program.elf,
        &program.funcs,
        &program.refs,
        tight,
        output,
        map,
    )
}

// An output, or why it is refused. Only the bytes that it loads matter, so it is read as an image.
fn read_output<'file>(alloc: Global, file: &'file Option<Vec<u8>>) -> Result<Elf<'file>, Refusal>
    requires { FitsLimit file_limit file.now }
    ensures output { IfOk result (λ elf. IsOutputFile elf.file.now elf) }
    ensures same { (bytes : List ℕ) → AreBytesGiven file_limit file.now bytes →
        IfOk result (λ elf. elf.file.now ≡ bytes) }
    ensures refused { (bytes : List ℕ) → AreBytesGiven file_limit file.now bytes →
        IfErr result (IsRefusalFor (IsNoImage bytes)) }
{
    match file {
        Some(bytes) => file_image(alloc, bytes),
        None => Err(Refusal::Fault(Fault::at(FaultKind::TooLarge, FILE_BYTES))),
    }
}

// An input with its code, or why it is refused.
fn read_input<'file>(alloc: Global, file: &'file Option<Vec<u8>>) -> Result<Program<'file>, Refusal>
    requires { FitsLimit file_limit file.now }
    ensures input { IfOk result (λ program. IsFileProgram program.elf.file.now (program_seen program)) }
    ensures same { (bytes : List ℕ) → AreBytesGiven file_limit file.now bytes →
        IfOk result (λ program. program.elf.file.now ≡ bytes) }
    ensures refused { (bytes : List ℕ) → AreBytesGiven file_limit file.now bytes →
        IfErr result (IsRefusalFor (IsNoProgram bytes)) }
{
    match file {
        Some(bytes) => file_program(alloc, bytes),
        None => Err(Refusal::Fault(Fault::at(FaultKind::TooLarge, FILE_BYTES))),
    }
}

// The fault of a refusal, or `NoMemory` if the refusal is that memory ran out.
fn fault_of(answer: Refusal) -> Result<Fault, NoMemory>
    ensures { IfOk result (λ fault. answer ≡ refusal.Fault fault) }
{
    match answer {
        Refusal::Fault(fault) => Ok(fault),
        Refusal::Memory => Err(NoMemory),
    }
}

// Checks an output and a map against an input that was read with its code.
fn judge_output(alloc: Global, program: &Program<'_>, given: &Given) -> Result<Judged, NoMemory>
    requires program { IsFileProgram program.now.elf.file.now (program_seen program.now) }
    requires output { FitsLimit file_limit given.now.output }
    ensures { (output map : List ℕ) → AreBytesGiven file_limit given.now.output output →
        AreBytesGiven map_limit given.now.map map → IfOk result (IsJudged program.now.elf.file.now output map) }
{
    let output = match read_output(alloc, &given.output) {
        Ok(output) => output,
        Err(refusal) => return Ok(Judged::RefusedOutput(fault_of(refusal)?)),
    };
    match &given.map {
        Some(map) => {
            let found = verdict(alloc, program, &output, map)?;
            Ok(Judged::Verdict(found))
        }
        None => Ok(Judged::Refused(Fault::at(FaultKind::TooLarge, MAP_BYTES))),
    }
}

/// Checks the three files: the input first, then the output, then the length of the map, and then the map.
pub fn judge(alloc: Global, given: &Given) -> Result<Judged, NoMemory>
    requires input { FitsLimit file_limit given.now.input }
    requires output { FitsLimit file_limit given.now.output }
    ensures { (input output map : List ℕ) → AreFilesGiven given.now input output map →
        IfOk result (IsJudged input output map) }
{
    match read_input(alloc, &given.input) {
        Ok(program) => judge_output(alloc, &program, given),
        Err(refusal) => Ok(Judged::Refused(fault_of(refusal)?)),
    }
}
