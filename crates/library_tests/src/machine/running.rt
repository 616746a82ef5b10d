// Runs executables.
ghost use Rattle.elf_image.specs.faults.FileFaults.{IsSound};
ghost use Rattle.elf_image.specs.file.ParsedFile.{IsElfOf};

use elf_image::{Elf, read};
use rb_io::{MemSink, MemSource};
use rv_machine::{Machine, Ran, Stepped};
use std::alloc::Global;
use std::test::Fail;
use test_files::words::{file_in_words, hexadecimal, said};

/// The end of a run, and the bytes that it wrote.
#[derive(Drop)]
pub struct Run {
    pub ran: Ran,
    pub taken: Vec<u8>,
}

fn run_elf(
    alloc: Global,
    elf: &Elf,
    limit: u64,
    input: &mut MemSource,
    out: &mut MemSink,
) -> Result<Ran, Fail>
    requires read { IsElfOf elf.now.file.now elf.now }
    requires sound { IsSound elf.now.file.now }
{
    match Machine::load(alloc, elf, &[]) {
        Ok(mut machine) => Ok(machine.run(limit, input, out)),
        Err(_) => Err(Fail::new("no memory")),
    }
}

// The number in the line that begins with `name`.
fn number(words: &str, name: &str, default: u64) -> Result<u64, Fail> {
    match said(words, name) {
        Some(digits) => Ok(hexadecimal(digits)?),
        None => Ok(default),
    }
}

/// Runs a file from its description, with lines for its input (`input TEXT`), the limit of its steps, the read or write
/// that fails (`fail input NUMBER`, `fail out NUMBER`), and the room for its output (`room out SIZE`).
pub fn run_in_words(alloc: Global, words: &str) -> Result<Run, Fail> {
    let file = file_in_words(alloc, words)?;
    let bytes = Vec::from_slice(alloc, said(words, "input ").unwrap_or("").as_bytes())?;
    let fail = number(words, "fail input ", 0)?;
    let mut input = MemSource::new(bytes, Vec::from_slice(alloc, &[fail])?);
    let fail = number(words, "fail out ", 0)?;
    let room = number(words, "room out ", 0x1_0000)? as usize;
    let mut out = MemSink::new(alloc, room, Vec::from_slice(alloc, &[fail])?)?;
    let limit = number(words, "limit ", 10_000)?;
    let ran = match read(alloc, &file) {
        Ok(elf) => run_elf(alloc, &elf, limit, &mut input, &mut out)?,
        Err(_) => return Err(Fail::new("refused")),
    };
    let taken = Vec::from_slice(alloc, out.taken())?;
    Ok(Run { ran, taken })
}

/// The end of a run, with the pc of a trap, the number of steps, and the output, in hexadecimal.
pub fn show(alloc: Global, run: &Run) -> Result<String, Fail> {
    let steps = run.ran.steps;
    let mut shown = match run.ran.end {
        Stepped::Trap(pc, cause) => format!(in alloc; "Trap {pc:x} {cause:?} {steps}")?,
        end => format!(in alloc; "{end:?} {steps}")?,
    };
    if !run.taken.is_empty() {
        shown.push(' ')?;
    }
    for byte in &run.taken {
        shown.push_str(&format!(in alloc; "{byte:02x}")?)?;
    }
    Ok(shown)
}
