// The commands `lookup` and `frames`: a file is read completely, and the answers of its tables at an address are
// printed.
ghost use Rattle.std.specs.Prelude.{◌≤◌, IfErr, IfOk, length};
ghost use Rattle.rb_io.specs.Views.{SourceSeen};
ghost use Rattle.cli_base.specs.World.{world};
ghost use Rattle.program.specs.Limits.{file_limit};
ghost use Rattle.program.specs.Refusals.{IsRefusalFor};
ghost use Rattle.cli_look.specs.LookAnswers.{LookServes};
ghost use Rattle.cli_args.specs.Args.{lookup_given};
ghost use Rattle.cli_look.specs.LookingUp.{CannotLookUp, IsAnswerAt, looking_up};

use crate::question::{Question, answer};
use cli_args::LookupArgs;
use cli_base::{Status, read_file, refuse};
use program::{FILE_LIMIT, has_too_much_code};
use rb_bytes::fault::{Fault, FaultKind, Refusal};
use rb_bytes::limit::CODE_BYTES;
use rb_io::{Files, Put, Sink, print_all};
use std::alloc::Global;

// The answer to `question` at `address`, or the fault for which the file is refused.
fn answer_in(
    alloc: Global,
    file: &[u8],
    question: Question,
    address: u64,
) -> Result<Vec<u8>, Refusal>
    requires { length file.now ≤ file_limit }
    ensures answer { IfOk result (λ text. IsAnswerAt question address file.now text.items) }
    ensures fault { IfErr result (IsRefusalFor (CannotLookUp question file.now)) }
{
    let elf = elf_image::read(alloc, file)?;
    let text = answer(alloc, &elf, question, address)?;
    // `TooLarge` has the highest number, so it is only reported if no table has a fault.
    if has_too_much_code(&elf) {
        return Err(Refusal::Fault(Fault::at(FaultKind::TooLarge, CODE_BYTES)));
    }
    Ok(text)
}

/// Does `lookup`, or `frames`.
pub fn look_up<F: Files, O: Sink>(
    alloc: Global,
    args: &LookupArgs<'_>,
    question: Question,
    files: &mut F,
    out: &mut O,
) -> Status
    // For any standard input, which is unchanged.
    ensures { (input : SourceSeen) → LookServes (looking_up question (lookup_given args.now).address)
        (lookup_given args.now).file result
        (world (F.seen files.old) input (O.seen out.old)) (world (F.seen files.new) input (O.seen out.new)) }
{
    let file = match read_file(alloc, args.file, FILE_LIMIT, files, out) {
        Ok(file) => file,
        Err(answer) => return answer,
    };
    let text = match answer_in(alloc, &file, question, args.address) {
        Ok(text) => text,
        Err(refusal) => return refuse(alloc, refusal, out),
    };
    match print_all(out, &text) {
        Put::Took(_) => Status::Ok,
        Put::Failed => Status::WriteFault,
    }
}
