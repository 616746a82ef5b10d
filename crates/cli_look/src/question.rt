// Questions to the tables of a file about an address.
ghost use Rattle.std.specs.Prelude.{◌≡◌, IfErr, IfOk, OnOk};
ghost use Rattle.rb_bytes.specs.FirstFault.{IsFree, IsRefusalBy};
ghost use Rattle.cli_look.specs.Questions.{HasFaultFor, answer_text};

use crate::frame_lines::frames_text;
use elf_image::Elf;
use inline_frames::frames;
use lookup_core::look;
use rb_bytes::fault::Refusal;
use std::alloc::Global;

/// A question to a file's tables about an address.
#[derive(Clone, Copy)]
pub enum Question {
    /// Everything that the tables say about the address.
    Report,
    /// The functions that contain the address, including inlined ones, and the source position in each.
    Frames,
}

/// The answer as lines; or the fault with the lowest number, of the tables that the question needs.
pub fn answer(
    alloc: Global,
    elf: &Elf<'_>,
    question: Question,
    address: u64,
) -> Result<Vec<u8>, Refusal>
    ensures text { IfOk result (λ text. text.items ≡ answer_text question address elf.now) }
    ensures sound { OnOk result (IsFree (HasFaultFor question elf.now)) }
    ensures fault { IfErr result (IsRefusalBy (HasFaultFor question elf.now)) }
{
    match question {
        Question::Report => {
            let report = look(alloc, elf, address)?;
            Ok(report.into_text())
        }
        Question::Frames => {
            let frames = frames(alloc, elf, address)?;
            let text = frames_text(alloc, &frames)?;
            Ok(text)
        }
    }
}
