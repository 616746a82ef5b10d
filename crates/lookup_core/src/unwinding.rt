// How to unwind from an address.
ghost use Rattle.std.specs.Prelude.{◌≡◌, IfOk};
ghost use Rattle.std.specs.Option.{option_or};
ghost use Rattle.frame_rewrite.specs.Tables.{debug_says, eh_says};

use frame_rewrite::{DebugFrames, EhFrames, FrameAt};
use rb_bytes::fault::NoMemory;
use std::alloc::Global;
use table_core::ByAddress;

/// How to unwind from the address `a`. `.eh_frame` is asked first, and `.debug_frame` if that has no answer.
pub fn unwind_at(
    alloc: Global,
    eh: &EhFrames,
    df: &DebugFrames,
    a: u64,
) -> Result<Option<FrameAt>, NoMemory>
    ensures { IfOk result (λ frame. frame ≡ option_or (eh_says eh.now a) (debug_says df.now a)) }
{
    match eh.at(alloc, a)? {
        Some(frame) => Ok(Some(frame)),
        None => df.at(alloc, a),
    }
}
