// Whole frame tables. LSB, "The .eh_frame section"; DWARF 5, section 6.4.1.
ghost use Rattle.std.specs.Prelude.{◌≡◌, ◌≤◌, ◌-◌, ◌^◌, ◌++◌, IfOk, OnOk, All};
ghost use Rattle.std.specs.List.{IsDistinct};
ghost use Rattle.answer_runs.specs.AnswerRuns.{IsWithin};
ghost use Rattle.frame_rewrite.specs.SpelledFrames as spec;
ghost use Rattle.frame_rewrite.specs.SpelledFits.{KeyFits, RunAscends, IsSpelled};

use crate::answer::FrameAt;
use crate::cie_key::CieKey;
use crate::form::Form;
use crate::put_cie::put_cies;
use crate::put_fde::put_fdes;
use crate::spelling::put_zeros;
use addr_map::AddrMap;
use answer_runs::Run;
use rb_bytes::fault::NoMemory;
use std::alloc::Global;

// Appends what ends a table: in `.eh_frame` a length of 0.
fn put_end(out: &mut Vec<u8>, debug: bool) -> Result<(), NoMemory>
    ensures { OnOk result (out.new.items ≡ out.old.items ++ spec.end_mark debug) }
{
    if debug { Ok(()) } else { put_zeros(out, 4) }
}

/// A frame table in a form, made of runs; `keys` are the kinds of frames that they need.
pub(crate) fn written(
    alloc: Global,
    form: Form,
    keys: &[CieKey],
    map: &AddrMap,
    runs: &[Run<FrameAt>],
) -> Result<Vec<u8>, NoMemory>
    requires keys { All KeyFits keys.now }
    requires distinct { IsDistinct spec.is_key keys.now }
    requires within { IsWithin 0 runs.now (2 ^ 64 - 1) }
    requires before { All (λ r. spec.start_of map.now r ≤ r.start) runs.now }
    requires ascend { All RunAscends runs.now }
    ensures { IfOk result (λ bytes. IsSpelled form map.now keys.now runs.now bytes.items) }
{
    let mut out = Vec::new(alloc);
    let mut body = Vec::new(alloc);
    put_cies(&mut out, &mut body, form.is_debug(), keys)?;
    put_fdes(&mut out, &mut body, form, keys, map, runs)?;
    put_end(&mut out, form.is_debug())?;
    Ok(out)
}
