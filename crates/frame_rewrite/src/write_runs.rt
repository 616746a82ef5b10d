// The two tables, written of runs.
ghost use Rattle.std.specs.Prelude.{◌≡◌, ◌<◌, ◌-◌, ◌^◌, ℕ, All, IfOk};
ghost use Rattle.elf_image.specs.declared.elf.Elf.{Elf};
ghost use Rattle.rb_bytes.specs.FirstFault.{IsFree};
ghost use Rattle.answer_runs.specs.AnswerRuns.{IsWithin, run_at, carried};
ghost use Rattle.answer_runs.specs.CarriedAnswers.{IsCarried};
ghost use Rattle.cfi_rows.specs.Frames.{eh_frames, debug_frames};
ghost use Rattle.frame_rewrite.specs.CarriedFrames.{IsCarriedFrame};
ghost use Rattle.frame_rewrite.specs.Faults.{IsFrameFault};
ghost use Rattle.frame_rewrite.specs.Tables as spec;

use crate::answer::FrameAt;
use crate::debug::DebugFrames;
use crate::eh::EhFrames;
use crate::form::Form;
use crate::frames_address::frames_address;
use crate::kinds::keys_of;
use crate::put_table::written;
use addr_map::AddrMap;
use answer_runs::Run;
use rb_bytes::fault::NoMemory;
use std::alloc::Global;
use table_core::Written;

// Does nothing. Its clause says to the prover, at its calls, that a slice of bytes holds numbers below 256.
fn are_bytes(bytes: &[u8])
    ensures { All (λ b. b < 256) bytes.now }
{}

/// The new `.eh_frame`, made of runs; no bytes if the file has no such section.
pub(crate) fn write_eh(
    table: &EhFrames,
    alloc: Global,
    runs: &[Run<FrameAt>],
    map: &AddrMap,
) -> Result<Written, NoMemory>
    requires allowed { spec.EhAllows table.now map.now }
    requires fitting { spec.EhFits table.now map.now runs.now }
    requires within { IsWithin 0 runs.now (2 ^ 64 - 1) }
    requires answers { (p : ℕ) → run_at runs.now p ≡ carried (spec.eh_says table.now) map.now p }
    ensures law { IfOk result (λ w. (i f : Elf) → spec.EhComesFrom table.now i → spec.StandsEh i map.now w f →
        IsCarried (IsCarriedFrame map.now) map.now (run_at runs.now) (spec.eh_answers f)
        × IsFree (IsFrameFault (eh_frames f))) }
    ensures made { IfOk result (λ w. spec.EhMakes table.now map.now runs.now w) }
{
    let lists = Vec::new(alloc);
    if !table.has_section {
        return Ok(Written {
            bytes: Vec::new(alloc),
            lists,
        });
    }
    are_bytes(&table.frames.section);
    let keys = keys_of(alloc, map, runs)?;
    let form = Form::Loaded(frames_address(map));
    let bytes = written(alloc, form, &keys, map, runs)?;
    Ok(Written { bytes, lists })
}

/// The new `.debug_frame`, made of runs; no bytes if the old one is empty.
pub(crate) fn write_debug(
    table: &DebugFrames,
    alloc: Global,
    runs: &[Run<FrameAt>],
    map: &AddrMap,
) -> Result<Written, NoMemory>
    requires within { IsWithin 0 runs.now (2 ^ 64 - 1) }
    requires answers { (p : ℕ) → run_at runs.now p ≡ carried (spec.debug_says table.now) map.now p }
    ensures law { IfOk result (λ w. (f : Elf) → spec.StandsAs spec.debug_name w f →
        IsCarried (IsCarriedFrame map.now) map.now (run_at runs.now) (spec.debug_answers f)
        × IsFree (IsFrameFault (debug_frames f))) }
    ensures made { IfOk result (λ w. spec.DebugMakes table.now map.now w) }
{
    let lists = Vec::new(alloc);
    if table.frames.section.is_empty() {
        return Ok(Written {
            bytes: Vec::new(alloc),
            lists,
        });
    }
    are_bytes(&table.frames.section);
    let keys = keys_of(alloc, map, runs)?;
    let bytes = written(alloc, Form::Debug, &keys, map, runs)?;
    Ok(Written { bytes, lists })
}
