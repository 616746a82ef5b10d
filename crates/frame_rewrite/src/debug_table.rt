// What `.debug_frame` answers by address.
ghost use Rattle.frame_rewrite.specs.CarriedFrames.{IsCarriedFrame};
ghost use Rattle.frame_rewrite.specs.FrameAnswers.{FrameAnswer};
ghost use Rattle.frame_rewrite.specs.Faults.{IsFrameFault};
ghost use Rattle.frame_rewrite.specs.Tables as spec;
ghost use Rattle.cfi_rows.specs.Frames.{debug_frames};

use crate::answer::{FrameAt, most_size, size_of};
use crate::debug::DebugFrames;
use crate::lookup::{index_of, tell};
use crate::same::same_answer;
use crate::write_runs::write_debug;
use addr_map::AddrMap;
use answer_runs::Run;
use cfi_rows::frames;
use elf_image::Elf;
use rb_bytes::fault::{Fault, FaultKind, NoMemory, Refusal};
use std::alloc::Global;
use table_core::{AddrTable, ByAddress, Written};

impl ByAddress for DebugFrames {
    type Answer = FrameAt;

    type Near = ();

    ghost Meaning = { FrameAnswer };

    ghost said = { λ x. x };

    ghost says = { spec.debug_says };

    ghost is_near = { λ t near. Unit {0} };

    ghost means = { spec.debug_answers };

    ghost has = { λ elf. IsFrameFault (debug_frames elf) };

    ghost comes_from = { spec.DebugComesFrom };

    ghost allows = { spec.DebugAllows };

    ghost stands = { λ i spans w f. spec.StandsAs spec.debug_name w f };

    ghost carries = { IsCarriedFrame };

    ghost fits = { spec.DebugFits };

    ghost makes = { λ t spans runs w. spec.DebugMakes t spans w };

    ghost keeps = { λ i f. Unit {0} };

    ghost is_low = { λ t spans h. h };

    fn same(x: &FrameAt, y: &FrameAt) -> bool {
        same_answer(x, y)
    }

    fn begin(_alloc: Global) {}

    fn find(
        &self,
        alloc: Global,
        _near: &mut (),
        a: u64,
    ) -> Result<(Option<FrameAt>, u64), NoMemory> {
        let (told, last) = tell(alloc, &self.frames, &self.index, a)?;
        let Some(told) = told else {
            return Ok((None, last));
        };
        Ok((Some(told.answer(false)), last))
    }

    fn size(answer: &FrameAt) -> usize {
        size_of(answer)
    }

    fn most_size(&self) -> usize {
        most_size(self.file_size)
    }

    fn is_silent(&self) -> bool {
        self.frames.list.is_empty()
    }
}

impl AddrTable for DebugFrames {
    fn read(alloc: Global, elf: &Elf) -> Result<DebugFrames, Refusal> {
        let frames = frames(alloc, elf, true)?;
        if let Some(place) = frames.bad {
            return Err(Refusal::Fault(Fault::at(FaultKind::FrameFault, place)));
        }
        let index = index_of(alloc, &frames.list)?;
        Ok(DebugFrames {
            frames,
            index,
            file_size: elf.file.len(),
        })
    }

    fn write_runs(
        &self,
        alloc: Global,
        runs: &[Run<FrameAt>],
        map: &AddrMap,
    ) -> Result<Written, NoMemory> {
        write_debug(self, alloc, runs, map)
    }
}
