// The bytes of the input that keep their offsets in a written file, or move with the segments after the executable one.
ghost use Rattle.std.specs.Prelude.{ℕ, ◌↔◌, ◌<◌, ◌+◌, IfOk, IsTrue};
ghost use Rattle.std.specs.List.{list_any};
ghost use Rattle.std.specs.List.Sorted.{IsNonDecreasingBy};
ghost use Rattle.elf_image.specs.internal.Extents.{IsInOneExtent};
ghost use Rattle.elf_plan.specs.Contents.{moves_with};

use crate::area::{Area, Shift, loads_end};
use crate::unwritable::Unwritable;
use elf_image::extent::{Extent, is_covered, reaches_of, sort_by_start};
use elf_image::segment::PT_LOAD;
use elf_image::{Section, Segment};
use rb_bytes::fault::NoMemory;
use std::alloc::Global;

/// The bytes of the input that keep their offsets in a written file, or move with the segments after the executable
/// one.
#[derive(Drop)]
pub struct KeptBytes {
    /// Bytes before this offset keep their offsets.
    pub front: u64,
    /// The ranges that move with a segment, sorted by start, each extended to the greatest end of the ranges up to it,
    /// so that one search decides whether a range of the list contains a given range.
    pub moved: Vec<Extent>,
    ghost rising: { IsNonDecreasingBy (λ s. s.start) moved.items },
    ghost growing: { IsNonDecreasingBy (λ s. s.end) moved.items },
}

impl KeptBytes {
    ghost use Rattle.std.specs.Prelude.{◌+◌, ◌<◌, ◌↔◌, IfOk, IsTrue};
    ghost use Rattle.elf_plan.specs.KeptBytes.{IsKeptBy, Keeps};

    /// The bytes that stay loaded around `area`: those before it, and those that move with a segment.
    pub fn new(
        alloc: Global,
        segments: &[Segment],
        area: &Area,
        shift: &Shift,
    ) -> Result<KeptBytes, Unwritable>
        ensures { IfOk result (Keeps segments.now area.now shift.now) }
    {
        if area.tight {
            return Ok(KeptBytes {
                front: loads_end(segments)?,
                moved: Vec::new(alloc),
            });
        }
        let mut moved = moved_ranges(alloc, segments, shift.from)?;
        sort_by_start(&mut moved)?;
        Ok(KeptBytes {
            front: shift.from,
            moved: reaches_of(alloc, &moved)?,
        })
    }

    /// Whether all bytes of `section` are among them.
    pub fn has(&self, section: &Section) -> bool
        ensures { IsTrue result ↔ IsKeptBy self.now.front self.now.moved.items section.now.offset
            (section.now.offset + section.now.size) }
    {
        let end = section.offset as u128 + section.size as u128;
        end <= self.front as u128 || is_covered(&self.moved, section.offset, end)
    }
}

// The file bytes of the loaded segments that start at or after the offset `from`.
fn moved_ranges(alloc: Global, segments: &[Segment], from: u64) -> Result<Vec<Extent>, NoMemory>
    ensures { IfOk result (λ ranges. (start end : ℕ) →
        IsTrue (list_any (moves_with from start end) segments.now) ↔ IsInOneExtent ranges.items start end) }
{
    let mut ranges = Vec::new(alloc);
    for p in segments {
        if p.kind == PT_LOAD && from <= p.offset {
            ranges.push(Extent {
                start: p.offset,
                end: p.offset as u128 + p.filesz as u128,
                place: 0,
            })?;
        }
    }
    Ok(ranges)
}
