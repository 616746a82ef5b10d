// The bytes of a file that its segments load.
ghost use Rattle.std.specs.Prelude.{◌≡◌, ◌≤◌, ◌<◌, ℕ, All, IfOk, length, slice_index_or};
ghost use Rattle.std.specs.List.{list_any};
ghost use Rattle.std.specs.List.Sorted.{IsNonDecreasingBy};
ghost use Rattle.elf_image.specs.declared.extent.Extent.{Extent};
ghost use Rattle.elf_plan.specs.LoadedRanges as spec;

use crate::range_tree::sorted_reaches;
use elf_image::Segment;
use elf_image::extent::{Extent, count_from, is_covered, sort_by_start};
use elf_image::segment::PT_LOAD;
use rb_bytes::fault::NoMemory;
use std::alloc::Global;

/// The ranges of a file's bytes that its segments load.
#[derive(Drop)]
pub struct LoadedRanges {
    /// The ranges, sorted by start.
    pub sorted: Vec<Extent>,
    /// The same ranges, each extended to the greatest end of the ranges up to it.
    pub reaches: Vec<Extent>,
}

impl LoadedRanges {
    ghost use Rattle.std.specs.Prelude.{◌≡◌, ◌<◌, IfOk};
    ghost use Rattle.std.specs.List.{list_any};
    ghost use Rattle.elf_plan.specs.LoadedRanges.{AreInOrder, HaveLoaded, meets};

    /// The ranges that `segments` load.
    pub fn new(alloc: Global, segments: &[Segment]) -> Result<LoadedRanges, NoMemory>
        ensures order { IfOk result (λ loaded. AreInOrder loaded.sorted.items loaded.reaches.items) }
        ensures bytes { IfOk result (λ loaded. HaveLoaded segments.now loaded.sorted.items) }
    {
        let mut sorted = loaded_ranges(alloc, segments)?;
        sort_by_start(&mut sorted)?;
        let reaches = sorted_reaches(alloc, &sorted)?;
        Ok(LoadedRanges { sorted, reaches })
    }

    /// Whether at least one of the bytes from `start` to before `end` is loaded.
    pub fn has_one(&self, start: u64, end: u128) -> bool
        requires order { AreInOrder self.now.sorted.items self.now.reaches.items }
        requires some { start < end }
        ensures { result ≡ list_any (meets start end) self.now.sorted.items }
    {
        if is_covered(&self.reaches, start, start as u128 + 1) {
            return true;
        }
        let sorted = self.sorted.as_slice();
        count_from(sorted, start) < count_before(sorted, end)
    }
}

// The number of ranges that start below `end`.
fn count_before(ranges: &[Extent], end: u128) -> usize
    requires { IsNonDecreasingBy (λ s. s.start) ranges.now }
    ensures bound { result ≤ length ranges.now }
    ensures below { (k : ℕ) (d : Extent) → k < result → (slice_index_or ranges.now k d).start < end }
    ensures above { (k : ℕ) (d : Extent) → result ≤ k → k < length ranges.now →
        end ≤ (slice_index_or ranges.now k d).start }
{
    ranges.partition_point(|s| (s.start as u128) < end)
}

// One range for each segment that loads bytes of the file. Bytes after a segment's memory size aren't loaded.
fn loaded_ranges(alloc: Global, segments: &[Segment]) -> Result<Vec<Extent>, NoMemory>
    ensures full { IfOk result (λ ranges. All (λ s. s.start < s.end) ranges.items) }
    ensures bytes { IfOk result (λ ranges. spec.HaveLoaded segments.now ranges.items) }
{
    let mut ranges = Vec::new(alloc);
    for p in segments {
        let size = p.filesz.min(p.memsz);
        if p.kind == PT_LOAD && size > 0 {
            ranges.push(Extent {
                start: p.offset,
                end: p.offset as u128 + size as u128,
                place: 0,
            })?;
        }
    }
    Ok(ranges)
}
