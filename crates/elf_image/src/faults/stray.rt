// Sections with code that are outside all executable segments.
ghost use Rattle.std.specs.Prelude.{◌≢◌, ◌<◌, ◌+◌, ◌↔◌, ℕ, IsTrue, IfOk};
ghost use Rattle.std.specs.List.Sorted.{IsNonDecreasingBy};
ghost use Rattle.elf_image.specs.faults.Truncation.{IsReadable};
ghost use Rattle.elf_image.specs.file.Header.{e_shnum};
ghost use Rattle.elf_image.specs.faults.SegmentLayout.{IsStraySection, LiesInCode};
ghost use Rattle.elf_image.specs.file.Sections.{holds_code};
ghost use Rattle.elf_image.specs.faults.LowestPlace.{IsLowest, SomeBelow};
ghost use Rattle.elf_image.specs.internal.Extents.{IsInOneExtent};

use crate::entries::{SectionTable, SegmentTable};
use crate::extent::{Extent, is_covered, reaches_of, sort_by_start};
use crate::faults::segment_extents::{ExtentKind, segment_extents};
use crate::lowest::{lowest_below, place_if};
use crate::section::SectionHeader;
use rb_bytes::fault::NoMemory;
use std::alloc::Global;

/// The lowest place of a section with code that isn't inside an executable segment.
pub fn lowest_stray_section(alloc: Global, file: &[u8]) -> Result<Option<u64>, NoMemory>
    requires { IsReadable file.now }
    ensures { IfOk result (λ lowest. IsLowest (SomeBelow (e_shnum file.now) (IsStraySection file.now)) lowest) }
{
    let segments = SegmentTable { file };
    let mut codes = segment_extents(alloc, segments, ExtentKind::CodeAddresses)?;
    sort_by_start(&mut codes)?;
    let reaches = reaches_of(alloc, &codes)?;
    Ok(lowest_stray(SectionTable { file }, &reaches))
}

// Whether a section has code that no range covers. An empty section is always covered.
fn is_stray(reaches: &[Extent], section: &SectionHeader) -> bool
    requires rising { IsNonDecreasingBy (λ s. s.start) reaches.now }
    requires growing { IsNonDecreasingBy (λ s. s.end) reaches.now }
    ensures { IsTrue result
        ↔ (IsTrue (holds_code section.now.flags) × (section.now.size ≢ 0)
        × (IsInOneExtent reaches.now section.now.addr (section.now.addr + section.now.size) → ⊥)) }
{
    if section.size == 0 {
        return false;
    }
    let end = section.addr as u128 + section.size as u128;
    section.holds_code() && !is_covered(reaches, section.addr, end)
}

fn stray_section(headers: SectionTable, reaches: &[Extent], index: usize) -> Option<u64>
    requires index { index < e_shnum headers.file.now }
    requires rising { IsNonDecreasingBy (λ s. s.start) reaches.now }
    requires growing { IsNonDecreasingBy (λ s. s.end) reaches.now }
    requires covered { (a e : ℕ) → a < e → IsInOneExtent reaches.now a e ↔ LiesInCode headers.file.now a e }
    ensures { IsLowest (IsStraySection headers.entry.file.now index) result }
{
    let is_wrong = is_stray(reaches, &headers.section_of(index));
    place_if(is_wrong, headers.place(index))
}

fn lowest_stray(headers: SectionTable, reaches: &[Extent]) -> Option<u64>
    requires rising { IsNonDecreasingBy (λ s. s.start) reaches.now }
    requires growing { IsNonDecreasingBy (λ s. s.end) reaches.now }
    requires covered { (a e : ℕ) → a < e → IsInOneExtent reaches.now a e ↔ LiesInCode headers.file.now a e }
    ensures { IsLowest (SomeBelow (e_shnum headers.entry.file.now) (IsStraySection headers.entry.file.now)) result }
{
    lowest_below(
        headers.count(),
        |index| stray_section(headers, reaches, index),
    )
}
