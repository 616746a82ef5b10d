// Finds the sections that contain the bytes of program headers that aren't loaded. These bytes move with their section.
ghost use Rattle.std.specs.Prelude.{◌≡◌, IfOk, map, slice_get, unwrap_or};
ghost use Rattle.elf_plan.specs.declared.sections.Contents.TheVariants.{Dropped};
ghost use Rattle.elf_plan.specs.HeaderPlaces.{can_hold};
ghost use Rattle.elf_plan.specs.Homes as spec;
ghost use Rattle.elf_plan.specs.LoadedRanges.{AreInOrder};

use crate::loaded_ranges::LoadedRanges;
use crate::range_tree::RangeTree;
use crate::sections::Contents;
use elf_image::extent::Extent;
use elf_image::section::SHT_NOBITS;
use elf_image::segment::PT_LOAD;
use elf_image::{Section, Segment};
use rb_bytes::fault::NoMemory;
use std::alloc::Global;

// Whether bytes of a header can move with a section: it isn't loaded, and its bytes are written after the loaded ones.
fn can_hold(contents: Contents, section: &Section) -> bool
    ensures { result ≡ can_hold contents section.now }
{
    contents.is_written() && !section.is_loaded() && section.kind != SHT_NOBITS
}

// The range of the section at `index`. It is empty if no header's bytes can move with the section.
fn extent_of(index: usize, contents: Contents, section: &Section) -> Extent
    ensures { result ≡ spec.extent_of index contents section.now }
{
    let (start, end) = if can_hold(contents, section) {
        (
            section.offset,
            section.offset as u128 + section.size as u128,
        )
    } else {
        (0, 0)
    };
    Extent {
        start,
        end,
        place: index as u64,
    }
}

// The position of the contents of the section at `index`, or Dropped if `contents` doesn't have it.
fn found_at(contents: &[Contents], index: usize) -> Contents
    ensures { result ≡ unwrap_or (slice_get contents.now index) Dropped }
{
    contents.get(index).copied().unwrap_or(Contents::Dropped)
}

// The ranges of all sections.
fn extents_of(
    alloc: Global,
    sections: &[Section],
    contents: &[Contents],
) -> Result<Vec<Extent>, NoMemory>
    ensures { IfOk result (λ extents. spec.AreExtents sections.now contents.now extents.items) }
{
    let mut extents = Vec::new(alloc);
    for index in 0..sections.len() {
        let found = found_at(contents, index);
        extents.push(extent_of(index, found, &sections[index]))?;
    }
    Ok(extents)
}

// The index of the first section whose range contains the bytes of the header `p`, if there are some and none is
// loaded.
fn first_for(loaded: &LoadedRanges, extents: &RangeTree, p: &Segment) -> Option<usize>
    requires { AreInOrder loaded.now.sorted.items loaded.now.reaches.items }
    ensures { result ≡ spec.first_for loaded.now.sorted.items extents.now p.now }
{
    if p.kind == PT_LOAD || p.filesz == 0 {
        return None;
    }
    let end = p.offset as u128 + p.filesz as u128;
    if loaded.has_one(p.offset, end) {
        return None;
    }
    let extent = extents.first(p.offset, end)?;
    Some(extent.place as usize)
}

// The result for each header.
fn all_first(
    alloc: Global,
    loaded: &LoadedRanges,
    extents: &RangeTree,
    segments: &[Segment],
) -> Result<Vec<Option<usize>>, NoMemory>
    requires { AreInOrder loaded.now.sorted.items loaded.now.reaches.items }
    ensures { IfOk result (λ homes. homes.items ≡ map (spec.first_for loaded.now.sorted.items extents.now)
        segments.now) }
{
    let mut homes = Vec::new(alloc);
    for p in segments {
        homes.push(first_for(loaded, extents, p))?;
    }
    Ok(homes)
}

/// For each program header that isn't loaded and has bytes, none of which a segment loads: the index of the first
/// section that contains all of them and is written after the loaded bytes. None for other headers.
pub fn homes_of(
    alloc: Global,
    segments: &[Segment],
    sections: &[Section],
    contents: &[Contents],
) -> Result<Vec<Option<usize>>, NoMemory>
    ensures { IfOk result (λ homes. spec.AreHomes segments.now sections.now contents.now homes.items) }
{
    let loaded = LoadedRanges::new(alloc, segments)?;
    let extents = extents_of(alloc, sections, contents)?;
    let tree = RangeTree::new(alloc, &extents)?;
    all_first(alloc, &loaded, &tree, segments)
}
