// The new area, and the new positions of the input's loaded bytes.
ghost use Rattle.std.specs.Prelude.{◌≡◌, ◌+◌, ◌^◌, ◌<◌, ℕ, IfOk, Some};
ghost use Rattle.elf_image.specs.memory.Break.{rounded_up};
ghost use Rattle.elf_image.specs.memory.CodeSegment.{executable_segment, executable_end};
ghost use Rattle.elf_plan.specs.Area as spec;

use crate::round::{checked_rounded_up, in_64_bits, sum};
use crate::unwritable::Unwritable;
use elf_image::Segment;
use elf_image::segment::PT_LOAD;
use file_room::{area_start_of, greatest_align, new_segment_start};
use rb_bytes::fault::NoMemory;

// The alignments of the unwind table and of its index. `elf_make` uses the same ones.
const FRAMES_ALIGN: u64 = 8;

const INDEX_ALIGN: u64 = 4;

/// The new area: the new code, followed by the loaded tables.
#[derive(Clone, Copy)]
pub struct Area {
    /// Whether the area has its own segment, since there is not enough room after the executable one.
    pub tight: bool,
    /// The address of the segment with the area.
    pub address: u64,
    /// The offset of that segment in the written file.
    pub offset: u64,
    /// The addresses at which the new code starts and ends.
    pub start: u64,
    pub code_end: u64,
    /// The addresses of the unwind table and of its index, if there are such tables.
    pub frames: Option<u64>,
    pub index: Option<u64>,
    /// The address at which the area ends.
    pub end: u64,
}

impl Area {
    ghost use Rattle.elf_plan.specs.Area.{area_offset};

    /// The offset in the written file of the byte at `address` of the area.
    pub fn offset_of(&self, address: u64) -> Result<u64, Unwritable>
        ensures { IfOk result (λ offset. offset ≡ area_offset self.now address) }
    {
        sum(self.offset, address.saturating_sub(self.address))
    }
}

fn has_file_bytes(p: &Segment) -> bool
    ensures { result ≡ spec.has_file_bytes p.now }
{
    p.kind == PT_LOAD && p.filesz > 0
}

// The offset at which the bytes of a segment end in the file.
fn file_end_of(p: &Segment) -> u128
    ensures end { result ≡ spec.file_end_of p.now }
    ensures low { result < 2 ^ 65 }
{
    p.offset as u128 + p.filesz as u128
}

/// The greatest offset at which the bytes of a loaded segment end in the file, or 0 if no segment has bytes.
pub fn loads_end(segments: &[Segment]) -> Result<u64, Unwritable>
    ensures { IfOk result (λ end. end ≡ spec.loads_end segments.now) }
{
    let mut end: u128 = 0;
    for p in segments {
        if has_file_bytes(p) {
            end = end.max(file_end_of(p));
        }
    }
    in_64_bits(end)
}

/// The lowest offset, from `offset` on, at which a loaded segment's bytes start in the file.
pub fn lowest_behind(segments: &[Segment], offset: u64) -> Option<u64>
    ensures { result ≡ spec.lowest_behind offset segments.now }
{
    let mut low: Option<u64> = None;
    for p in segments {
        if has_file_bytes(p) && offset <= p.offset {
            low = match low {
                Some(low) => Some(p.offset.min(low)),
                None => Some(p.offset),
            };
        }
    }
    low
}

// The address of the segment with the area.
fn segment_address(segments: &[Segment], code: &Segment, tight: bool) -> Result<u64, Unwritable>
    requires { code.now ≡ spec.code_segment segments.now }
    ensures { IfOk result (λ address. address ≡ spec.segment_address segments.now tight) }
{
    if tight {
        in_64_bits(new_segment_start(segments))
    } else {
        Ok(code.vaddr)
    }
}

// The offset of the segment with the area in the written file.
fn segment_offset(segments: &[Segment], code: &Segment, tight: bool) -> Result<u64, Unwritable>
    requires { code.now ≡ spec.code_segment segments.now }
    ensures { IfOk result (λ offset. offset ≡ spec.segment_offset segments.now tight) }
{
    if tight {
        checked_rounded_up(greatest_align(segments), loads_end(segments)?)
    } else {
        Ok(code.offset)
    }
}

// The start of a table after `end`, or None if there is no table.
fn table_start(align: u64, end: u64, size: Option<usize>) -> Result<Option<u64>, Unwritable>
    requires { 0 < align }
    ensures { IfOk result (λ start. start ≡ spec.table_start align end size) }
{
    match size {
        Some(_) => Ok(Some(checked_rounded_up(align, end)?)),
        None => Ok(None),
    }
}

// The end of a table after `end`, or `end` if there is no table.
fn table_end(align: u64, end: u64, size: Option<usize>) -> Result<u64, Unwritable>
    requires { 0 < align }
    ensures { IfOk result (λ after. after ≡ spec.table_end align end size) }
{
    match size {
        Some(size) => sum(checked_rounded_up(align, end)?, size as u64),
        None => Ok(end),
    }
}

/// The area for `code` bytes of new code, followed by an unwind table of `frames` bytes and its index of `index` bytes,
/// if these are given. `executable` is the executable segment. `tight` says whether the area gets its own segment.
pub fn area_of(
    segments: &[Segment],
    executable: &Segment,
    tight: bool,
    code: usize,
    frames: Option<usize>,
    index: Option<usize>,
) -> Result<Area, Unwritable>
    requires { executable.now ≡ spec.code_segment segments.now }
    ensures { IfOk result (λ area. area ≡ spec.area_of segments.now tight code frames index) }
{
    let start = area_start_of(segments, tight).ok_or(Unwritable::Layout)?;
    let code_end = sum(start, code as u64)?;
    let frames_end = table_end(FRAMES_ALIGN, code_end, frames)?;
    Ok(Area {
        tight,
        address: segment_address(segments, executable, tight)?,
        offset: segment_offset(segments, executable, tight)?,
        start,
        code_end,
        frames: table_start(FRAMES_ALIGN, code_end, frames)?,
        index: table_start(INDEX_ALIGN, frames_end, index)?,
        end: table_end(INDEX_ALIGN, frames_end, index)?,
    })
}

/// The addresses that `area_of` gives to an unwind table of `frames` bytes and its index, after `code` bytes of new
/// code from `start` on. `NoMemory` if an address doesn't fit 64 bits.
pub fn table_places(start: u64, code: usize, frames: usize) -> Result<(u64, u64), NoMemory>
    ensures frames { IfOk result (λ places. spec.table_start 8 (start + code) (Some frames) ≡ Some places.0) }
    ensures index { IfOk result (λ places. (index : ℕ) →
        spec.table_start 4 (spec.table_end 8 (start + code) (Some frames)) (Some index) ≡ Some places.1) }
{
    places_behind(start, code, frames).map_err(|_| NoMemory)
}

fn places_behind(start: u64, code: usize, frames: usize) -> Result<(u64, u64), Unwritable>
    ensures frames { IfOk result (λ places. rounded_up 8 (start + code) ≡ places.0) }
    ensures index { IfOk result (λ places. rounded_up 4 (rounded_up 8 (start + code) + frames) ≡ places.1) }
{
    let at = checked_rounded_up(FRAMES_ALIGN, sum(start, code as u64)?)?;
    let index_at = checked_rounded_up(INDEX_ALIGN, sum(at, frames as u64)?)?;
    Ok((at, index_at))
}

/// The positions of the input's bytes in the written file: the bytes from the offset `from` on move up by `by` bytes.
#[derive(Clone, Copy)]
pub struct Shift {
    /// The offset at which the executable segment ends in the input.
    pub from: u64,
    /// The distance: a multiple of the greatest alignment of a segment, or 0.
    pub by: u64,
}

impl Shift {
    ghost use Rattle.elf_plan.specs.Area.{code_segment, moved_by, shift_of};

    /// The distance that makes room for `area` before the bytes after the executable segment.
    pub fn new(segments: &[Segment], executable: &Segment, area: &Area) -> Result<Shift, Unwritable>
        requires { executable.now ≡ code_segment segments.now }
        ensures { IfOk result (λ shift. shift ≡ shift_of segments.now area.now) }
    {
        let from = sum(executable.offset, executable.filesz)?;
        Ok(Shift {
            from,
            by: step_of(segments, from, area)?,
        })
    }

    /// The new offset of the byte at `offset`, which may have more than 64 bits.
    pub fn reach(&self, offset: u64) -> u128
        ensures is { result ≡ moved_by self.now.from self.now.by offset }
        ensures low { result < 2 ^ 65 }
    {
        if self.from <= offset {
            offset as u128 + self.by as u128
        } else {
            offset as u128
        }
    }

    /// The new offset of the byte at `offset`, or `Layout` if it doesn't fit 64 bits.
    pub fn moved(&self, offset: u64) -> Result<u64, Unwritable>
        ensures { IfOk result (λ o. o ≡ moved_by self.now.from self.now.by offset) }
    {
        if self.from <= offset {
            sum(offset, self.by)
        } else {
            Ok(offset)
        }
    }
}

// The distance by which the bytes from the offset `from` on move, so that `area` ends before the first loaded one.
fn step_of(segments: &[Segment], from: u64, area: &Area) -> Result<u64, Unwritable>
    requires { from ≡ spec.code_file_end segments.now }
    ensures { IfOk result (λ step. step ≡ spec.step_of segments.now area.now) }
{
    if area.tight {
        return Ok(0);
    }
    match lowest_behind(segments, from) {
        Some(low) => {
            let end = area.offset_of(area.end)?;
            checked_rounded_up(greatest_align(segments), end.saturating_sub(low))
        }
        None => Ok(0),
    }
}
