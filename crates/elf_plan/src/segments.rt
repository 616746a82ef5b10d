// The program headers of a written file. gABI, "Program Header".
ghost use Rattle.std.specs.Prelude.{◌≡◌, ◌≤◌, ◌<◌, ◌-◌, ◌^◌, ℕ, IfOk, IsTrue, length, slice_index_or, true, false};
ghost use Rattle.elf_image.specs.declared.segment.Segment.{Segment};
ghost use Rattle.elf_image.specs.memory.Image.{is_load};
ghost use Rattle.elf_plan.specs.Area.{area_offset};
ghost use Rattle.elf_plan.specs.HeaderPlaces.{index_for, leaves_area, named};
ghost use Rattle.elf_plan.specs.NewSegments as spec;

use crate::area::{Area, Shift};
use crate::homes::homes_of;
use crate::round::sum;
use crate::sections::Contents;
use crate::unwritable::Unwritable;
use elf_image::segment::{PF_R, PF_X, PHDR_SIZE, PT_GNU_EH_FRAME, PT_LOAD};
use elf_image::{Elf, Segment};
use file_room::{greatest_align, rounded_up};
use std::alloc::Global;

/// The type of the program header for the table of program headers. gABI, "Program Header".
pub const PT_PHDR: u32 = 6;

/// Values that the program headers of a written file depend on.
#[derive(Clone, Copy)]
pub struct Places<'a> {
    pub elf: &'a Elf<'a>,
    pub area: Area,
    pub shift: Shift,
    /// The offset of the table of program headers in the written file.
    pub table_at: u64,
    /// The positions of the contents of the input's sections.
    pub contents: &'a [Contents],
    /// The offsets of the written file's sections. Those of the input come first.
    pub sections_at: &'a [u64],
    /// The size of the unwind table's index, or 0 if there is none.
    pub index_size: u64,
    /// The size of the written file.
    pub file_size: u64,
}

// The header `p`, for `size` bytes of the area from `address` on.
fn at_area(p: &Segment, area: &Area, address: u64, size: u64) -> Result<Segment, Unwritable>
    ensures kind { IfOk result (λ q. q.kind ≡ p.now.kind) }
    ensures flags { IfOk result (λ q. q.flags ≡ p.now.flags) }
    ensures align { IfOk result (λ q. q.align ≡ p.now.align) }
    ensures is { IfOk result (λ q. q ≡ named area.now address size p.now) }
{
    Ok(Segment {
        offset: area.offset_of(address)?,
        vaddr: address,
        paddr: address,
        filesz: size,
        memsz: size,
        ..*p
    })
}

// The executable segment `p`, extended to `end`, where the area ends.
fn grown(p: &Segment, end: u64) -> Segment
    requires { p.now.vaddr ≤ end }
    ensures { result ≡ spec.grown end p.now }
{
    let size = end - p.vaddr;
    Segment {
        filesz: size,
        memsz: size,
        ..*p
    }
}

// Whether the segment `p` can grow up to the address `end`: all its memory is from the file, it ends at or before
// `end`, and its bytes aren't among those that move, from the offset `from` on.
fn can_grow(p: &Segment, from: u64, end: u64) -> bool
    ensures { IsTrue result → spec.CanGrow from end p.now }
{
    p.memsz == p.filesz
        && p.vaddr as u128 + p.memsz as u128 <= end as u128
        && (p.filesz == 0 || p.offset < from)
}

// Whether `size` bytes from the offset `start` on start before the area's end, at the offset `end`, and end after it.
// In a tight file no bytes move, so the result is false.
fn leaves_area(area: &Area, end: u64, start: u128, size: u64) -> bool
    requires end { end ≡ area_offset area.now area.now.end }
    requires low { start < 2 ^ 65 }
    ensures is { result ≡ leaves_area area.now start size }
    ensures before { IsTrue result → start < end }
{
    !area.tight && start < end as u128 && (end as u128) < start + size as u128
}

// The address of the new unwind table's index, if there is one and the header `p` refers to it.
fn index_for(area: &Area, p: &Segment) -> Option<u64>
    ensures { result ≡ index_for area.now p.now }
{
    if p.kind == PT_GNU_EH_FRAME {
        area.index
    } else {
        None
    }
}

impl<'a> Places<'a> {
    ghost use Rattle.std.specs.Prelude.{◌+◌, ◌*◌, IsTrue, if◌then◌else◌, length, option_map, slice_get, unwrap_or};
    ghost use Rattle.std.specs.Option.{option_map_or};
    ghost use Rattle.elf_plan.specs.HeaderPlaces.{beside, moved_header, names_table, new_header, place_behind};
    ghost use Rattle.elf_plan.specs.HeaderPlaces.{place_in};
    ghost use Rattle.elf_plan.specs.PlacedHeaders.{AreMade, AreNewEach, outline};
    ghost use Rattle.elf_plan.specs.NewSegments.{AreNewHeaders, AreRenewed, CanGrow, CanGrowAt, IsRenewed};
    ghost use Rattle.elf_plan.specs.NewSegments.{area_segment, grown, grows_at};
    ghost use Rattle.file_room.specs.Room.{greatest_align};
    ghost use Rattle.std.specs.Prelude.{◌≡◌, ◌≤◌, ◌<◌, ◌&&◌, not, IfOk, true, false};
    ghost use Rattle.elf_image.specs.declared.segment.TheConstants.{PT_LOAD};
    ghost use Rattle.elf_plan.specs.Area.{moved_by};

    // The size of a table of program headers with one more header than the input has.
    fn table_size(&self) -> Result<u64, Unwritable>
        ensures { IfOk result (λ size. size ≡ 56 * (length self.now.elf.now.segments.items + 1)) }
    {
        let count = self.elf.segments.len() as u64;
        let count = sum(count, 1)?;
        count
            .checked_mul(PHDR_SIZE as u64)
            .ok_or(Unwritable::Layout)
    }

    // The offset in the written file of the section at `index`.
    fn section_at(&self, index: usize) -> u64
        ensures { result ≡ unwrap_or (slice_get self.now.sections_at.now index) 0 }
    {
        self.sections_at.get(index).copied().unwrap_or(0)
    }

    // The offset in the input of the section at `index`.
    fn old_section_at(&self, index: usize) -> u64
        ensures { result ≡ option_map_or (λ s. s.offset) (slice_get self.now.elf.now.sections.items index) 0 }
    {
        match self.elf.sections.get(index) {
            Some(section) => section.offset,
            None => 0,
        }
    }

    // The offset of the bytes of the header `p` in the written file: in the section at `home`, at the same distance
    // from its start as in the input.
    fn place_in(&self, p: &Segment, home: usize) -> Result<u64, Unwritable>
        ensures { IfOk result (λ o. o ≡ place_in self.now.elf.now.sections.items self.now.sections_at.now p.now home) }
    {
        let before = p.offset.saturating_sub(self.old_section_at(home));
        sum(self.section_at(home), before)
    }

    // The new offset of the bytes of the header `p`, which no section contains: they move with the loaded bytes, are
    // put after the area if they would start in it and end after it, and never are after the end of the file.
    fn beside(&self, p: &Segment, align: u64) -> Result<u64, Unwritable>
        requires { 0 < align }
        ensures { IfOk result (λ o. o ≡ beside (outline self.now) align p.now) }
    {
        let end = self.area.offset_of(self.area.end)?;
        let mut at = self.shift.reach(p.offset);
        if leaves_area(&self.area, end, at, p.filesz) {
            at += rounded_up(align, end as u128 - at);
        }
        Ok(at.min(self.file_size as u128) as u64)
    }

    // Whether the header `p` refers to the table of program headers: it has type PT_PHDR, and the table doesn't start
    // in the area and end after it.
    fn names_table(&self, p: &Segment) -> Result<bool, Unwritable>
        ensures { IfOk result (λ names. names ≡ names_table (outline self.now) p.now) }
    {
        let end = self.area.offset_of(self.area.end)?;
        Ok(p.kind == PT_PHDR && !leaves_area(&self.area, end, self.table_at as u128, p.filesz))
    }

    // The new offset of the bytes of the header `p`, which are at or after the executable segment's end. `home` is the
    // section that they move with.
    fn place_behind(&self, p: &Segment, home: Option<usize>, align: u64) -> Result<u64, Unwritable>
        requires { 0 < align }
        ensures load { IfOk result (λ o. p.now.kind ≡ PT_LOAD → 0 < p.now.filesz →
            o ≡ moved_by self.now.shift.from self.now.shift.by p.now.offset) }
        ensures is { IfOk result (λ o. o ≡ place_behind (outline self.now) align
            (option_map (place_in self.now.elf.now.sections.items self.now.sections_at.now p.now) home) p.now) }
    {
        if p.kind == PT_LOAD && p.filesz > 0 {
            return self.shift.moved(p.offset);
        }
        if self.names_table(p)? {
            return Ok(self.table_at);
        }
        match home {
            Some(home) => self.place_in(p, home),
            None => self.beside(p, align),
        }
    }

    // The header `p`, which isn't for a part of the area, with the new offset of its bytes.
    fn moved_header(
        &self,
        p: &Segment,
        home: Option<usize>,
        align: u64,
    ) -> Result<Segment, Unwritable>
        requires { 0 < align }
        ensures renewed { IfOk result (IsRenewed self.now.shift.from self.now.shift.by self.now.area.end
            self.now.area.tight false
            p.now) }
        ensures is { IfOk result (λ q. q ≡ moved_header (outline self.now) align
            (option_map (place_in self.now.elf.now.sections.items self.now.sections_at.now p.now) home) p.now) }
    {
        if self.shift.from <= p.offset {
            return Ok(Segment {
                offset: self.place_behind(p, home, align)?,
                ..*p
            });
        }
        Ok(*p)
    }

    // The input's program header `p` in the written file. `is_code` says whether it is that of the executable segment.
    fn renewed(
        &self,
        p: &Segment,
        is_code: bool,
        home: Option<usize>,
        align: u64,
    ) -> Result<Segment, Unwritable>
        requires align { 0 < align }
        requires grows { is_code ≡ true → self.now.area.tight ≡ false →
            CanGrow self.now.shift.from self.now.area.end p.now }
        requires greatest { align ≡ greatest_align self.now.elf.now.segments.items }
        ensures renewed { IfOk result (IsRenewed self.now.shift.from self.now.shift.by self.now.area.end
            self.now.area.tight
            (not self.now.area.tight && is_code) p.now) }
        ensures is { IfOk result (λ q. q ≡ (if not self.now.area.tight && is_code
            then grown self.now.area.end p.now
            else new_header self.now.elf.now.segments.items (outline self.now)
            (option_map (place_in self.now.elf.now.sections.items self.now.sections_at.now p.now) home) p.now)) }
    {
        if is_code && !self.area.tight {
            return Ok(grown(p, self.area.end));
        }
        if p.kind == PT_PHDR && self.area.tight {
            return at_area(p, &self.area, self.area.address, self.table_size()?);
        }
        if let Some(index) = index_for(&self.area, p) {
            return at_area(p, &self.area, index, self.index_size);
        }
        self.moved_header(p, home, align)
    }

    // All headers of the input in the written file. `code` is the index of the executable segment's header.
    fn all_renewed(&self, alloc: Global, code: usize) -> Result<Vec<Segment>, Unwritable>
        requires { CanGrowAt self.now.shift.from self.now.area.end self.now.area.tight code
            self.now.elf.now.segments.items }
        ensures renewed { IfOk result (λ qs. AreRenewed self.now.shift.from self.now.shift.by self.now.area.end
            self.now.area.tight (grows_at self.now.area.tight code) self.now.elf.now.segments.items qs.items) }
        ensures each { IfOk result (λ qs. AreNewEach self.now code qs.items) }
    {
        let align = greatest_align(&self.elf.segments);
        let homes = homes_of(alloc, &self.elf.segments, &self.elf.sections, self.contents)?;
        let mut segments = Vec::new(alloc);
        for i in 0..self.elf.segments.len() {
            let renewed = self.renewed(&self.elf.segments[i], i == code, homes[i], align)?;
            segments.push(renewed)?;
        }
        Ok(segments)
    }

    /// All program headers of the written file. A header for the area's own segment, if there is one, follows the last
    /// PT_LOAD. `code` is the index of the executable segment's header in the input.
    pub fn segments(&self, alloc: Global, code: usize) -> Result<Vec<Segment>, Unwritable>
        requires grows { CanGrowAt self.now.shift.from self.now.area.end self.now.area.tight code
            self.now.elf.now.segments.items }
        requires ordered { self.now.area.address ≤ self.now.area.end }
        ensures { IfOk result (λ qs. AreMade self.now code qs.items) }
    {
        let mut segments = self.all_renewed(alloc, code)?;
        if !self.area.tight {
            return Ok(segments);
        }
        let at = loads_count(&self.elf.segments);
        segments.insert(at, self.area_segment())?;
        Ok(segments)
    }

    /// Whether the executable segment, whose header has the index `code`, can grow to the area's end, if it has to.
    pub fn can_grow(&self, code: usize) -> bool
        ensures grows { IsTrue result → CanGrowAt self.now.shift.from self.now.area.end self.now.area.tight code
            self.now.elf.now.segments.items }
        ensures ordered { IsTrue result → self.now.area.address ≤ self.now.area.end }
    {
        if self.area.end < self.area.address {
            return false;
        }
        match self.elf.segments.get(code) {
            Some(p) => self.area.tight || can_grow(p, self.shift.from, self.area.end),
            None => false,
        }
    }

    // The header of the area's own segment, which is readable and executable.
    fn area_segment(&self) -> Segment
        requires { self.now.area.address ≤ self.now.area.end }
        ensures { result ≡ area_segment self.now.area (greatest_align self.now.elf.now.segments.items) }
    {
        let size = self.area.end - self.area.address;
        Segment {
            kind: PT_LOAD,
            flags: PF_R + PF_X,
            offset: self.area.offset,
            vaddr: self.area.address,
            paddr: self.area.address,
            filesz: size,
            memsz: size,
            align: greatest_align(&self.elf.segments),
        }
    }
}

// The number of headers up to and including the last PT_LOAD.
fn loads_count(segments: &[Segment]) -> usize
    ensures within { result ≤ length segments.now }
    ensures behind { (k : ℕ) (d : Segment) → result ≤ k → k < length segments.now →
        is_load (slice_index_or segments.now k d) ≡ false }
    ensures last { 0 < result → (d : Segment) → is_load (slice_index_or segments.now (result - 1) d) ≡ true }
{
    let mut count = 0;
    for i in 0..segments.len() {
        if segments[i].kind == PT_LOAD {
            count = i + 1;
        }
    }
    count
}
