// The code of a program that can't change during a run.
ghost use Rattle.std.specs.Prelude.{◌≡◌, ◌↔◌, ◌≤◌, ◌+◌, ◌-◌, ◌^◌, ◌⊎◌, ℕ, IsTrue, Some, false, true, length};
ghost use Rattle.std.specs.Prelude.{slice_index, unwrap_or};
ghost use Rattle.elf_image.specs.declared.segment.TheConstants.{PF_X};
ghost use Rattle.elf_image.specs.declared.segment.Segment.{Segment};
ghost use Rattle.elf_image.specs.memory.Image.{image_byte, is_loaded_with, segment_of};
ghost use Rattle.rv_memory.specs.CodeRange.{is_in_code, is_ever_writable, IsFixedCode, loaded_range};

use crate::rights::{STACK_END, STACK_SIZE};
use elf_image::Elf;
use elf_image::segment::{PF_W, PF_X};

/// The addresses from `from` to before `to`, which have the file's bytes from an offset on.
#[derive(Clone, Copy)]
pub struct CodeRange {
    pub from: u64,
    pub to: u64,
    pub offset: u64,
}

const EMPTY: CodeRange = CodeRange {
    from: 0,
    to: 0,
    offset: 0,
};

// Whether the ranges from `from` to before `to` and from `start` to before `end` don't overlap.
fn lie_apart(from: u64, to: u64, start: u64, end: u64) -> bool
    ensures { IsTrue result ↔ ((to ≤ start) ⊎ (end ≤ from)) }
{
    if to <= start {
        return true;
    }
    end <= from
}

/// The file bytes of the segment with the entry point, if that is executable and nothing can write there: the segment
/// isn't writable, is below the stack and doesn't overlap the break. Otherwise the range is empty.
pub fn code_range(elf: &Elf, break_start: u64, break_bound: u64) -> CodeRange
    ensures fixed { (q : ℕ) → is_in_code result q ≡ true →
        is_ever_writable elf.now.segments.items break_start break_bound q ≡ false }
    ensures runs { (q : ℕ) → is_in_code result q ≡ true → is_loaded_with PF_X elf.now.segments.items q ≡ true }
    ensures bytes { (q : ℕ) → is_in_code result q ≡ true →
        unwrap_or (image_byte elf.now.file.now elf.now.segments.items q) 0
        ≡ slice_index elf.now.file.now (result.offset + (q - result.from)) }
    ensures whole { (p : Segment) → segment_of elf.now.segments.items elf.now.entry ≡ Some p →
        IsFixedCode elf.now.file.now break_start break_bound p → result ≡ loaded_range p }
    ensures within { result.offset + (result.to - result.from) ≤ length elf.now.file.now }
{
    let Some(segment) = elf.segment_at(elf.entry) else {
        return EMPTY;
    };
    if segment.has_flag(PF_W) {
        return EMPTY;
    }
    if !segment.has_flag(PF_X) {
        return EMPTY;
    }
    let from = segment.vaddr;
    let size = segment.filesz.min(segment.memsz);
    let offset = segment.offset;
    if from > STACK_END - STACK_SIZE || size > STACK_END - STACK_SIZE - from {
        return EMPTY;
    }
    let to = from + size;
    if !lie_apart(from, to, break_start, break_bound) {
        return EMPTY;
    }
    if offset > elf.file.len() as u64 || size > elf.file.len() as u64 - offset {
        return EMPTY;
    }
    CodeRange { from, to, offset }
}

impl CodeRange {
    /// Whether the range contains all of the `count` addresses from `address` on.
    pub fn has(&self, address: u64, count: u64) -> bool
        ensures within { IsTrue result ↔ ((self.now.from ≤ address) × (address + count ≤ self.now.to)) }
        ensures room { IsTrue result → address + count ≤ 2 ^ 64 }
    {
        self.from <= address && address <= self.to && count <= self.to - address
    }
}
