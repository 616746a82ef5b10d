// The starts of instructions.
ghost use Rattle.std.specs.Prelude.{◌≡◌, ◌<◌, ◌≤◌, ◌+◌, ◌-◌, ◌/◌, ◌++◌, ◌↔◌, ℕ, IfOk, OnOk, length, Contains, AllPairs};
ghost use Rattle.elf_image.specs.declared.elf.Elf.{Elf};
ghost use Rattle.elf_code.specs.FileCode.{AreStarts};
ghost use Rattle.code_starts.specs.Halves.{AreHalvesOf, AreMarksOf};
ghost use Rattle.code_starts.specs.Starts.{starts_from, starts_of};

use crate::halves::{halves_taken, read_halves, read_marks};
use crate::parts::{Part, code_parts};
use elf_image::Elf;
use rb_bytes::fault::NoMemory;
use rb_lanes::search_below;
use std::alloc::Global;

/// The start addresses of instructions, ascending, in all parts with code: see [`code_parts`]. Only the lengths of
/// instructions determine the next start, whether or not the instructions are valid.
pub fn starts(alloc: Global, elf: &Elf) -> Result<Vec<u64>, NoMemory>
    ensures { IfOk result (λ starts. AreStarts elf.now starts.items) }
{
    let parts = code_parts(alloc, elf)?;
    Ok(starts_of(alloc, elf, &parts)?)
}

// The starts of the instructions of all parts, part by part.
fn starts_of(alloc: Global, elf: &Elf, parts: &[Part]) -> Result<Vec<u64>, NoMemory>
    ensures { IfOk result (λ starts. starts.items ≡ starts_of elf.now parts.now) }
{
    let mut starts = Vec::new(alloc);
    let mut halves = Vec::new(alloc);
    let mut marks = Vec::new(alloc);
    for part in parts {
        read_halves(&mut halves, elf, part)?;
        read_marks(&mut marks, &halves)?;
        push_starts(&mut starts, part, &halves, &marks)?;
    }
    Ok(starts)
}

// Appends the starts of a part. A marked halfword begins a four-byte instruction, so the next halfword begins none.
fn push_starts(
    starts: &mut Vec<u64>,
    part: &Part,
    halves: &[u16],
    marks: &[u64],
) -> Result<(), NoMemory>
    requires count { length halves.now ≡ (part.now.end - part.now.start + 1) / 2 }
    requires marks { AreMarksOf halves.now marks.now }
    ensures { (elf : Elf) → AreHalvesOf elf part.now halves.now →
        OnOk result (starts.new.items ≡ starts.old.items ++ starts_from elf part.now.end part.now.start) }
{
    let mut index = 0;
    while index < halves.len() {
        starts.push(part.start + 2 * index as u64)?;
        index += halves_taken(marks, index);
    }
    Ok(())
}

/// The starts of instructions that are in a part.
pub fn starts_in<'a>(starts: &'a [u64], part: &Part) -> &'a [u64]
    requires ascending { AllPairs (λ a b. a < b) starts.now }
    requires has_bytes { part.now.start < part.now.end }
    ensures members { (a : ℕ) → Contains result.now a ↔
        (Contains starts.now a × (part.now.start ≤ a) × (a < part.now.end)) }
    ensures ascending { AllPairs (λ a b. a < b) result.now }
{
    let (below, _) = starts.split_at(search_below(starts, part.end));
    let (_, inside) = below.split_at(search_below(below, part.start));
    inside
}
