// Clause `SpanBytes`: whether spans are in code of the output.
ghost use Rattle.std.specs.Prelude.{ℕ, All, IfNone};
ghost use Rattle.elf_image.specs.faults.LowestPlace.{IsLowest};
ghost use Rattle.elf_image.specs.memory.Executables.{AreCodeBytes, executable_read};
ghost use Rattle.code_starts.specs.LoadedMemory.{IsLow};
ghost use Rattle.map_check.specs.Lacking.{LacksAt};

use crate::code_bytes::are_code_bytes;
use addr_map::Span;
use elf_image::Elf;
use elf_image::lowest::{lower, place_if};

/// The lowest input of a span that has a byte outside the output's code.
pub fn lowest_outside(output: &Elf, spans: &[Span]) -> Option<u64>
    requires { IsLow output.now }
    ensures all { IfNone result (All (λ s. AreCodeBytes (executable_read output.now) s.out s.len) spans.now) }
    ensures lowest { IsLowest
        (LacksAt (λ s. AreCodeBytes (executable_read output.now) s.out s.len) (λ s. s.input) spans.now) result }
{
    let mut lowest = None;
    for span in spans {
        let inside = are_code_bytes(output, span.out, span.len);
        lowest = lower(lowest, place_if(!inside, span.input));
    }
    lowest
}
