// Lower parts of one AUIPC that differ.
ghost use Rattle.std.specs.Prelude.{◌↔◌, ◌<◌, IsTrue, length};
ghost use Rattle.std.specs.List.Sorted.{IsNonDecreasingBy};
ghost use Rattle.elf_image.specs.declared.elf.Elf.{Elf};
ghost use Rattle.elf_image.specs.faults.LowestPlace.{IsLowest};
ghost use Rattle.elf_code.specs.ReferenceFaults.{IsLoMismatch};
ghost use Rattle.rv_reloc.specs.Lows.{AreLows, DiffersFromNext};

use crate::lows::Low;
use elf_image::lowest::{lower, place_if};

fn differs_from_next(lows: &[Low], index: usize) -> bool
    requires { index < length lows.now }
    ensures { IsTrue result ↔ DiffersFromNext lows.now index }
{
    index + 1 < lows.len()
        && lows[index].hi == lows[index + 1].hi
        && lows[index].imm != lows[index + 1].imm
}

/// The lowest address of an AUIPC with two lower parts that differ.
pub fn lowest_low_mismatch(lows: &[Low]) -> Option<u64>
    requires { IsNonDecreasingBy (λ l. l.hi) lows.now }
    ensures { (elf : Elf) → AreLows elf lows.now → IsLowest (IsLoMismatch elf) result }
{
    let mut lowest = None;
    for (index, low) in lows.iter().enumerate() {
        lowest = lower(lowest, place_if(differs_from_next(lows, index), low.hi));
    }
    lowest
}
