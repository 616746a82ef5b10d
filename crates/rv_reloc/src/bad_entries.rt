// Entries of the global offset table (GOT) that don't have the labels that relocations give them.
ghost use Rattle.std.specs.Prelude.{◌↔◌, IsTrue};
ghost use Rattle.elf_code.specs.FileCode.{AreStarts};
ghost use Rattle.elf_code.specs.Relocations.{HasRelocation};
ghost use Rattle.elf_image.specs.faults.LowestPlace.{IsLowest};
ghost use Rattle.rv_reloc.specs.BadEntries.{MissesLabel, NamesBadEntry, HasBadEntry};
ghost use Rattle.code_starts.specs.LoadedMemory.{IsLow};
ghost use Rattle.rv_reloc.specs.Lows.{AreLows};
ghost use Rattle.code_starts.specs.Parts.{AreCodeParts};
ghost use Rattle.rv_reloc.specs.Slots.{AreSlotLabels};

use crate::lows::Low;
use crate::pairs::low_target;
use crate::slots::{SlotLabel, has_label_at, has_other_label};
use crate::targets::address_of;
use code_starts::loaded::loaded_number;
use code_starts::parts::Part;
use code_starts::start_index::Starts;
use elf_image::Elf;
use elf_image::lowest::{lower, place_if};

// Whether the GOT entry at the address `entry`, for the AUIPC at `hi`, doesn't have all labels that it should have.
fn misses_label(elf: &Elf, labels: &[SlotLabel], hi: u64, entry: u64) -> bool
    requires low { IsLow elf.now }
    requires labels { AreSlotLabels elf.now labels.now }
    ensures { IsTrue result ↔ MissesLabel elf.now hi entry }
{
    match loaded_number(elf, entry, 8) {
        Some(number) => has_other_label(labels, hi, number),
        None => has_label_at(labels, hi),
    }
}

// Whether a lower part and its AUIPC give the address of a GOT entry that doesn't have all labels that it should have.
fn names_bad_entry(
    elf: &Elf,
    starts: &Starts,
    parts: &[Part],
    labels: &[SlotLabel],
    low: &Low,
) -> bool
    requires low { IsLow elf.now }
    requires starts { AreStarts elf.now starts.now }
    requires parts { AreCodeParts elf.now parts.now }
    requires labels { AreSlotLabels elf.now labels.now }
    ensures { IsTrue result ↔ NamesBadEntry elf.now low.now }
{
    if !has_label_at(labels, low.hi) {
        return false;
    }
    match low_target(elf, starts, parts, low) {
        Some(target) => match address_of(target) {
            Some(entry) => misses_label(elf, labels, low.hi, entry),
            None => false,
        },
        None => false,
    }
}

/// The lowest place of a relocation for a GOT entry that doesn't have its label. Each lower part of an AUIPC with such
/// relocations is examined once, whatever the number of these relocations.
pub fn lowest_bad_entry(
    elf: &Elf,
    starts: &Starts,
    parts: &[Part],
    labels: &[SlotLabel],
    lows: &[Low],
) -> Option<u64>
    requires low { IsLow elf.now }
    requires starts { AreStarts elf.now starts.now }
    requires parts { AreCodeParts elf.now parts.now }
    requires labels { AreSlotLabels elf.now labels.now }
    requires lows { AreLows elf.now lows.now }
    ensures { IsLowest (HasRelocation elf.now (HasBadEntry elf.now)) result }
{
    let mut lowest = None;
    for low in lows {
        lowest = lower(
            lowest,
            place_if(names_bad_entry(elf, starts, parts, labels, low), low.hi),
        );
    }
    lowest
}
