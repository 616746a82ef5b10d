// Entries of the global offset table (GOT) that AUIPCs and their lower parts refer to.
ghost use Rattle.std.specs.Prelude.{◌≡◌, ◌↔◌, IfOk, IfSome, IsTrue, Some, map, option_map};
ghost use Rattle.elf_code.specs.Cells.{Field};
ghost use Rattle.elf_code.specs.FileCode.{AreStarts};
ghost use Rattle.rv_reloc.specs.Finds.{AreFound};
ghost use Rattle.rv_reloc.specs.GotFields.{IsSlotOf, NamesEntry, IsNamedField};
ghost use Rattle.code_starts.specs.LoadedMemory.{IsLow};
ghost use Rattle.code_starts.specs.Parts.{AreCodeParts};
ghost use Rattle.rv_reloc.specs.Slots.{AreSlotLabels};
ghost use Rattle.rv_reloc.specs.CountedFields.{as_field};

use crate::candidates::code_field;
use crate::lows::Low;
use crate::pairs::low_target;
use crate::slots::{SlotLabel, has_label, has_label_at};
use crate::sweep::Candidate;
use crate::targets::natural;
use code_starts::loaded::loaded_number;
use code_starts::parts::Part;
use code_starts::start_index::Starts;
use elf_image::Elf;
use rb_bytes::fault::NoMemory;
use rb_bytes::lists::push_some;
use std::alloc::Global;

// Whether a relocation says that the GOT entry for the AUIPC at `hi` should have the label `to`. `elf` is only used by
// the contract.
fn names_entry(elf: &Elf, labels: &[SlotLabel], hi: u64, to: u64) -> bool
    requires { AreSlotLabels elf.now labels.now }
    ensures { IsTrue result ↔ NamesEntry elf.now hi to }
{
    has_label(labels, hi, to as i128)
}

// The field at `slot`, if it has the label that a relocation for the AUIPC at `hi` gives it.
fn named_field(
    elf: &Elf,
    starts: &Starts,
    labels: &[SlotLabel],
    hi: u64,
    slot: u64,
) -> Option<Candidate>
    requires low { IsLow elf.now }
    requires starts { AreStarts elf.now starts.now }
    requires labels { AreSlotLabels elf.now labels.now }
    ensures is { IfSome (option_map as_field result) (IsNamedField elf.now hi slot) }
    ensures only { (f : Field) → IsNamedField elf.now hi slot f → option_map as_field result ≡ Some f }
{
    let to = loaded_number(elf, slot, 8)?;
    if !names_entry(elf, labels, hi, to) {
        return None;
    }
    code_field(elf, starts, slot, 8)
}

// The GOT entry that a lower part and its AUIPC refer to, if it can be a cell.
fn slot_of(
    elf: &Elf,
    starts: &Starts,
    parts: &[Part],
    labels: &[SlotLabel],
    low: &Low,
) -> Option<Candidate>
    requires low { IsLow elf.now }
    requires starts { AreStarts elf.now starts.now }
    requires parts { AreCodeParts elf.now parts.now }
    requires labels { AreSlotLabels elf.now labels.now }
    ensures is { IfSome (option_map as_field result) (IsSlotOf elf.now low.now) }
    ensures only { (f : Field) → IsSlotOf elf.now low.now f → option_map as_field result ≡ Some f }
{
    if !has_label_at(labels, low.hi) {
        return None;
    }
    let number = low_target(elf, starts, parts, low)?;
    let slot = natural(number)?;
    named_field(elf, starts, labels, low.hi, slot)
}

/// The GOT entries that can be cells.
pub fn got_fields(
    alloc: Global,
    elf: &Elf,
    starts: &Starts,
    parts: &[Part],
    labels: &[SlotLabel],
    lows: &[Low],
) -> Result<Vec<Candidate>, NoMemory>
    requires low { IsLow elf.now }
    requires starts { AreStarts elf.now starts.now }
    requires parts { AreCodeParts elf.now parts.now }
    requires labels { AreSlotLabels elf.now labels.now }
    ensures { IfOk result (λ slots. AreFound (IsSlotOf elf.now) lows.now (map as_field slots.items)) }
{
    let mut slots = Vec::new(alloc);
    for low in lows {
        push_some(&mut slots, slot_of(elf, starts, parts, labels, low))?;
    }
    Ok(slots)
}
