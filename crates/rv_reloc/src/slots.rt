// The labels that entries of the global offset table (GOT) should have.
ghost use Rattle.std.specs.Prelude.{◌≡◌, ◌↔◌, ◌<◌, ◌≤◌, ℕ, pos, IfOk, OnOk, IfSome, IsTrue, IsSomeAnd, Some, Contains};
ghost use Rattle.std.specs.Prelude.{AllPairs, length, slice_index_or};
ghost use Rattle.std.specs.List.Sorted.{IsPermutation};
ghost use Rattle.rv_reloc.specs.declared.slots.SlotLabel.{SlotLabel};
ghost use Rattle.rv_reloc.specs.Finds.{AreFound};
ghost use Rattle.rv_reloc.specs.Records.{seen, AreRecords};
ghost use Rattle.rv_reloc.specs.Slots.{IsSlotLabelOf, IsLabelBelow, IsLabelFrom, AreSlotLabels, HasLabelAt};
ghost use Rattle.rv_reloc.specs.Slots.{HasLabelBelow, HasLabelFrom, HasOtherLabel};

use crate::labels::label;
use crate::records::Record;
use elf_image::Elf;
use elf_image::relocation::R_RISCV_GOT_HI20;
use rb_bytes::fault::NoMemory;
use rb_bytes::lists::push_some;
use std::alloc::Global;

/// A label that the GOT entry of the AUIPC at `place` should have.
#[derive(Clone, Copy)]
pub struct SlotLabel {
    pub place: u64,
    pub label: i128,
}

fn slot_label(elf: &Elf, relocation: &Record) -> Option<SlotLabel>
    ensures is { IfSome result (IsSlotLabelOf elf.now (seen relocation.now)) }
    ensures only { (s : SlotLabel) → IsSlotLabelOf elf.now (seen relocation.now) s → result ≡ Some s }
{
    if relocation.kind == R_RISCV_GOT_HI20 {
        Some(SlotLabel {
            place: relocation.place,
            label: label(elf, relocation),
        })
    } else {
        None
    }
}

fn read_labels(alloc: Global, elf: &Elf, records: &[Record]) -> Result<Vec<SlotLabel>, NoMemory>
    ensures { IfOk result (λ labels. AreFound (λ r s. IsSlotLabelOf elf.now (seen r) s) records.now labels.items) }
{
    let mut labels = Vec::new(alloc);
    for relocation in records {
        push_some(&mut labels, slot_label(elf, relocation))?;
    }
    Ok(labels)
}

// Sorts labels by place, and then by label.
fn sort_labels(labels: &mut Vec<SlotLabel>) -> Result<(), NoMemory>
    ensures permutation { IsPermutation labels.old.items labels.new.items }
    ensures ordered { OnOk result (AllPairs (λ s t. IsLabelFrom s.place s.label t) labels.new.items) }
{
    labels.sort_by_key(|s| (s.place, s.label))?;
    Ok(())
}

/// All labels that GOT entries should have, sorted by place.
pub fn slot_labels(alloc: Global, elf: &Elf, records: &[Record]) -> Result<Vec<SlotLabel>, NoMemory>
    requires { AreRecords elf.now records.now }
    ensures { IfOk result (λ labels. AreSlotLabels elf.now labels.items) }
{
    let mut labels = read_labels(alloc, elf, records)?;
    sort_labels(&mut labels)?;
    Ok(labels)
}

// The number of labels before a place and label.
fn count_below(labels: &[SlotLabel], place: u64, label: i128) -> usize
    requires { AllPairs (λ s t. IsLabelFrom s.place s.label t) labels.now }
    ensures bound { result ≤ length labels.now }
    ensures below { (k : ℕ) (d : SlotLabel) → k < result → IsLabelBelow place label (slice_index_or labels.now k d) }
    ensures above { (k : ℕ) (d : SlotLabel) → result ≤ k → k < length labels.now →
        IsLabelFrom place label (slice_index_or labels.now k d) }
{
    labels.partition_point(|s| s.place < place || (s.place == place && s.label < label))
}

/// Whether the GOT entry of the AUIPC at `place` should have this label.
pub fn has_label(labels: &[SlotLabel], place: u64, label: i128) -> bool
    requires { AllPairs (λ s t. IsLabelFrom s.place s.label t) labels.now }
    ensures { IsTrue result ↔ Contains labels.now (record { place = place; label = label }) }
{
    let index = count_below(labels, place, label);
    if index == labels.len() {
        return false;
    }
    let found = labels[index];
    if found.place != place {
        return false;
    }
    found.label == label
}

// Whether a label with this place is below `number`.
fn has_label_below(labels: &[SlotLabel], place: u64, number: i128) -> bool
    requires { AllPairs (λ s t. IsLabelFrom s.place s.label t) labels.now }
    ensures { IsTrue result ↔ HasLabelBelow labels.now place number }
{
    let index = count_below(labels, place, number);
    if index == 0 {
        return false;
    }
    let last = labels[index - 1];
    last.place == place
}

// Whether a label with this place is at or above `number`.
fn has_label_from(labels: &[SlotLabel], place: u64, number: i128) -> bool
    requires { AllPairs (λ s t. IsLabelFrom s.place s.label t) labels.now }
    ensures { IsTrue result ↔ HasLabelFrom labels.now place number }
{
    let index = count_below(labels, place, number);
    if index == labels.len() {
        return false;
    }
    let first = labels[index];
    first.place == place
}

/// Whether the GOT entry of the AUIPC at `place` should have a label other than `number`.
pub fn has_other_label(labels: &[SlotLabel], place: u64, number: u64) -> bool
    requires { AllPairs (λ s t. IsLabelFrom s.place s.label t) labels.now }
    ensures { IsTrue result ↔ HasOtherLabel labels.now place number }
{
    has_label_below(labels, place, number as i128)
        || has_label_from(labels, place, number as i128 + 1)
}

/// Whether the GOT entry of the AUIPC at `place` should have any label.
pub fn has_label_at(labels: &[SlotLabel], place: u64) -> bool
    requires { AllPairs (λ s t. IsLabelFrom s.place s.label t) labels.now }
    ensures { IsTrue result ↔ HasLabelAt labels.now place }
{
    has_label_below(labels, place, 0) || has_label_from(labels, place, 0)
}
