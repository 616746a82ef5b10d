// Growing forms in rounds: each round is one pass over the blocks.
ghost use Rattle.std.specs.Prelude.{◌≡◌, ℕ, ◌+◌, ◌^◌, ◌<◌, ◌≤◌, length, IfOk, OnOk, MatchBool, map, slice_index};
ghost use Rattle.std.specs.Prelude.{sum_by, true};
ghost use Rattle.branch_fixup.specs.Endings.{end_of_form};
ghost use Rattle.branch_fixup.specs.Growth.{is_enough_at, end_at, left_of, AreBlockEnds, AreGrown, AreEnough};
ghost use Rattle.branch_fixup.specs.Growth.{block_offset};

use crate::lengths::{form_reach, longer, piece_length, reaches};
use crate::settling::settle;
use rb_bytes::fault::NoMemory;
use rv_code::Form;
use std::alloc::Global;

// The number of passes over all blocks after which forms grow one at a time.
const PASSES: u8 = 8;

/// The last instruction of a block, and the target of its branch or jump.
#[derive(Clone, Copy)]
pub struct BlockEnd {
    /// The number of bytes of the block before its last instruction.
    pub before: u64,
    /// The length of the last instruction in the input, 2 or 4.
    pub len: u8,
    /// The block to which its branch or jump goes, by its index in the new order.
    pub to: usize,
    /// The offset of the target in that block: not 0 only in functions that move as one piece.
    pub offset: u64,
}

// The start of each block with these `forms`, and the end of the last one, in bytes from the start of the new code.
pub(crate) fn places(
    alloc: Global,
    block_ends: &[BlockEnd],
    forms: &[Form],
) -> Result<Vec<u64>, NoMemory>
    requires one_each { length forms.now ≡ length block_ends.now }
    requires block_ends { AreBlockEnds block_ends.now }
    ensures len { IfOk result (λ v. length v.items ≡ length block_ends.now + 1) }
    ensures at { IfOk result (λ v.
        (i : ℕ) → i ≤ length block_ends.now → slice_index v.items i ≡ block_offset block_ends.now forms.now i) }
    ensures low { IfOk result (λ v. (i : ℕ) → i ≤ length block_ends.now →
        block_offset block_ends.now forms.now i < 2 ^ 62) }
{
    let mut places = Vec::new(alloc);
    let mut at = 0;
    places.push(at)?;
    for k in 0..forms.len() {
        let block_end = block_ends[k];
        let form = forms[k];
        at += block_end.before + piece_length(block_end.len, form) as u64;
        places.push(at)?;
    }
    Ok(places)
}

// Whether block `k` would reach its target with `form`, if blocks begin at `places`. A form that can't grow always
// reaches.
fn is_enough(block_ends: &[BlockEnd], places: &[u64], k: usize, form: Form) -> bool
    requires inside { k < length block_ends.now }
    requires to_block { (end_at block_ends.now k).to < length block_ends.now }
    requires short { (end_at block_ends.now k).before < 2 ^ 62 }
    requires near { (end_at block_ends.now k).offset < 2 ^ 62 }
    requires len { length places.now ≡ length block_ends.now + 1 }
    requires low { (i : ℕ) → i ≤ length block_ends.now → slice_index places.now i < 2 ^ 62 }
    ensures { result ≡ is_enough_at block_ends.now places.now k form }
{
    let block_end = block_ends[k];
    let from = places[k] + block_end.before;
    let to = places[block_end.to] + block_end.offset;
    match form_reach(form) {
        Some(reach) => reaches(reach, from, to),
        None => true,
    }
}

// Grows each form by one step that doesn't reach if blocks begin at `places`. Returns whether one grew.
fn grow_once(block_ends: &[BlockEnd], places: &[u64], forms: &mut [Form]) -> bool
    requires block_ends { AreBlockEnds block_ends.now }
    requires len { length places.now ≡ length block_ends.now + 1 }
    requires low { (i : ℕ) → i ≤ length block_ends.now → block_offset block_ends.now forms.old i < 2 ^ 62 }
    requires placed { (i : ℕ) → i ≤ length block_ends.now →
        slice_index places.now i ≡ block_offset block_ends.now forms.old i }
    requires sound { AreGrown block_ends.now forms.old }
    ensures sound { AreGrown block_ends.now forms.new }
    ensures same { map end_of_form forms.new ≡ map end_of_form forms.old }
    ensures ends { MatchBool result (sum_by left_of forms.new < sum_by left_of forms.old)
        (AreEnough block_ends.now forms.new) }
{
    let mut grew = false;
    for i in 0..forms.len() {
        if !is_enough(block_ends, places, i, forms[i]) {
            forms[i] = longer(forms[i]);
            grew = true;
        }
    }
    grew
}

/// Makes the shortest forms longer until each reaches. A form that grew doesn't shrink, so the rounds end.
pub fn grow(alloc: Global, block_ends: &[BlockEnd], forms: &mut [Form]) -> Result<(), NoMemory>
    requires block_ends { AreBlockEnds block_ends.now }
    requires sound { AreGrown block_ends.now forms.old }
    ensures sound { OnOk result (AreGrown block_ends.now forms.new) }
    ensures same { OnOk result (map end_of_form forms.new ≡ map end_of_form forms.old) }
    ensures enough { OnOk result (AreEnough block_ends.now forms.new) }
{
    let mut passes = 0;
    loop {
        let places = places(alloc, block_ends, forms)?;
        if !grow_once(block_ends, &places, forms) {
            return Ok(());
        }
        if passes < PASSES {
            passes += 1;
        } else {
            settle(alloc, block_ends, forms)?;
        }
    }
}
