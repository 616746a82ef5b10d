// Growing forms one at a time. A form that grew makes only the ways over its block longer, so only the branches and
// jumps with such a way are looked at again.
ghost use Rattle.std.specs.Prelude.{◌≡◌, ℕ, ◌+◌, ◌^◌, ◌<◌, ◌≤◌, length, All, IfOk, OnOk, MatchBool, map, slice_index};
ghost use Rattle.std.specs.Prelude.{sum_by};
ghost use Rattle.branch_fixup.specs.Endings.{end_of_form};
ghost use Rattle.branch_fixup.specs.Growth.{end_at, left_of, AreBlockEnds, AreGrown, block_offset};
ghost use Rattle.branch_fixup.specs.Ways.{crosses, is_enough_by, AreStarts, AreLonger, AreLongerOver, AreSettling};

use crate::growth::{BlockEnd, places};
use crate::lengths::{form_reach, longer, piece_length, reaches};
use rb_bytes::fault::NoMemory;
use rv_code::Form;
use std::alloc::Global;
use std::ops::Range;

// The longest reach of a form that can grow.
const REACH: u64 = 1 << 12;

/// Grows forms one at a time until each reaches. Ways of more than `REACH` bytes aren't tracked: a form that can grow
/// doesn't reach that far, so it grows anyway. It isn't proved that no form is missed, so a pass over all blocks has to
/// confirm it.
pub fn settle(alloc: Global, block_ends: &[BlockEnd], forms: &mut [Form]) -> Result<(), NoMemory>
    requires block_ends { AreBlockEnds block_ends.now }
    requires sound { AreGrown block_ends.now forms.old }
    ensures sound { OnOk result (AreGrown block_ends.now forms.new) }
    ensures same { OnOk result (map end_of_form forms.new ≡ map end_of_form forms.old) }
    ensures fewer { OnOk result (sum_by left_of forms.new ≤ sum_by left_of forms.old) }
{
    let places = places(alloc, block_ends, forms)?;
    let crossings = Crossings::new(alloc, block_ends, &places)?;
    let settling = Settling {
        block_ends,
        places: &places,
        crossings: &crossings,
    };
    let mut more = vec![in alloc; 0; block_ends.len()]?;
    let blocks = settling.short_blocks(alloc, forms)?;
    settling.grow_from(alloc, forms, &mut more, blocks)
}

// The data that doesn't change while forms grow: the blocks, and their starts before. In addition there is a list
// `more`: by how many bytes the way of each block's branch or jump has become longer since then.
#[derive(Clone, Copy)]
struct Settling<'a> {
    block_ends: &'a [BlockEnd],
    /// The start of each block, and the end of the last one.
    places: &'a [u64],
    crossings: &'a Crossings,
    ghost fit: { AreBlockEnds block_ends.now },
    ghost begin: { AreStarts block_ends.now places.now },
    ghost over: { length crossings.now.starts.items ≡ length block_ends.now },
}

impl<'a> Settling<'a> {
    // Whether the branch or jump of block `k` goes over the end of block `p`, so that its way becomes longer when `p`
    // grows.
    fn crosses(&self, k: usize, p: usize) -> bool
        requires { k < length self.now.block_ends.now }
        ensures { result ≡ crosses self.now.block_ends.now k p }
    {
        let to = self.block_ends[k].to;
        (k <= p && p < to) || (to <= p && p < k)
    }

    // Whether block `k` would reach its target with `form`, if its way is longer by `more` bytes.
    fn is_enough_by(&self, more: u64, k: usize, form: Form) -> bool
        requires inside { k < length self.now.block_ends.now }
        requires low { more < 2 ^ 62 }
        ensures { result ≡ is_enough_by self.now.block_ends.now self.now.places.now more k form }
    {
        let block_end = self.block_ends[k];
        let from = self.places[k] + block_end.before;
        let to = self.places[block_end.to] + block_end.offset;
        match form_reach(form) {
            Some(reach) => {
                if k < block_end.to {
                    reaches(reach, from, to + more)
                } else {
                    reaches(reach, from + more, to)
                }
            }
            None => true,
        }
    }

    // Block `p` has grown by `bytes`: makes the ways over it longer, and adds to `short` the blocks whose forms no
    // longer reach.
    fn lengthen(
        &self,
        forms: &[Form],
        more: &mut [u64],
        p: usize,
        bytes: u64,
        short: &mut Vec<usize>,
    ) -> Result<(), NoMemory>
        requires count { length more.old ≡ length self.now.block_ends.now }
        requires one_each { length forms.now ≡ length self.now.block_ends.now }
        requires longer { AreLonger self.now.block_ends.now self.now.places.now forms.now more.old }
        requires over { AreLongerOver self.now.block_ends.now self.now.places.now forms.now more.old p bytes 0 }
        requires listed { All (λ k. k < length self.now.block_ends.now) short.old.items }
        ensures count { OnOk result (length more.new ≡ length self.now.block_ends.now) }
        ensures longer { OnOk result (AreLonger self.now.block_ends.now self.now.places.now forms.now more.new) }
        ensures listed { OnOk result (All (λ k. k < length self.now.block_ends.now) short.new.items) }
    {
        let Range { start, end } = self.crossings.range(p);
        for k in start..end {
            if self.crosses(k, p) {
                let reached = self.is_enough_by(more[k], k, forms[k]);
                more[k] += bytes;
                if reached && !self.is_enough_by(more[k], k, forms[k]) {
                    short.push(k)?;
                }
            }
        }
        Ok(())
    }

    // Grows the form of block `k` by a step, if it doesn't reach, and returns whether it did. Adds to `short` the
    // blocks whose forms don't reach then, perhaps also `k`.
    fn grow_block(
        &self,
        forms: &mut [Form],
        more: &mut [u64],
        k: usize,
        short: &mut Vec<usize>,
    ) -> Result<bool, NoMemory>
        requires inside { k < length self.now.block_ends.now }
        requires settling { AreSettling self.now.block_ends.now self.now.places.now forms.old more.old }
        requires listed { All (λ k. k < length self.now.block_ends.now) short.old.items }
        ensures settling { OnOk result (AreSettling self.now.block_ends.now self.now.places.now forms.new more.new) }
        ensures same { OnOk result (map end_of_form forms.new ≡ map end_of_form forms.old) }
        ensures fewer { IfOk result
            (λ grew. MatchBool grew (sum_by left_of forms.new < sum_by left_of forms.old) (forms.new ≡ forms.old)) }
        ensures listed { OnOk result (All (λ k. k < length self.now.block_ends.now) short.new.items) }
    {
        let form = forms[k];
        if self.is_enough_by(more[k], k, form) {
            return Ok(false);
        }
        let grown = longer(form);
        forms[k] = grown;
        if !self.is_enough_by(more[k], k, grown) {
            short.push(k)?;
        }
        let len = self.block_ends[k].len;
        let bytes = (piece_length(len, grown) - piece_length(len, form)) as u64;
        self.lengthen(forms, more, k, bytes, short)?;
        Ok(true)
    }

    // Grows the form of each of `blocks` by a step, if it doesn't reach, and returns whether one grew. Adds to `short`
    // the blocks whose forms don't reach then.
    fn grow_blocks(
        &self,
        forms: &mut [Form],
        more: &mut [u64],
        blocks: &[usize],
        short: &mut Vec<usize>,
    ) -> Result<bool, NoMemory>
        requires inside { All (λ k. k < length self.now.block_ends.now) blocks.now }
        requires settling { AreSettling self.now.block_ends.now self.now.places.now forms.old more.old }
        requires listed { All (λ k. k < length self.now.block_ends.now) short.old.items }
        ensures settling { OnOk result (AreSettling self.now.block_ends.now self.now.places.now forms.new more.new) }
        ensures same { OnOk result (map end_of_form forms.new ≡ map end_of_form forms.old) }
        ensures fewer { IfOk result
            (λ grew. MatchBool grew (sum_by left_of forms.new < sum_by left_of forms.old) (forms.new ≡ forms.old)) }
        ensures listed { OnOk result (All (λ k. k < length self.now.block_ends.now) short.new.items) }
    {
        let mut grew = false;
        for k in blocks {
            let grown = self.grow_block(forms, more, *k, short)?;
            if grown {
                grew = true;
            }
        }
        Ok(grew)
    }

    // The blocks whose forms don't reach before any form has grown.
    fn short_blocks(&self, alloc: Global, forms: &[Form]) -> Result<Vec<usize>, NoMemory>
        requires { length forms.now ≡ length self.now.block_ends.now }
        ensures { IfOk result (λ short. All (λ k. k < length self.now.block_ends.now) short.items) }
    {
        let mut short = Vec::new(alloc);
        for k in 0..self.block_ends.len() {
            if !self.is_enough_by(0, k, forms[k]) {
                short.push(k)?;
            }
        }
        Ok(short)
    }

    // Grows `blocks`, then the blocks whose forms no longer reach as a result, and so on until none grows.
    fn grow_from(
        &self,
        alloc: Global,
        forms: &mut [Form],
        more: &mut [u64],
        mut blocks: Vec<usize>,
    ) -> Result<(), NoMemory>
        requires inside { All (λ k. k < length self.now.block_ends.now) blocks.items }
        requires settling { AreSettling self.now.block_ends.now self.now.places.now forms.old more.old }
        ensures sound { OnOk result (AreGrown self.now.block_ends.now forms.new) }
        ensures same { OnOk result (map end_of_form forms.new ≡ map end_of_form forms.old) }
        ensures fewer { OnOk result (sum_by left_of forms.new ≤ sum_by left_of forms.old) }
    {
        loop {
            let mut short = Vec::new(alloc);
            let grew = self.grow_blocks(forms, more, &blocks, &mut short)?;
            if !grew {
                return Ok(());
            }
            blocks = short;
        }
    }
}

// Which blocks may have ways over a given block. Both lists ascend, so `range` uses binary search.
#[derive(Drop)]
struct Crossings {
    /// For each block, the last block to which it or one before it leads.
    ends: Vec<usize>,
    /// For each block, the first block to which it or one after it leads.
    starts: Vec<usize>,
}

impl Crossings {
    fn new(alloc: Global, block_ends: &[BlockEnd], places: &[u64]) -> Result<Crossings, NoMemory>
        requires block_ends { AreBlockEnds block_ends.now }
        requires starts { AreStarts block_ends.now places.now }
        ensures { IfOk result (λ over. length over.starts.items ≡ length block_ends.now) }
    {
        let ends = ends_of(alloc, block_ends, places)?;
        let starts = starts_of(alloc, block_ends, places)?;
        Ok(Crossings { ends, starts })
    }

    // A range of blocks that contains all blocks with a tracked way over block `p`.
    fn range(&self, p: usize) -> Range<usize>
        ensures { result.end ≤ length self.now.starts.items }
    {
        let first = self.ends.partition_point(|end| *end <= p);
        let end = self.starts.partition_point(|start| *start <= p);
        first..end
    }
}

// The block to which the branch or jump of block `k` goes, if it is at most `REACH` away; otherwise `k`.
fn near(block_ends: &[BlockEnd], places: &[u64], k: usize) -> usize
    requires block_ends { AreBlockEnds block_ends.now }
    requires inside { k < length block_ends.now }
    requires starts { AreStarts block_ends.now places.now }
{
    let block_end = block_ends[k];
    let from = places[k] + block_end.before;
    let to = places[block_end.to] + block_end.offset;
    if from.abs_diff(to) <= REACH {
        block_end.to
    } else {
        k
    }
}

// `Crossings::ends`: the running maximum of `near`, from the first block on.
fn ends_of(alloc: Global, block_ends: &[BlockEnd], places: &[u64]) -> Result<Vec<usize>, NoMemory>
    requires block_ends { AreBlockEnds block_ends.now }
    requires starts { AreStarts block_ends.now places.now }
{
    let mut ends = Vec::with_capacity(alloc, block_ends.len())?;
    let mut last = 0;
    for k in 0..block_ends.len() {
        last = k.max(near(block_ends, places, k)).max(last);
        ends.push(last)?;
    }
    Ok(ends)
}

// `Crossings::starts`: the running minimum of `near`, from the last block back.
fn starts_of(alloc: Global, block_ends: &[BlockEnd], places: &[u64]) -> Result<Vec<usize>, NoMemory>
    requires block_ends { AreBlockEnds block_ends.now }
    requires starts { AreStarts block_ends.now places.now }
    ensures { IfOk result (λ starts. length starts.items ≡ length block_ends.now) }
{
    let mut starts = vec![in alloc; 0; block_ends.len()]?;
    let mut first = block_ends.len();
    for k in (0..block_ends.len()).rev() {
        first = k.min(near(block_ends, places, k)).min(first);
        starts[k] = first;
    }
    Ok(starts)
}
