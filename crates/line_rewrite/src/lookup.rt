// Rows from kept states.
ghost use Rattle.std.specs.Prelude.{◌≡◌, ◌<◌, ◌≤◌, ◌-◌, ℕ, List, length, IfOk, slice_index_or};
ghost use Rattle.std.specs.List.Sorted.{IsNonDecreasingBy};
ghost use Rattle.line_rewrite.specs.declared.kept.Kept.{Kept};
ghost use Rattle.line_rewrite.specs.declared.registers.Registers.{Registers};
ghost use Rattle.line_rewrite.specs.Keeping.{Begins, row_at};
ghost use Rattle.line_rewrite.specs.SequenceViews.{HasRows};
ghost use Rattle.line_rewrite.specs.NearRows.{AreEnough};

use crate::kept::Kept;
use crate::line_program::LineProgram;
use crate::registers::Registers;
use crate::walk::rows_from;
use rb_bytes::fault::NoMemory;
use std::alloc::Global;

/// A sequence of a program.
#[derive(Clone, Copy)]
pub struct SequenceView<'a> {
    pub program: LineProgram<'a>,
    /// The states that are kept of it.
    pub kept: &'a [Kept],
    /// The number of its rows.
    pub rows: usize,
}

// The number of states before a row at `a` or below it.
fn count_up_to(kept: &[Kept], a: u64) -> usize
    ensures bound { result ≤ length kept.now }
    ensures last { IsNonDecreasingBy (λ k. k.address) kept.now → (k : Kept) → 0 < result →
        (slice_index_or kept.now (result - 1) k).address ≤ a }
    ensures next { IsNonDecreasingBy (λ k. k.address) kept.now → (k : Kept) → result < length kept.now →
        a < (slice_index_or kept.now result k).address }
{
    kept.partition_point(|kept| kept.address <= a)
}

// The index of the row of a state; after the last state, the number of rows.
fn row_at(kept: &[Kept], rows: usize, state: usize) -> usize
    ensures { result ≡ row_at kept.now rows state }
{
    match kept.get(state) {
        Some(kept) => kept.index,
        None => rows,
    }
}

// The last address before the row of a state, but at least `a`; 2^64 - 1 if there is no such state.
fn last_before(kept: &[Kept], state: usize, a: u64) -> u64
    ensures before { (k : Kept) → state < length kept.now → a < (slice_index_or kept.now state k).address →
        result < (slice_index_or kept.now state k).address }
    ensures least { a ≤ result }
{
    match kept.get(state) {
        Some(kept) => kept.address.saturating_sub(1).max(a),
        None => u64::MAX,
    }
}

impl<'a> SequenceView<'a> {
    /// Rows of the sequence that decide which are in force from `a` up to another address, and that address.
    pub fn rows_from(&self, alloc: Global, a: u64) -> Result<(Vec<Registers>, u64), NoMemory>
        ensures enough { IfOk result (λ r. (list : List Registers) → HasRows list self.now →
            Begins (length list) self.now.kept.now → AreEnough a r.1 r.0.items list) }
        ensures least { IfOk result (λ r. a ≤ r.1) }
    {
        let reached = count_up_to(self.kept, a);
        if reached == 0 {
            return Ok((Vec::new(alloc), a));
        }
        // All rows before the row of a state are below its address.
        let state = self.kept[reached - 1];
        if state.place > self.program.bytes.len() {
            return Ok((Vec::new(alloc), a));
        }
        // Walk up to the row of the next state and no further: the operations before that row may be long.
        let count = row_at(self.kept, self.rows, reached).saturating_sub(state.index);
        let last = last_before(self.kept, reached, a);
        let (rows, last) = rows_from(alloc, &self.program, &state, count, last, a)?;
        Ok((rows, last))
    }
}
