// The row of an entry at an address. DWARF 5, section 6.4.3.
ghost use Rattle.std.specs.Prelude.{◌≡◌, ◌<◌, ◌≤◌, ℕ, All, None, Some, IfOk, IfSome};
ghost use Rattle.std.specs.Prelude.{length, slice_get, slice_index_or, option_map, option_and_then};
ghost use Rattle.std.specs.List.Sorted.{IsNonDecreasingBy};
ghost use Rattle.cfi_rows.specs.declared.row_history.KeptRow.{KeptRow as Kept};
ghost use Rattle.cfi_rows.specs.FrameRows as spec;
ghost use Rattle.cfi_rows.specs.RowHistories.{IsRight, rules_after};

use crate::entry_rows::EntryRows;
use crate::row::Row;
use crate::row_history::{KeptRow, RowHistory};
use crate::rules::RuleMap;
use rb_bytes::fault::NoMemory;
use std::alloc::Global;

// How many rows begin at or below an address.
fn count_up_to(rows: &[KeptRow], address: u64) -> usize
    requires { IsNonDecreasingBy (λ r. r.start) rows.now }
    ensures bound { result ≤ length rows.now }
    ensures below { (k : ℕ) (d : Kept) → k < result → (slice_index_or rows.now k d).start ≤ address }
    ensures above { (k : ℕ) (d : Kept) → result ≤ k → k < length rows.now →
        address < (slice_index_or rows.now k d).start }
{
    rows.partition_point(|row| row.start <= address)
}

// The last address before the row with an index; 2^64 - 1 if there is no such row.
fn last_before(rows: &[KeptRow], i: usize, a: u64) -> u64
    requires rises { IsNonDecreasingBy (λ r. r.start) rows.now }
    requires above { (k : ℕ) (d : Kept) → i ≤ k → k < length rows.now → a < (slice_index_or rows.now k d).start }
    ensures { (x k : ℕ) (d : Kept) → x ≤ result → i ≤ k → k < length rows.now →
        x < (slice_index_or rows.now k d).start }
{
    match rows.get(i) {
        Some(row) => row.start.saturating_sub(1),
        None => u64::MAX,
    }
}

impl RowHistory {
    // The rules after `count` changes.
    fn rules_after(&self, alloc: Global, count: usize) -> Result<RuleMap, NoMemory>
        requires right { All (IsRight self.now.changes.items) self.now.kept.items }
        requires within { count ≤ length self.now.changes.items }
        ensures { IfOk result (λ rules. rules ≡ rules_after self.now.changes.items count) }
    {
        let (mut rules, from) = self.kept_rules(alloc, count)?;
        let (made, _) = self.changes.split_at(count);
        let (_, left) = made.split_at(from);
        for change in left {
            rules.replace(change.register, change.shared_rule()?)?;
        }
        Ok(rules)
    }

    // The last rules that were kept after at most `count` changes, and after how many; or no rules, after no change.
    fn kept_rules(&self, alloc: Global, count: usize) -> Result<(RuleMap, usize), NoMemory>
        requires { All (IsRight self.now.changes.items) self.now.kept.items }
        ensures rules { IfOk result (λ k. k.0 ≡ rules_after self.now.changes.items k.1) }
        ensures within { IfOk result (λ k. k.1 ≤ count) }
    {
        let above = self.kept.partition_point(|kept| kept.changes <= count);
        if above > 0 {
            let kept = &self.kept[above - 1];
            // True, since they ascend by their changes; but the prover doesn't know that.
            if kept.changes <= count {
                return Ok((kept.rules.shared()?, kept.changes));
            }
        }
        Ok((RuleMap::new(alloc), 0))
    }
}

impl EntryRows {
    // The index of the row that holds at an address, if one does.
    fn index_at(&self, address: u64) -> Option<usize>
        ensures row { spec.row_at address self.now None
            ≡ option_map (λ r. r.row) (option_and_then (slice_get self.now) result) }
        ensures within { IfSome result (λ i. i < length self.now) }
    {
        let above = count_up_to(&self.history.rows, address);
        if above == 0 { None } else { Some(above - 1) }
    }

    // One of the rows.
    fn row(&self, alloc: Global, i: usize) -> Result<Row, NoMemory>
        requires { i < length self.now }
        ensures { IfOk result (λ row. option_map (λ r. r.row) (slice_get self.now i) ≡ Some row) }
    {
        let kept = &self.history.rows[i];
        let own = self.history.rules_after(alloc, kept.changes)?;
        let rules = own.over(&self.initial.known.rules)?;
        Ok(Row {
            cfa: kept.cfa.copy(alloc)?,
            rules: rules.copied(alloc)?,
        })
    }

    /// The row that holds at an address, if one does.
    pub(crate) fn row_at(&self, alloc: Global, address: u64) -> Result<Option<Row>, NoMemory>
        ensures { IfOk result (λ row. spec.row_at address self.now None ≡ row) }
    {
        match self.index_at(address) {
            Some(i) => Ok(Some(self.row(alloc, i)?)),
            None => Ok(None),
        }
    }

    /// The last address up to which the row that holds at an address goes on holding, or none does.
    pub(crate) fn last_alike(&self, a: u64) -> u64
        ensures { (x : ℕ) → a ≤ x → x ≤ result → spec.row_at x self.now None ≡ spec.row_at a self.now None }
    {
        let above = count_up_to(&self.history.rows, a);
        last_before(&self.history.rows, above, a)
    }
}
