// The map ordered by new address.
ghost use Rattle.std.specs.Prelude.{◌≡◌, ℕ, ◌*◌, ◌^◌, ◌<◌, AllPairs, IfOk, List, length, map, slice_get, slice_index};
ghost use Rattle.addr_map.specs.internal.Columns.{IsAscending};
ghost use Rattle.addr_map.specs.internal.Orders.{IsHolder};
ghost use Rattle.addr_map.specs.Spans.{ShareNoByte, owner};

use crate::column::SortedColumn;
use crate::fields::{inputs_of, lens_of, outs_of};
use crate::span::Span;
use rb_bytes::fault::NoMemory;
use std::alloc::Global;
use std::marker::Model;

/// The spans in the order of the map's lines, as columns.
#[derive(Drop)]
pub(crate) struct NewOrder {
    outs: SortedColumn,
    lens: Vec<u8>,
    inputs: Vec<u64>,
    /// For each line, the last line up to it whose span has bytes, or 0 if there is none. A byte after an empty span
    /// may belong to a longer span that started before it.
    holders: Vec<u32>,
}

impl Model for NewOrder {
    ghost use Rattle.std.specs.Prelude.{List};
    ghost use Rattle.addr_map.specs.declared.span.Span.{Span};
    ghost use Rattle.addr_map.specs.internal.Orders.{IsByNew, column_spans};

    ghost Value = { List Span };

    ghost view = { λ m. column_spans m.outs m.lens.items m.inputs.items };

    ghost invariant = { λ m. IsByNew m.outs m.lens.items m.inputs.items m.holders.items };
}

impl NewOrder {
    /// A map from the spans in the order of their lines.
    pub(crate) fn new(alloc: Global, lines: &[Span]) -> Result<NewOrder, NoMemory>
        requires ascending { IsAscending (map (λ s. s.out) lines.now) }
        requires disjoint { AllPairs ShareNoByte lines.now }
        ensures { IfOk result (λ m. m ≡ lines.now) }
    {
        let outs = SortedColumn::new(alloc, outs_of(alloc, lines)?)?;
        let lens = lens_of(alloc, lines)?;
        let inputs = inputs_of(alloc, lines)?;
        let holders = holders_of(alloc, &lens)?;
        Ok(NewOrder {
            outs,
            lens,
            inputs,
            holders,
        })
    }

    /// The number of spans.
    pub(crate) fn len(&self) -> usize
        ensures count { result ≡ length self.now }
        ensures few { 24 * result < 2 ^ 63 }
    {
        self.inputs.len()
    }

    /// The span of line `i`, counted from 0.
    pub(crate) fn line(&self, i: usize) -> Span
        requires { i < length self.now }
        ensures { slice_get self.now i ≡ Some result }
    {
        Span {
            out: self.outs.members()[i],
            len: self.lens[i],
            input: self.inputs[i],
        }
    }

    /// The span of line `i`, or None if there is no such line.
    pub(crate) fn span(&self, i: usize) -> Option<Span>
        ensures { result ≡ slice_get self.now i }
    {
        if i < self.len() {
            Some(self.line(i))
        } else {
            None
        }
    }

    /// The old address of the instruction to which the new byte at `p` belongs.
    pub(crate) fn owner(&self, p: u64) -> Option<u64>
        ensures { result ≡ owner self.now p }
    {
        let count = self.outs.rank(p);
        if count == 0 {
            return None;
        }
        let held = self.holders[count - 1];
        let holder = held as usize;
        if p - self.outs.members()[holder] < self.lens[holder] as u64 {
            Some(self.inputs[holder])
        } else {
            None
        }
    }
}

// The column `holders` of spans with the lengths `lens`.
#[tactic(auto, using(crate::proofs::Owners::holder_here, crate::proofs::Owners::holder_none, crate::proofs::Owners::holder_next))]
fn holders_of(alloc: Global, lens: &[u8]) -> Result<Vec<u32>, NoMemory>
    ensures count { IfOk result (λ holders. length holders.items ≡ length lens.now) }
    ensures held { IfOk result (λ holders. (i : ℕ) → i < length lens.now →
        IsHolder lens.now i (slice_index holders.items i)) }
{
    let mut holders = Vec::with_capacity(alloc, lens.len())?;
    let mut holder = 0;
    for (i, len) in lens.iter().enumerate() {
        if *len > 0 {
            holder = short_index(i)?;
        }
        holders.push(holder)?;
    }
    Ok(holders)
}

// An index in 32 bits. A map of more spans fits in no memory.
fn short_index(i: usize) -> Result<u32, NoMemory>
    ensures { IfOk result (λ n. n ≡ i) }
{
    u32::try_from(i).ok().ok_or(NoMemory)
}
