// The map ordered by old address.
ghost use Rattle.std.specs.Prelude.{◌≡◌, ℕ, AllPairs, IfOk, length};
ghost use Rattle.addr_map.specs.Spans.{moved};
ghost use Rattle.addr_map.specs.internal.Orders.{AreApart, IsRising, moved_in};

use crate::fields::{inputs_of, outs_of};
use crate::order::by_input;
use crate::span::Span;
use rb_bytes::fault::NoMemory;
use rb_lanes::{Hints, count_below};
use std::alloc::Global;

/// The old addresses in ascending order, and the new address of each.
#[derive(Drop)]
pub(crate) struct OldOrder {
    inputs: Vec<u64>,
    hints: Hints,
    outs: Vec<u64>,
    ghost rises: { IsRising inputs.items },
    ghost same_count: { length outs.items ≡ length inputs.items },
}

impl OldOrder {
    /// A map from spans in any order.
    pub(crate) fn new(alloc: Global, spans: &[Span]) -> Result<OldOrder, NoMemory>
        requires { AllPairs AreApart spans.now }
        ensures { IfOk result (λ order. (a : ℕ) →
            moved_in order.inputs.items order.outs.items a ≡ moved spans.now a) }
    {
        let sorted = by_input(alloc, spans)?;
        let inputs = inputs_of(alloc, &sorted)?;
        let hints = Hints::new(alloc, &inputs)?;
        let outs = outs_of(alloc, &sorted)?;
        Ok(OldOrder {
            inputs,
            hints,
            outs,
        })
    }

    /// The new address of the instruction at `a`, or None if no instruction is there.
    pub(crate) fn moved(&self, a: u64) -> Option<u64>
        ensures { result ≡ moved_in self.now.inputs.items self.now.outs.items a }
    {
        let i = count_below(&self.inputs, self.hints.near(a), a);
        if i == self.inputs.len() {
            return None;
        }
        if self.inputs[i] == a {
            Some(self.outs[i])
        } else {
            None
        }
    }
}
