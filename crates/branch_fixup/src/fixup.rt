// Forms and spans for a plan.
ghost use Rattle.std.specs.Prelude.{◌≡◌, ◌+◌, ◌%◌, ◌^◌, ◌<◌, ◌≤◌, IfOk, All, sum_by};
ghost use Rattle.rv_code.specs.layout.FunctionLists.{AreLaidOut};
ghost use Rattle.rv_code.specs.layout.WorstSizes.{worst_size_of_block};
ghost use Rattle.rv_code.specs.layout.BlockOrders.{HasAllBlocks};
ghost use Rattle.addr_map.specs.Spans.{IsStretch};
ghost use Rattle.branch_fixup.specs.Forms.{AreForms, AreMap, new_code_end};
ghost use Rattle.branch_fixup.specs.Inputs.{AreBlocksOf, AreDirect, AreNear};
ghost use Rattle.branch_fixup.specs.Strips.{planned_strips, spans_of};

use crate::ends::ends;
use crate::growth::grow;
use crate::spans::spans;
use addr_map::Span;
use rb_bytes::fault::NoMemory;
use rv_code::{Block, Form, Func, Plan};
use std::alloc::Global;

/// A form for each block, in the plan's order, and the spans of all instructions, from `base` on: the new code is one
/// stretch of bytes, with the blocks in that order. Each branch and jump reaches its target, and no block could have
/// the next shorter form if all other forms stayed the same.
///
/// The blocks are all blocks of the functions. The plan has each once, and blocks between which control goes are near
/// each other in it. `base` is even and not 0, and with all blocks at their worst sizes the new code ends below 2^64.
pub fn forms(
    alloc: Global,
    funcs: &[Func],
    blocks: &[Block],
    plan: &Plan,
    base: u64,
) -> Result<(Vec<Form>, Vec<Span>), NoMemory>
    requires laid { AreLaidOut funcs.now }
    requires direct { AreDirect funcs.now }
    requires blocks { AreBlocksOf funcs.now blocks.now }
    requires order { HasAllBlocks blocks.now plan.now.order.items }
    requires near { AreNear funcs.now blocks.now plan.now.order.items }
    requires even { base % 2 ≡ 0 }
    requires some { 0 < base }
    requires room { base + sum_by (worst_size_of_block funcs.now) blocks.now < 2 ^ 64 }
    ensures forms { IfOk result (λ r. AreForms (planned_strips funcs.now blocks.now plan.now) base r.0.items) }
    ensures spans { IfOk result (λ r. r.1.items ≡ spans_of (planned_strips funcs.now blocks.now plan.now) base
        r.0.items) }
    ensures map { IfOk result (λ r. AreMap funcs.now blocks.now r.1.items) }

    // The new code is one stretch, and is at most as long as all worst sizes together.
    ensures stretch { IfOk result (λ r.
        IsStretch r.1.items base (new_code_end (planned_strips funcs.now blocks.now plan.now) base r.0.items)) }
    ensures room { IfOk result (λ r.
        new_code_end (planned_strips funcs.now blocks.now plan.now) base r.0.items
        ≤ base + sum_by (worst_size_of_block funcs.now) blocks.now) }
    ensures short { IfOk result (λ r. All (λ s. s.len ≤ 12) r.1.items) }
{
    let order = plan.order.as_slice();
    let (block_ends, mut forms) = ends(alloc, funcs, blocks, order)?;
    grow(alloc, &block_ends, &mut forms)?;
    let spans = spans(alloc, funcs, blocks, order, &forms, base)?;
    Ok((forms, spans))
}
