// How the blocks of a plan end, in their shortest forms.
ghost use Rattle.std.specs.Prelude.{◌≡◌, ◌<◌, IfOk, All, length};
ghost use Rattle.rv_code.specs.layout.FunctionLists.{AreLaidOut};
ghost use Rattle.rv_code.specs.layout.FunctionMembers.{IsOfFunction};
ghost use Rattle.rv_code.specs.layout.BlockOrders.{HasAllBlocks};
ghost use Rattle.branch_fixup.specs.Ends.{AreEnds};
ghost use Rattle.branch_fixup.specs.Inputs.{AreDirect, AreBlocksOf};
ghost use Rattle.branch_fixup.specs.Strips.{strips_of};

use crate::block_insts::{begins_of, first_address, planned};
use crate::endings::{lead_of, shortest_form};
use crate::growth::BlockEnd;
use crate::lookup::{find, places_in};
use rb_bytes::fault::NoMemory;
use rv_code::functions::block_starts;
use rv_code::{Block, Form, Func};
use std::alloc::Global;

/// The end of each block, and its shortest form, in the plan's order.
pub fn ends(
    alloc: Global,
    funcs: &[Func],
    blocks: &[Block],
    order: &[usize],
) -> Result<(Vec<BlockEnd>, Vec<Form>), NoMemory>
    requires laid { AreLaidOut funcs.now }
    requires direct { AreDirect funcs.now }
    requires blocks { AreBlocksOf funcs.now blocks.now }
    requires order { HasAllBlocks blocks.now order.now }
    ensures { IfOk result (λ r. AreEnds (strips_of funcs.now blocks.now order.now)
        (length order.now) r.0.items r.1.items) }
{
    let starts = block_starts(alloc, funcs, blocks)?;
    let places = places_in(alloc, order)?;
    let mut block_ends = Vec::new(alloc);
    let mut forms = Vec::new(alloc);
    for k in 0..order.len() {
        let block = planned(funcs, blocks, order, k);
        let form = shortest_form(&block, begins_of(funcs, blocks, order, k + 1));
        let start = first_address(&block);
        // The target of a form that can't grow doesn't matter: the block's own start will do.
        let (to, offset) = find(
            &starts,
            &places,
            order[k],
            lead_of(&block, form).unwrap_or(start),
        );
        block_ends.push(BlockEnd {
            before: block.last.addr - start,
            len: block.last.len,
            to,
            offset,
        })?;
        forms.push(form)?;
    }
    Ok((block_ends, forms))
}
