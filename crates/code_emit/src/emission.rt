// The new code of all blocks, and the new content of all cells.
ghost use Rattle.std.specs.Prelude.{◌≡◌, ◌+◌, ℕ, All, IfOk, [], length, map};
ghost use Rattle.std.specs.Option.{option_map_or};
ghost use Rattle.rv_code.specs.layout.Flow.{insts_of};
ghost use Rattle.rv_code.specs.layout.FunctionLists.{AreLaidOut};
ghost use Rattle.rv_code.specs.layout.BlockOrders.{HasAllBlocks};
ghost use Rattle.addr_map.specs.Spans.{new};
ghost use Rattle.move_law.specs.FaithfulRewrite.{KeepsInst, GoesOn};
ghost use Rattle.move_law.specs.Rewrite.{Rewrite, Goes};
ghost use Rattle.branch_fixup.specs.Ends.{begins_of};
ghost use Rattle.branch_fixup.specs.Forms.{new_code_end};
ghost use Rattle.branch_fixup.specs.Inputs.{AreBlocksOf, LeadsToCode};
ghost use Rattle.branch_fixup.specs.Strips.{pieces_of, strips_of};
ghost use Rattle.code_emit.specs.Bytes.{Adds};
ghost use Rattle.code_emit.specs.Inputs.{AreMapped, CanMove, HaveMap, IsLowCell};
ghost use Rattle.code_emit.specs.NewInsts.{made_from};
ghost use Rattle.code_emit.specs.Output.{Puts, new_cell};

use crate::anew::new_of;
use crate::block::put_block;
use crate::cells::contents;
use addr_map::AddrMap;
use branch_fixup::block_insts::{begins_of, planned};
use rb_bytes::fault::NoMemory;
use rv_code::{Block, CodeCell, Emitted, Form, Func, Plan};
use std::alloc::Global;

// The start of the new code: the new address of the first block.
fn code_start(funcs: &[Func], blocks: &[Block], order: &[usize], moved: &AddrMap) -> u64
    requires laid { AreLaidOut funcs.now }
    requires blocks { AreBlocksOf funcs.now blocks.now }
    requires order { HasAllBlocks blocks.now order.now }
    ensures { result ≡ option_map_or (new moved.now) (begins_of (strips_of funcs.now blocks.now order.now) 0) 0 }
{
    match begins_of(funcs, blocks, order, 0) {
        Some(first) => new_of(moved, first),
        None => 0,
    }
}

// The bytes of the blocks in `order`, one block after another.
fn code(
    alloc: Global,
    funcs: &[Func],
    blocks: &[Block],
    order: &[usize],
    forms: &[Form],
    moved: &AddrMap,
) -> Result<Vec<u8>, NoMemory>
    requires laid { AreLaidOut funcs.now }
    requires direct { All (LeadsToCode funcs.now) (insts_of funcs.now) }
    requires blocks { AreBlocksOf funcs.now blocks.now }
    requires order { HasAllBlocks blocks.now order.now }
    requires insts { All CanMove (insts_of funcs.now) }
    requires mapped { HaveMap (strips_of funcs.now blocks.now order.now) forms.now moved.now }
    requires one_each { length forms.now ≡ length order.now }
    ensures { IfOk result
        (λ code. (base : ℕ) → AreMapped (strips_of funcs.now blocks.now order.now) forms.now base moved.now →
        Adds [] code.items (made_from (new moved.now) base
        (pieces_of (strips_of funcs.now blocks.now order.now) forms.now))) }
{
    let start = code_start(funcs, blocks, order, moved);
    let mut code = Vec::new(alloc);
    for k in 0..order.len() {
        let block = planned(funcs, blocks, order, k);
        let at = start + code.len() as u64;
        put_block(&mut code, moved, at, &block, forms[k])?;
    }
    Ok(code)
}

/// The bytes of the new code, and for each code cell its address, its width in bytes and its new content.
///
/// The blocks are all blocks of the functions, and the plan has each once. The forms, one for each block in the plan's
/// order, are the result of `branch_fixup::forms`, and the map has its spans. All spans end at most at 0x7fff0000.
pub fn emit(
    alloc: Global,
    funcs: &[Func],
    blocks: &[Block],
    plan: &Plan,
    forms: &[Form],
    moved: &AddrMap,
    cells: &[CodeCell],
) -> Result<Emitted, NoMemory>
    requires laid { AreLaidOut funcs.now }
    requires direct { All (LeadsToCode funcs.now) (insts_of funcs.now) }
    requires blocks { AreBlocksOf funcs.now blocks.now }
    requires order { HasAllBlocks blocks.now plan.now.order.items }
    requires insts { All CanMove (insts_of funcs.now) }
    requires cells { All IsLowCell cells.now }
    requires mapped { HaveMap (strips_of funcs.now blocks.now plan.now.order.items) forms.now moved.now }

    // the code is one stretch of bytes
    ensures length { IfOk result
        (λ e. (base : ℕ) → AreMapped (strips_of funcs.now blocks.now plan.now.order.items) forms.now base moved.now →
        base + length e.code.items ≡ new_code_end (strips_of funcs.now blocks.now plan.now.order.items) base
        forms.now) }

    // the instructions of the code are exactly those of the blocks in their forms
    ensures made { IfOk result
        (λ e. (base : ℕ) → AreMapped (strips_of funcs.now blocks.now plan.now.order.items) forms.now base moved.now →
        Adds [] e.code.items
        (made_from (new moved.now) base (pieces_of (strips_of funcs.now blocks.now plan.now.order.items) forms.now))) }

    // in every rewrite with this map and this code, each instruction is kept, and control goes on from it to what
    // followed it
    ensures insts { IfOk result
        (λ e. (base : ℕ) → AreMapped (strips_of funcs.now blocks.now plan.now.order.items) forms.now base moved.now →
        (r : Rewrite) → Puts r funcs.now moved.now base e.code.items →
        All (KeepsInst r (Goes r.output)) (insts_of funcs.now)) }
    ensures goes_on { IfOk result
        (λ e. (base : ℕ) → AreMapped (strips_of funcs.now blocks.now plan.now.order.items) forms.now base moved.now →
        (r : Rewrite) → Puts r funcs.now moved.now base e.code.items →
        All (GoesOn r (Goes r.output)) (insts_of funcs.now)) }
    ensures cells { IfOk result (λ e. e.cells.items ≡ map (new_cell (new moved.now)) cells.now) }
{
    let order = plan.order.as_slice();
    let bytes = code(alloc, funcs, blocks, order, forms, moved)?;
    let fields = contents(alloc, moved, cells)?;
    Ok(Emitted {
        code: bytes,
        cells: fields,
    })
}
