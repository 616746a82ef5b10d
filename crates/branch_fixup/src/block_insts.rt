// The instructions of a block.
ghost use Rattle.std.specs.Prelude.{◌≡◌, ◌+◌, ◌<◌, Some, length, slice_get};
ghost use Rattle.rv_code.specs.layout.FunctionLists.{AreLaidOut};
ghost use Rattle.rv_code.specs.layout.BlockOrders.{HasAllBlocks};
ghost use Rattle.rv_code.specs.layout.FunctionMembers.{IsOfFunction};
ghost use Rattle.branch_fixup.specs.Endings.{fall_of};
ghost use Rattle.branch_fixup.specs.Ends.{begins_of};
ghost use Rattle.branch_fixup.specs.Inputs.{AreBlocksOf};
ghost use Rattle.branch_fixup.specs.Strips.{strip_of, strips_of, first_in};
ghost use Rattle.branch_fixup.specs.BlockInsts.{seen, func_starts_at};

use rv_code::flow::fall_target;
use rv_code::{Block, Func, Placed};

/// The instructions of a block, and what the forms need of it.
#[derive(Clone, Copy)]
pub struct BlockInsts<'a> {
    /// The instructions before the last one.
    pub inner: &'a [Placed],
    pub last: Placed,
    /// Whether its function moves as one piece.
    pub whole: bool,
    /// The address to which the last instruction falls through, if it does and an instruction is there.
    pub fall: Option<u64>,
}

/// The instructions of a block.
pub fn insts_of<'a>(funcs: &'a [Func], block: &Block) -> BlockInsts<'a>
    requires laid { AreLaidOut funcs.now }
    requires is { IsOfFunction funcs.now block.now }
    ensures { strip_of funcs.now block.now ≡ Some (seen result) }
{
    let func = &funcs[block.func];
    let insts = func.insts.as_slice();
    let last = insts[block.last];
    BlockInsts {
        inner: &insts[block.first..block.last],
        last,
        whole: func.whole,
        fall: fall_of(funcs, block.func, func, block.last, &last),
    }
}

/// The instructions of the block with index `k` in the plan's order.
pub fn planned<'a>(funcs: &'a [Func], blocks: &[Block], order: &[usize], k: usize) -> BlockInsts<'a>
    requires laid { AreLaidOut funcs.now }
    requires blocks { AreBlocksOf funcs.now blocks.now }
    requires order { HasAllBlocks blocks.now order.now }
    requires inside { k < length order.now }
    ensures { slice_get (strips_of funcs.now blocks.now order.now) k ≡ Some (seen result) }
{
    insts_of(funcs, &blocks[order[k]])
}

/// The old address of the block with index `k` in the plan's order, or `None` past the last one.
pub fn begins_of(funcs: &[Func], blocks: &[Block], order: &[usize], k: usize) -> Option<u64>
    requires laid { AreLaidOut funcs.now }
    requires blocks { AreBlocksOf funcs.now blocks.now }
    requires order { HasAllBlocks blocks.now order.now }
    ensures { result ≡ begins_of (strips_of funcs.now blocks.now order.now) k }
{
    if k < order.len() {
        Some(first_address(&planned(funcs, blocks, order, k)))
    } else {
        None
    }
}

/// The address of a block's first instruction.
pub fn first_address(block: &BlockInsts) -> u64
    ensures { result ≡ first_in block.now.inner.now block.now.last }
{
    match block.inner.first() {
        Some(inst) => inst.addr,
        None => block.last.addr,
    }
}

// The address to which `inst` falls through, if it does and an instruction is there. `inst` has the index `place` in
// `func`, which is function `index`. A function's last instruction falls through to the next function, if that starts
// at its end.
fn fall_of(funcs: &[Func], index: usize, func: &Func, place: usize, inst: &Placed) -> Option<u64>
    requires laid { AreLaidOut funcs.now }
    requires func { slice_get funcs.now index ≡ Some func.now }
    requires inst { slice_get func.now.insts.items place ≡ Some inst.now }
    ensures { result ≡ fall_of funcs.now func.now place inst.now }
{
    let next = fall_target(func, place, inst)?;
    if place + 1 == func.insts.len() && !func_starts_at(funcs, index + 1, next) {
        return None;
    }
    Some(next)
}

// Whether function `index` starts at `address`.
fn func_starts_at(funcs: &[Func], index: usize, address: u64) -> bool
    ensures { result ≡ func_starts_at funcs.now index address }
{
    match funcs.get(index) {
        Some(func) => func.start == address,
        None => false,
    }
}
