// The starts of the cold parts of functions.
ghost use Rattle.std.specs.Prelude.{◌≡◌, IfOk};
ghost use Rattle.block_layout.specs.EdgeCounts.{first_address};
ghost use Rattle.rv_code.specs.layout.BlockOrders.{list_of};
ghost use Rattle.bolt_core.specs.ProfileOrder.{cold_start, cold_starts};

use rb_bytes::fault::NoMemory;
use rb_bytes::lists::push_some;
use rv_code::{Block, Chains, Func};
use std::alloc::Global;

// The address of the first instruction of the block with index `place`; 0 if there is none.
fn first_address(funcs: &[Func], blocks: &[Block], place: usize) -> u64
    ensures { result ≡ first_address funcs.now blocks.now place }
{
    let Some(block) = blocks.get(place) else {
        return 0;
    };
    let Some(func) = funcs.get(block.func) else {
        return 0;
    };
    let Some(inst) = func.insts.get(block.first) else {
        return 0;
    };
    inst.addr
}

// The blocks of one part of the function with index `place`, from the lists of all functions.
fn list_at(lists: &[Vec<usize>], place: usize) -> &[usize]
    ensures { result.now ≡ list_of lists.now place }
{
    match lists.get(place) {
        Some(list) => list.as_slice(),
        None => &[],
    }
}

// The start of a function's cold part in the input, if the function has a hot and a cold part. `hot` and `cold` are the
// indices of their blocks.
fn cold_start(funcs: &[Func], blocks: &[Block], hot: &[usize], cold: &[usize]) -> Option<u64>
    ensures { result ≡ cold_start funcs.now blocks.now hot.now cold.now }
{
    if hot.is_empty() {
        return None;
    }
    let place = cold.first()?;
    Some(first_address(funcs, blocks, *place))
}

/// For each function with a hot and a cold part, the address in the input of the cold part's first instruction, in the
/// order of functions.
pub fn cold_starts(
    alloc: Global,
    funcs: &[Func],
    blocks: &[Block],
    parts: &Chains,
) -> Result<Vec<u64>, NoMemory>
    ensures { IfOk result (λ starts. starts.items ≡ cold_starts funcs.now blocks.now parts.now) }
{
    let mut starts = Vec::new(alloc);
    for f in 0..funcs.len() {
        let hot = list_at(&parts.hot, f);
        let cold = list_at(&parts.cold, f);
        let start = cold_start(funcs, blocks, hot, cold);
        push_some(&mut starts, start)?;
    }
    Ok(starts)
}
