// Worst sizes of blocks.
ghost use Rattle.std.specs.Prelude.{◌≡◌, ◌≤◌, ◌^◌, All, IfOk, map};
ghost use Rattle.rv_code.specs.layout.WorstSizes as worst;

use rb_bytes::fault::NoMemory;
use rv_code::{Block, Func, worst_size_of_block};
use std::alloc::Global;

/// The worst size of each block: the most bytes that it can take in the new code.
pub fn block_sizes(alloc: Global, funcs: &[Func], blocks: &[Block]) -> Result<Vec<u128>, NoMemory>
    ensures sizes { IfOk result (λ v. v.items ≡ map (worst.worst_size_of_block funcs.now) blocks.now) }
    ensures small { IfOk result (λ v. All (λ size. size ≤ 2 ^ 67) v.items) }
{
    let mut sizes = Vec::new(alloc);
    for block in blocks {
        sizes.push(worst_size_of_block(funcs, block))?;
    }
    Ok(sizes)
}
