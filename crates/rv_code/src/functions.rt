// Finds functions by address, and starts of functions and blocks.
ghost use Rattle.std.specs.Prelude.{◌≡◌, ◌<◌, ◌≤◌, ℕ, All, IfOk, length, map, slice_index_or};
ghost use Rattle.std.specs.List.Sorted.{IsNonDecreasingBy};
ghost use Rattle.rv_code.specs.declared.placed.Func.{Func};
ghost use Rattle.rv_code.specs.layout.Blocks.{block_start};
ghost use Rattle.rv_code.specs.layout.FunctionLists.{AreLaidOut};
ghost use Rattle.rv_code.specs.layout.FunctionMembers as functions;

use crate::placed::{Block, Func};
use std::alloc::{AllocError, Global};

/// Whether `address` is in the function.
pub fn func_holds(func: &Func, address: u64) -> bool
    ensures { result ≡ functions.func_holds address func.now }
{
    func.start <= address && address < func.end
}

/// The index of the function that contains `address`, by a binary search.
pub fn function_at(funcs: &[Func], address: u64) -> Option<usize>
    requires { AreLaidOut funcs.now }
    ensures { result ≡ functions.function_at funcs.now address }
{
    let above = funcs.partition_point(|func| func.end <= address);
    if above < funcs.len() && funcs[above].start <= address {
        Some(above)
    } else {
        None
    }
}

/// The number of functions that start at or below `address`, by a binary search.
pub fn starts_up_to(funcs: &[Func], address: u64) -> usize
    requires { IsNonDecreasingBy (λ f. f.start) funcs.now }
    ensures bound { result ≤ length funcs.now }
    ensures below { (k : ℕ) (d : Func) → k < result → (slice_index_or funcs.now k d).start ≤ address }
    ensures above { (k : ℕ) (d : Func) → result ≤ k → k < length funcs.now →
        address < (slice_index_or funcs.now k d).start }
{
    funcs.partition_point(|f| f.start <= address)
}

/// The address of the first instruction of a block.
pub fn block_start(funcs: &[Func], block: &Block) -> u64
    requires { functions.IsOfFunction funcs.now block.now }
    ensures { result ≡ block_start funcs.now block.now }
{
    funcs[block.func].insts[block.first].addr
}

/// The start address of each block, in the order of `blocks`.
pub fn block_starts(alloc: Global, funcs: &[Func], blocks: &[Block]) -> Result<Vec<u64>, AllocError>
    requires { All (functions.IsOfFunction funcs.now) blocks.now }
    ensures { IfOk result (λ starts. starts.items ≡ map (block_start funcs.now) blocks.now) }
{
    let mut starts = Vec::new(alloc);
    for block in blocks {
        starts.push(block_start(funcs, block))?;
    }
    Ok(starts)
}
