// How often control came into blocks from outside their functions, left their functions, and took edges.
ghost use Rattle.std.specs.Prelude.{◌≡◌, ◌==◌, ◌||◌, ◌↔◌, ◌<◌, ℕ, AllPairs, Contains, IsTrue, None, Some, filter};
ghost use Rattle.std.specs.Prelude.{length};
ghost use Rattle.std.specs.List.Sorted.{IsNonDecreasingBy};
ghost use Rattle.rv_code.specs.layout.FunctionMembers.{IsOfFunction};
ghost use Rattle.rv_code.specs.layout.Lists.{IsPairBefore};
ghost use Rattle.rv_code.specs.layout.ProgramCode.{ProgramCode};
ghost use Rattle.flow_infer.specs.Links as links;
ghost use Rattle.flow_infer.specs.Links.{IsEntered, link_count};
ghost use Rattle.flow_infer.specs.Sources.{AreSources, IsCodeOf, IsLinkIn};

use crate::counts::count_outside;
use crate::leaving::leaves;
use crate::source::Source;
use rv_code::functions::block_start;
use rv_code::{Block, Func};

/// How often control came into block `k` from outside its function, or `None` if it can't.
pub fn way_in(source: &Source, k: usize) -> Option<u128>
    requires source { AreSources source.now }
    requires inside { k < length source.now.blocks.now }
    ensures { (code : ProgramCode) → IsCodeOf code source.now →
        (c : ℕ) → (result ≡ Some c) ↔ IsLinkIn code source.now (None, Some k, c) }
{
    let block = &source.blocks[k];
    let func = &source.funcs[block.func];
    if !is_entered(source, block) {
        return None;
    }
    let start = block_start(source.funcs, block);
    Some(count_outside(source.ends, func, start))
}

/// How often control left the function from block `k`, or `None` if it can't.
pub fn way_out(source: &Source, k: usize) -> Option<u128>
    requires source { AreSources source.now }
    requires inside { k < length source.now.blocks.now }
    ensures { (code : ProgramCode) → IsCodeOf code source.now →
        (c : ℕ) → (result ≡ Some c) ↔ IsLinkIn code source.now (Some k, None, c) }
{
    let block = &source.blocks[k];
    let func = &source.funcs[block.func];
    if !leaves(func, block.last) {
        return None;
    }
    let end = block_end(source.funcs, block);
    Some(count_outside(source.pairs, func, end))
}

/// How often control went from the end of block `from` to the start of block `to`.
pub fn count_between(source: &Source, from: usize, to: usize) -> u128
    requires source { AreSources source.now }
    requires from { from < length source.now.blocks.now }
    requires to { to < length source.now.blocks.now }
    ensures { result ≡
        link_count source.now.funcs.now source.now.blocks.now source.now.pairs.now (Some from) (Some to) }
{
    let end = block_end(source.funcs, &source.blocks[from]);
    let start = block_start(source.funcs, &source.blocks[to]);
    source.profile.count(end, start)
}

/// The edges from `block`.
pub fn edges_from<'a>(edges: &'a [(usize, usize)], block: usize) -> &'a [(usize, usize)]
    requires { AllPairs IsPairBefore edges.now }
    ensures { result.now ≡ filter (λ e. e.0 == block) edges.now }
{
    let (upto, _) = edges.split_at(edges.partition_point(|e| e.0 <= block));
    let (_, found) = upto.split_at(upto.partition_point(|e| e.0 < block));
    found
}

// Whether control can come into a block from outside its function.
fn is_entered(source: &Source, block: &Block) -> bool
    requires source { AreSources source.now }
    requires block { IsOfFunction source.now.funcs.now block.now }
    ensures { (code : ProgramCode) → IsCodeOf code source.now → IsTrue result ↔ IsEntered code block.now }
{
    let named = is_member(source.entries, block_start(source.funcs, block));
    begins_or(block.first, named)
}

fn begins_or(first: usize, named: bool) -> bool
    ensures { result ≡ (first == 0 || named) }
{
    first == 0 || named
}

// Whether a number is in an ascending list. A binary search.
fn is_member(numbers: &[u64], number: u64) -> bool
    requires { IsNonDecreasingBy (λ a. a) numbers.now }
    ensures { IsTrue result ↔ Contains numbers.now number }
{
    numbers.binary_search(&number).is_ok()
}

/// The address of a block's last instruction.
pub fn block_end(funcs: &[Func], block: &Block) -> u64
    requires { IsOfFunction funcs.now block.now }
    ensures { result ≡ links.block_end funcs.now block.now }
{
    funcs[block.func].insts[block.last].addr
}
