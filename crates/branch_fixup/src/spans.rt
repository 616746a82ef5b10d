// The spans of instructions.
ghost use Rattle.std.specs.Prelude.{◌≡◌, ◌+◌, ◌≤◌, ◌<◌, ◌^◌, ◌++◌, IfOk, length, map};
ghost use Rattle.rv_code.specs.layout.FunctionLists.{AreLaidOut};
ghost use Rattle.rv_code.specs.layout.BlockOrders.{HasAllBlocks};
ghost use Rattle.branch_fixup.specs.BlockInsts.{seen};
ghost use Rattle.branch_fixup.specs.Inputs.{AreBlocksOf};
ghost use Rattle.branch_fixup.specs.Pieces.{as_it_is, laid_from, end_from};
ghost use Rattle.branch_fixup.specs.Strips.{strips_of, pieces_of, pieces_of_strip, spans_of};

use crate::block_insts::{BlockInsts, planned};
use crate::lengths::piece_length;
use addr_map::Span;
use rb_bytes::fault::NoMemory;
use rv_code::{Block, Form, Func, Placed};
use std::alloc::Global;

// Appends the spans of `insts`, which keep their lengths, from the address `at` on. Returns the address after them.
fn put_inner(spans: &mut Vec<Span>, mut at: u64, insts: &[Placed]) -> Result<u64, NoMemory>
    requires { end_from at (map as_it_is insts.now) < 2 ^ 64 }
    ensures spans { IfOk result (λ end. spans.new.items ≡ spans.old.items ++ laid_from at (map as_it_is insts.now)) }
    ensures end { IfOk result (λ end. end ≡ end_from at (map as_it_is insts.now)) }
{
    for inst in insts {
        spans.push(Span {
            out: at,
            len: inst.len,
            input: inst.addr,
        })?;
        at += inst.len as u64;
    }
    Ok(at)
}

// Appends the spans of a block from the address `at` on, with its last instruction in `form`. Returns the address after
// them.
fn put_block(
    spans: &mut Vec<Span>,
    at: u64,
    block: &BlockInsts,
    form: Form,
) -> Result<u64, NoMemory>
    requires low { end_from at (pieces_of_strip (seen block.now) form) < 2 ^ 64 }
    requires short { block.now.last.len ≤ 4 }
    ensures spans { IfOk result (λ end.
        spans.new.items ≡ spans.old.items ++ laid_from at (pieces_of_strip (seen block.now) form)) }
    ensures end { IfOk result (λ end. end ≡ end_from at (pieces_of_strip (seen block.now) form)) }
{
    let last_at = put_inner(spans, at, block.inner)?;
    let len = piece_length(block.last.len, form);
    spans.push(Span {
        out: last_at,
        len,
        input: block.last.addr,
    })?;
    Ok(last_at + len as u64)
}

/// The spans of all instructions: of the blocks in `order`, each with its form of `forms`, from the address `base` on.
pub fn spans(
    alloc: Global,
    funcs: &[Func],
    blocks: &[Block],
    order: &[usize],
    forms: &[Form],
    base: u64,
) -> Result<Vec<Span>, NoMemory>
    requires laid { AreLaidOut funcs.now }
    requires blocks { AreBlocksOf funcs.now blocks.now }
    requires order { HasAllBlocks blocks.now order.now }
    requires one_each { length forms.now ≡ length order.now }
    requires low { end_from base (pieces_of (strips_of funcs.now blocks.now order.now) forms.now) < 2 ^ 64 }
    ensures { IfOk result (λ spans. spans.items ≡ spans_of (strips_of funcs.now blocks.now order.now) base forms.now) }
{
    let mut spans = Vec::new(alloc);
    let mut at = base;
    for k in 0..order.len() {
        let block = planned(funcs, blocks, order, k);
        at = put_block(&mut spans, at, &block, forms[k])?;
    }
    Ok(spans)
}
