// The lines that show a flow, function by function.
ghost use Rattle.std.specs.Prelude.{◌≡◌, ◌++◌, ◌<◌, ◌≤◌, ◌-◌, ◌^◌, All, AllPairs, IfOk, OnOk, length, map};
ghost use Rattle.std.specs.List.{range_with_len};
ghost use Rattle.rv_code.specs.layout.BlockOrders.{blocks_of_function};
ghost use Rattle.rv_code.specs.layout.Blocks.{IsBefore};
ghost use Rattle.cfg_build.specs.EdgeLists.{AreStretches};
ghost use Rattle.flow_infer.specs.Flows.{change};
ghost use Rattle.flow_infer.specs.Links.{IsLinkBefore, a_block, counted_ends, func_of_ends};
ghost use Rattle.flow_text.specs.LinkLists.{AreLinksOf};
ghost use Rattle.flow_text.specs.Report as spec;

use crate::lines::{put_link, put_price, put_total};
use flow_infer::{Flow, Link};
use rb_bytes::fault::NoMemory;
use rv_code::{Block, Func};
use std::alloc::Global;

/// The prices and links of each function that has a count, and a last line with the number of links and the total
/// change.
pub fn report(
    alloc: Global,
    funcs: &[Func],
    blocks: &[Block],
    flow: &Flow,
) -> Result<Vec<u8>, NoMemory>
    requires blocks { AreStretches funcs.now blocks.now }
    requires links { AreLinksOf blocks.now flow.now.links.items }
    requires priced { length flow.now.prices.items ≡ length blocks.now }
    requires few { change flow.now.links.items < 2 ^ 128 }
    ensures { IfOk result (λ text. text.items ≡ spec.report funcs.now blocks.now flow.now) }
{
    let mut text = Vec::new(alloc);
    for func in 0..funcs.len() {
        put_function(&mut text, funcs, blocks, flow, func)?;
    }
    put_total(&mut text, &flow.links)?;
    Ok(text)
}

// Appends the lines of function `func`, if one of its links has a count.
fn put_function(
    text: &mut Vec<u8>,
    funcs: &[Func],
    blocks: &[Block],
    flow: &Flow,
    func: usize,
) -> Result<(), NoMemory>
    requires blocks { AreStretches funcs.now blocks.now }
    requires links { AreLinksOf blocks.now flow.now.links.items }
    requires priced { length flow.now.prices.items ≡ length blocks.now }
    ensures { OnOk result (text.new.items ≡ text.old.items ++ spec.function_lines funcs.now blocks.now flow.now func) }
{
    let links = links_of(blocks, &flow.links, func);
    if !has_count(links) {
        return Ok(());
    }
    let (first, end) = blocks_of(blocks, func);
    for place in first..end {
        put_price(text, funcs, blocks, &flow.prices, place)?;
    }
    for link in links {
        put_link(text, funcs, blocks, link)?;
    }
    Ok(())
}

fn has_count(links: &[Link]) -> bool
    ensures { result ≡ spec.has_count links.now }
{
    links.iter().any(|link| link.count > 0)
}

// The links of function `func`.
fn links_of<'a>(blocks: &[Block], links: &'a [Link], func: usize) -> &'a [Link]
    requires { AllPairs (IsLinkBefore blocks.now) (map counted_ends links.now) }
    ensures { result.now ≡ spec.links_of blocks.now links.now func }
{
    let (upto, _) = links.split_at(links.partition_point(|l| func_of_link(blocks, l) <= func));
    let (_, found) = upto.split_at(upto.partition_point(|l| func_of_link(blocks, l) < func));
    found
}

// The function of a link. A link between blocks that don't exist counts as a link of function 0.
fn func_of_link(blocks: &[Block], link: &Link) -> usize
    ensures { result ≡ func_of_ends blocks.now (counted_ends link.now) }
{
    match blocks.get(block_of(link)) {
        Some(block) => block.func,
        None => 0,
    }
}

// A block at an end of a link: the one at its start, if there is one, otherwise the one at its end.
fn block_of(link: &Link) -> usize
    ensures { result ≡ a_block link.now.from link.now.to }
{
    match link.from {
        Some(from) => from,
        None => link.to.unwrap_or(0),
    }
}

// The range of the blocks of function `func` in the list of blocks.
fn blocks_of(blocks: &[Block], func: usize) -> (usize, usize)
    requires { AllPairs IsBefore blocks.now }
    ensures order { result.0 ≤ result.1 }
    ensures inside { result.1 ≤ length blocks.now }
    ensures all { range_with_len result.0 (result.1 - result.0) ≡ blocks_of_function blocks.now func }
{
    let first = blocks.partition_point(|b| b.func < func);
    let end = blocks.partition_point(|b| b.func <= func);
    (first, end)
}
