// Joining the flows of functions, one function after another.
ghost use Rattle.std.specs.Prelude.{◌≡◌, ◌+◌, ◌++◌, ◌<◌, ◌^◌, ℕ, All, IfOk, OnOk, length, map, pos, ◌-ℤ◌};
ghost use Rattle.flow_infer.specs.Flows.{bare};
ghost use Rattle.flow_infer.specs.Heights.{AreAmong, AreLevel, ArePricesBy, IsLevel, IsSettled, level as level_of};

use crate::flow::{Flow, Link};
use crate::settling::settle;
use rb_bytes::fault::NoMemory;
use std::alloc::Global;

/// Adds the links of the next function, with a flow that balances, and the prices of its blocks, whose number is
/// `nodes` - 1. Before the call, the flow of each link is its count.
pub fn add_function(
    alloc: Global,
    flow: &mut Flow,
    links: &mut [Link],
    nodes: usize,
) -> Result<(), NoMemory>
    requires few { nodes < 2 ^ 63 }
    requires some { 0 < nodes }
    requires among { AreAmong (length flow.old.prices.items) nodes links.old }
    requires counted { All (λ l. l.flow ≡ l.count) links.old }
    ensures settled { OnOk result (IsSettled flow.old.links.items flow.old.prices.items →
        IsSettled flow.new.links.items flow.new.prices.items) }
    ensures priced { OnOk result (length flow.new.prices.items + 1 ≡ length flow.old.prices.items + nodes) }
    ensures same { OnOk result (map bare flow.new.links.items ≡ map bare flow.old.links.items ++ map bare links.old) }
{
    let first = flow.prices.len();
    let heights = settle(alloc, links, first, nodes)?;
    let prices = prices(alloc, &heights)?;
    flow.prices.extend_from_slice(&prices)?;
    flow.links.extend_from_slice(links)?;
    Ok(())
}

// The prices of blocks from the heights of nodes: the level of each block minus the level of the outside.
fn prices(alloc: Global, heights: &[u64]) -> Result<Vec<i64>, NoMemory>
    requires { 0 < length heights.now }
    ensures length { IfOk result (λ prices. length prices.items + 1 ≡ length heights.now) }
    ensures prices { IfOk result (λ prices. ArePricesBy heights.now prices.items) }
    ensures level { OnOk result (AreLevel heights.now) }
{
    let outside = level(heights[0])?;
    let mut prices = Vec::new(alloc);
    for n in 1..heights.len() {
        prices.push(price(outside, level(heights[n])?))?;
    }
    Ok(prices)
}

// The level of a height: the height adds up the costs of one way or of several, and its level is the number of changes
// by one that they contain, so it is rounded to a multiple of 2^32. Each lowered count costs 1 more, which the rounding
// drops. `NoMemory` if the ways lower 2^30 counts or more together, or if the height doesn't fit.
fn level(height: u64) -> Result<u64, NoMemory>
    ensures level { IfOk result (λ l. l ≡ level_of height) }
    ensures bound { IfOk result (λ l. l < 2 ^ 32) }
    ensures near { OnOk result (IsLevel height) }
{
    let half = height.checked_add(1 << 31).ok_or(NoMemory)?;
    let rest = half % (1 << 32);
    if rest <= 1 << 30 || rest >= 3 << 30 {
        return Err(NoMemory);
    }
    Ok(half / (1 << 32))
}

// The price of a block: its level minus the level of the outside.
fn price(outside: u64, level: u64) -> i64
    requires outside { outside < 2 ^ 32 }
    requires level { level < 2 ^ 32 }
    ensures { result ≡ pos level -ℤ pos outside }
{
    level as i64 - outside as i64
}
