// The nodes of one function, and their inflows and outflows.
ghost use Rattle.std.specs.Prelude.{◌≡◌, ◌==◌, ◌+◌, ◌-◌, ◌<◌, ◌≤◌, ◌^◌, ℕ, All, IfOk, IfSome, IsTrue, OnOk, length};
ghost use Rattle.std.specs.Prelude.{slice_index, if◌then◌else◌};
ghost use Rattle.flow_infer.specs.Flows.{inflow, outflow};
ghost use Rattle.flow_infer.specs.Heights as heights;
ghost use Rattle.flow_infer.specs.Heights.{AreAmong, IsAmong, IsNodeBelow, node_of};

use crate::flow::Link;
use rb_bytes::fault::NoMemory;
use std::alloc::Global;

/// The node at an end of a link: 0 for the outside, and from 1 on the blocks of the function, which begin with `first`.
pub fn node(end: Option<usize>, first: usize) -> usize
    requires { IfSome end (λ k. (first ≤ k) × (k - first < 2 ^ 63)) }
    ensures { result ≡ node_of first end }
{
    match end {
        Some(block) => block - first + 1,
        None => 0,
    }
}

/// A number for the node at each end of a link, for example its height.
#[derive(Clone, Copy)]
pub struct Ends {
    pub start: u64,
    pub end: u64,
}

/// The numbers of the nodes at the ends of `link`. `numbers` has one for each node.
pub fn at_ends(numbers: &[u64], first: usize, link: &Link) -> Ends
    requires some { 0 < length numbers.now }
    requires few { length numbers.now < 2 ^ 63 }
    requires among { IsAmong first (length numbers.now) link.now }
    ensures start { result.start ≡ heights.at_node numbers.now first link.now.from }
    ensures end { result.end ≡ heights.at_node numbers.now first link.now.to }
{
    Ends {
        start: at_node(numbers, first, link.from),
        end: at_node(numbers, first, link.to),
    }
}

// The number of the node at an end of a link. `numbers` has one for each node.
fn at_node(numbers: &[u64], first: usize, end: Option<usize>) -> u64
    requires some { 0 < length numbers.now }
    requires few { length numbers.now < 2 ^ 63 }
    requires end { IsNodeBelow first (length numbers.now) end }
    ensures { result ≡ heights.at_node numbers.now first end }
{
    numbers[node(end, first)]
}

/// The inflow and the outflow of each node.
#[derive(Drop)]
pub struct FlowSums {
    pub into: Vec<u128>,
    pub out_of: Vec<u128>,
}

/// Computes the inflow and the outflow of each node.
pub fn sum_flows(
    alloc: Global,
    links: &[Link],
    first: usize,
    nodes: usize,
) -> Result<FlowSums, NoMemory>
    requires few { nodes < 2 ^ 63 }
    requires some { 0 < nodes }
    requires among { AreAmong first nodes links.now }
    ensures lengths { IfOk result (λ s. (length s.into.items ≡ nodes) × (length s.out_of.items ≡ nodes)) }
    ensures into { IfOk result
        (λ s. (k : ℕ) → k + 1 < nodes → slice_index s.into.items (k + 1) ≡ inflow links.now (first + k)) }
    ensures out_of { IfOk result
        (λ s. (k : ℕ) → k + 1 < nodes → slice_index s.out_of.items (k + 1) ≡ outflow links.now (first + k)) }
{
    let mut into = vec![in alloc; 0u128; nodes]?;
    let mut out_of = vec![in alloc; 0u128; nodes]?;
    for link in links {
        add(&mut into, node(link.to, first), link.flow)?;
        add(&mut out_of, node(link.from, first), link.flow)?;
    }
    Ok(FlowSums { into, out_of })
}

// Adds `flow` to the sum of `node`. `NoMemory` for sums above 128 bits; counts of profiles are far smaller.
fn add(sums: &mut [u128], node: usize, flow: u128) -> Result<(), NoMemory>
    requires { node < length sums.old }
    ensures { OnOk result ((n : ℕ) →
        slice_index sums.new n ≡ (if n == node then slice_index sums.old n + flow else slice_index sums.old n)) }
{
    sums[node] = sums[node].checked_add(flow).ok_or(NoMemory)?;
    Ok(())
}

/// Whether the inflow of each block equals its outflow. Node 0, the outside, needs no balance.
pub fn is_balanced(inflows: &[u128], outflows: &[u128]) -> bool
    requires { length inflows.now ≡ length outflows.now }
    ensures { IsTrue result → (k : ℕ) → k + 1 < length inflows.now →
        slice_index inflows.now (k + 1) ≡ slice_index outflows.now (k + 1) }
{
    for n in 1..inflows.len() {
        if inflows[n] != outflows[n] {
            return false;
        }
    }
    true
}

/// Each node's number in `more` minus its number in `less`, or 0 if this is negative.
pub fn surplus(alloc: Global, more: &[u128], less: &[u128]) -> Result<Vec<u128>, NoMemory>
    requires { length more.now ≡ length less.now }
    ensures { IfOk result (λ numbers. length numbers.items ≡ length more.now) }
{
    let mut numbers = Vec::new(alloc);
    for n in 0..more.len() {
        numbers.push(more[n].saturating_sub(less[n]))?;
    }
    Ok(numbers)
}

/// The sum of `numbers`, saturating at 2^128 - 1.
pub fn total(numbers: &[u128]) -> u128 {
    let mut sum = 0u128;
    for number in numbers {
        sum = sum.saturating_add(*number);
    }
    sum
}
