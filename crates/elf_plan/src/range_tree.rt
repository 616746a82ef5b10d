// Ordered ranges of numbers, with a search for the first one that contains a given range.
ghost use Rattle.std.specs.Prelude.{◌≡◌, ◌<◌, ◌↔◌, ℕ, IfOk, find};
ghost use Rattle.std.specs.List.Sorted.{IsNonDecreasingBy};
ghost use Rattle.elf_image.specs.internal.Extents.{IsInOneExtent};
ghost use Rattle.elf_plan.specs.RangeTree as spec;

use elf_image::extent::{Extent, is_covered, reaches_of, sort_by_start};
use rb_bytes::fault::NoMemory;
use std::alloc::Global;
use std::marker::Model;

/// Ordered ranges as a balanced tree. Contracts see the list of ranges.
#[cycle(range_tree)]
#[derive(Drop)]
pub struct RangeTree {
    node: Node,
}

#[cycle(range_tree)]
#[derive(Drop)]
enum Node {
    Leaf,
    // The ranges before the middle one, the middle one, the ranges after it, and the result of `sorted_reaches` for the
    // ranges before it.
    Fork(Box<RangeTree>, Extent, Box<RangeTree>, Vec<Extent>),
}

impl Model for RangeTree {
    ghost use Rattle.std.specs.Prelude.{List, length};
    ghost use Rattle.elf_image.specs.declared.extent.Extent.{Extent};

    ghost Value = { List Extent };

    ghost use Rattle.elf_plan.specs.RangeTree.{HasReaches, ranges_of};

    ghost view = { λ a. ranges_of a.node };

    ghost invariant = { λ a. HasReaches a.node };

    ghost size = { length };

    ghost use Rattle.elf_plan.specs.RangeTreeDepth.{depth_le-length};

    ghost size_decreases = { λ a h. depth_le-length a.node };
}

// Whether a range contains all numbers from `start` to before `end`.
fn covers(range: &Extent, start: u64, end: u128) -> bool
    ensures { result ≡ spec.covers start end range.now }
{
    range.start <= start && end <= range.end
}

/// The ranges sorted by start, each extended to the greatest end of the ranges up to it, for a binary search.
pub fn sorted_reaches(alloc: Global, ranges: &[Extent]) -> Result<Vec<Extent>, NoMemory>
    ensures { IfOk result (λ reaches. spec.IsReachOf reaches.items ranges.now) }
{
    let mut sorted = ranges.to_vec(alloc)?;
    sort_by_start(&mut sorted)?;
    let reaches = reaches_of(alloc, &sorted)?;
    Ok(reaches)
}

impl RangeTree {
    /// The tree of `ranges`, in their order.
    pub fn new(alloc: Global, ranges: &[Extent]) -> Result<RangeTree, NoMemory>
        ensures { IfOk result (λ tree. tree ≡ ranges.now) }
    {
        if ranges.is_empty() {
            return Ok(RangeTree { node: Node::Leaf });
        }
        let middle = ranges.len() / 2;
        let reaches = sorted_reaches(alloc, &ranges[..middle])?;
        let before = Box::new(alloc, RangeTree::new(alloc, &ranges[..middle])?)?;
        let behind = Box::new(alloc, RangeTree::new(alloc, &ranges[middle + 1..])?)?;
        Ok(RangeTree {
            node: Node::Fork(before, ranges[middle], behind, reaches),
        })
    }

    /// The first range that contains all numbers from `start` to before `end`.
    pub fn first(&self, start: u64, end: u128) -> Option<Extent>
        requires { start < end }
        ensures { result ≡ find (spec.covers start end) self.now }
    {
        match &self.node {
            Node::Leaf => None,
            Node::Fork(before, range, behind, reaches) => {
                if is_covered(reaches, start, end) {
                    before.first(start, end)
                } else if covers(range, start, end) {
                    Some(*range)
                } else {
                    behind.first(start, end)
                }
            }
        }
    }
}
