// Ranges of addresses as a search tree (an interval tree).
ghost use Rattle.std.specs.Prelude.{◌≡◌, ◌++◌, ◌&&◌, List, IfOk, OnOk, map, filter, min, max, nat_le, nat_lt};
ghost use Rattle.cover_lists.specs.Bounds.{bounds_in};
ghost use Rattle.cover_lists.specs.declared.cover_tree.Cover as spec;
ghost use Rattle.cover_lists.specs.CoverTree.{covers_of, holds, regrouped, AreBlocks, IsBlock};

use rb_bytes::fault::NoMemory;
use std::alloc::Global;
use std::marker::Model;

/// A range from `low` up to `high`, which isn't included; neither is cut to 64 bits. And the number of its group.
#[derive(Clone, Copy)]
pub struct Cover {
    pub low: u128,
    pub high: u128,
    pub group: usize,
}

/// Ranges as an interval tree; contracts see their list. If they are sorted by their first addresses, a search takes
/// one descent for each range found.
#[derive(Drop)]
pub struct CoverTree {
    /// The ranges, in order. Each begins a block, and a search passes over blocks that don't reach its address. Blocks
    /// are as the trees of a skew-binary list: a range joins the two blocks after it if these are of one length.
    nodes: Vec<Node>,
}

#[derive(Clone, Copy)]
struct Node {
    cover: Cover,
    /// The number of ranges after this one in its block.
    more: usize,
    /// The least first address and the greatest end in the block.
    low: u128,
    high: u128,
}

impl Model for CoverTree {
    ghost use Rattle.std.specs.Prelude.{List};
    ghost use Rattle.cover_lists.specs.declared.cover_tree.Cover.{Cover};

    ghost Value = { List Cover };

    ghost use Rattle.cover_lists.specs.CoverTree.{AreBlocks, covers_of};

    ghost view = { λ t. covers_of t.nodes.items };

    ghost invariant = { λ t. AreBlocks t.nodes.items };
}

fn lesser(a: u128, b: u128) -> u128
    ensures { result ≡ min a b }
{
    if b < a { b } else { a }
}

fn greater(a: u128, b: u128) -> u128
    ensures { result ≡ max a b }
{
    if a < b { b } else { a }
}

/// Whether a range contains the address `a`.
pub fn holds(a: u64, cover: &Cover) -> bool
    ensures { result ≡ holds a cover.now }
{
    cover.low <= a as u128 && (a as u128) < cover.high
}

// A block of one range.
fn alone(cover: Cover) -> Node
    ensures cover { result.cover ≡ cover }
    ensures block { (covers : List spec.Cover) → IsBlock result covers }
{
    Node {
        cover,
        more: 0,
        low: cover.low,
        high: cover.high,
    }
}

// The block that a range begins before some blocks.
fn block_before(cover: Cover, after: &[Node]) -> Node
    requires { AreBlocks after.now }
    ensures cover { result.cover ≡ cover }
    ensures block { IsBlock result (covers_of after.now) }
{
    let Some(one) = after.first() else {
        return alone(cover);
    };
    let Some(other) = after.get(one.more.saturating_add(1)) else {
        return alone(cover);
    };
    if one.more != other.more {
        return alone(cover);
    }
    Node {
        cover,
        more: (one.more + 1).saturating_mul(2),
        low: lesser(cover.low, lesser(one.low, other.low)),
        high: greater(cover.high, greater(one.high, other.high)),
    }
}

// Joins blocks, from the last range to the first.
fn join_blocks(nodes: &mut [Node])
    ensures covers { covers_of nodes.new ≡ covers_of nodes.old }
    ensures blocks { AreBlocks nodes.new }
{
    for index in (0..nodes.len()).rev() {
        let (_, after) = nodes.split_at(index + 1);
        nodes[index] = block_before(nodes[index].cover, after);
    }
}

// Whether a block may have a range that contains an address.
fn reaches(node: &Node, a: u64) -> bool
    ensures { result ≡ (nat_le node.now.low a && nat_lt a node.now.high) }
{
    node.low <= a as u128 && (a as u128) < node.high
}

impl CoverTree {
    /// The tree of ranges, in the given order.
    pub fn new(alloc: Global, covers: &[Cover]) -> Result<CoverTree, NoMemory>
        ensures { IfOk result (λ tree. tree ≡ covers.now) }
    {
        let mut nodes = Vec::with_capacity(alloc, covers.len())?;
        for cover in covers {
            nodes.push(alone(*cover))?;
        }
        join_blocks(&mut nodes);
        Ok(CoverTree { nodes })
    }

    /// Appends the groups of the ranges that contain an address, in the order of the ranges.
    pub fn find(&self, a: u64, groups: &mut Vec<usize>) -> Result<(), NoMemory>
        ensures { OnOk result (groups.new.items ≡ groups.old.items ++ map (λ c. c.group) (filter (holds a) self.now)) }
    {
        let mut index = 0;
        while index < self.nodes.len() {
            let node = &self.nodes[index];
            if !reaches(node, a) {
                index = index.saturating_add(node.more).saturating_add(1);
                continue;
            }
            if holds(a, &node.cover) {
                groups.push(node.cover.group)?;
            }
            index += 1;
        }
        Ok(())
    }

    /// Appends the first addresses and the ends of all ranges.
    pub fn put_bounds(&self, bounds: &mut Vec<u128>) -> Result<(), NoMemory>
        ensures { OnOk result (bounds.new.items ≡ bounds.old.items ++ bounds_in self.now) }
    {
        for node in &self.nodes {
            bounds.push(node.cover.low)?;
            bounds.push(node.cover.high)?;
        }
        Ok(())
    }

    /// Appends the ranges, as ranges of group `group`.
    pub fn put_regrouped(&self, group: usize, covers: &mut Vec<Cover>) -> Result<(), NoMemory>
        ensures { OnOk result (covers.new.items ≡ covers.old.items ++ map (regrouped group) self.now) }
    {
        for node in &self.nodes {
            covers.push(Cover {
                low: node.cover.low,
                high: node.cover.high,
                group,
            })?;
        }
        Ok(())
    }
}
