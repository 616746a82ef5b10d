// Links from the point of view of their ends.
ghost use Rattle.std.specs.Prelude.{◌≡◌, ◌<◌, ◌^◌, ℕ, All, IfOk, OnOk, length};
ghost use Rattle.flow_infer.specs.Heights.{AreAmong, AreArcs, IsArcOf};

use crate::direction::Direction;
use crate::flow::Link;
use crate::nodes::node;
use rb_bytes::fault::NoMemory;
use std::alloc::Global;

/// A link from one of its ends: `head` is the node at its other end.
#[derive(Clone, Copy)]
pub struct Arc {
    /// The index of the link.
    pub link: usize,
    /// The direction over the link that leads to the head.
    pub direction: Direction,
    pub head: usize,
}

/// The arcs of each node of a function whose blocks begin with `first`. `nodes` is the number of its blocks plus 1.
pub fn arcs(
    alloc: Global,
    links: &[Link],
    first: usize,
    nodes: usize,
) -> Result<Vec<Vec<Arc>>, NoMemory>
    requires few { nodes < 2 ^ 63 }
    requires some { 0 < nodes }
    requires among { AreAmong first nodes links.now }
    ensures length { IfOk result (λ around. length around.items ≡ nodes) }
    ensures arcs { IfOk result (λ around. AreArcs (length links.now) nodes around.items) }
{
    let mut around = Vec::new(alloc);
    for _ in 0..nodes {
        around.push(Vec::new(alloc))?;
    }
    for (place, link) in links.iter().enumerate() {
        let from = node(link.from, first);
        let to = node(link.to, first);
        push_arc(
            &mut around,
            from,
            Arc {
                link: place,
                direction: Direction::Along,
                head: to,
            },
        )?;
        push_arc(
            &mut around,
            to,
            Arc {
                link: place,
                direction: Direction::Against,
                head: from,
            },
        )?;
    }
    Ok(around)
}

// Adds an arc of a node.
fn push_arc(around: &mut Vec<Vec<Arc>>, node: usize, arc: Arc) -> Result<(), NoMemory>
    requires { node < length around.old.items }
    ensures length { length around.new.items ≡ length around.old.items }
    ensures arcs { OnOk result ((links nodes : ℕ) → IsArcOf links nodes arc → AreArcs links nodes around.old.items →
        AreArcs links nodes around.new.items) }
{
    around[node].push(arc)?;
    Ok(())
}
