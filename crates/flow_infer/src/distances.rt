// Distances of nodes from nodes that need flow. The length of a link is its slack: how far heights have to rise until
// it has room.
ghost use Rattle.std.specs.Prelude.{◌≡◌, ◌<◌, ℕ, All, IfOk, IfSome, OnOk, length};
ghost use Rattle.std.specs.BinaryHeap.{heap_items};
ghost use Rattle.flow_infer.specs.Heights.{AreNodes, IsArcOf};
ghost use Rattle.flow_infer.specs.Networks.{IsNetwork};

use crate::arcs::Arc;
use crate::network::Network;
use crate::rooms::slack_at;
use rb_bytes::fault::NoMemory;
use std::alloc::Global;
use std::cmp::Reverse;
use std::collections::BinaryHeap;

/// Distances of nodes from the nearest node that needs flow.
#[derive(Drop)]
pub struct Distances {
    /// The distance of each node. For a node farther away than `farthest` it is only some number that is at least
    /// `farthest`.
    pub of_nodes: Vec<u64>,
    /// The distance of the farthest node with spare flow, or `u64::MAX` if none can be reached.
    pub farthest: u64,
}

/// Dijkstra's search, from the nodes that need flow back to all nodes with spare flow.
pub fn find_distances(alloc: Global, network: &Network<'_>) -> Result<Distances, NoMemory>
    requires { IsNetwork network.now }
    ensures { IfOk result (λ d. length d.of_nodes.items ≡ length network.now.heights.now) }
{
    let nodes = network.heights.len();
    let mut of_nodes = vec![in alloc; u64::MAX; nodes]?;
    let mut queue = BinaryHeap::new(alloc);
    // The number of nodes with spare flow that aren't found yet.
    let mut missing = 0usize;
    for n in 0..nodes {
        if network.need[n] > 0 {
            of_nodes[n] = 0;
            push_node(&mut queue, 0, n)?;
        }
        if network.spare[n] > 0 {
            missing = missing.saturating_add(1);
        }
    }
    let mut farthest = u64::MAX;
    // The bound is only there for the prover; memory runs out long before.
    for _ in 0..u64::MAX {
        let Some((distance, n)) = pop_node(&mut queue) else {
            break;
        };
        if distance > of_nodes[n] {
            continue;
        }
        if network.spare[n] > 0 {
            farthest = distance;
            missing = missing.saturating_sub(1);
            if missing == 0 {
                break;
            }
        }
        let arcs = &network.around[n];
        queue_sources(&mut queue, &mut of_nodes, network, arcs, distance)?;
    }
    Ok(Distances { of_nodes, farthest })
}

// Queues the nodes that get nearer by way of a node at `distance`, whose arcs are `arcs`.
fn queue_sources(
    queue: &mut BinaryHeap<(Reverse<u64>, usize)>,
    of_nodes: &mut [u64],
    network: &Network<'_>,
    arcs: &[Arc],
    distance: u64,
) -> Result<(), NoMemory>
    requires network { IsNetwork network.now }
    requires arcs { All (IsArcOf (length network.now.links.now) (length network.now.heights.now)) arcs.now }
    requires distances { length of_nodes.old ≡ length network.now.heights.now }
    requires queue { AreNodes (length network.now.heights.now) (heap_items queue.old) }
    ensures { OnOk result (AreNodes (length network.now.heights.now) (heap_items queue.new)) }
{
    for arc in arcs {
        let slack = slack_at(
            network.links,
            arc.link,
            network.heights,
            network.first,
            arc.direction.reversed(),
        );
        let farther = distance.saturating_add(slack);
        if farther < of_nodes[arc.head] {
            of_nodes[arc.head] = farther;
            push_node(queue, farther, arc.head)?;
        }
    }
    Ok(())
}

// Queues a node at a distance.
fn push_node(
    queue: &mut BinaryHeap<(Reverse<u64>, usize)>,
    distance: u64,
    node: usize,
) -> Result<(), NoMemory>
    ensures { OnOk result ((nodes : ℕ) → node < nodes → AreNodes nodes (heap_items queue.old) →
        AreNodes nodes (heap_items queue.new)) }
{
    queue.push((Reverse(distance), node))?;
    Ok(())
}

// Takes the nearest node from the queue, with its distance.
fn pop_node(queue: &mut BinaryHeap<(Reverse<u64>, usize)>) -> Option<(u64, usize)>
    ensures { IfSome result (λ e. (nodes : ℕ) → AreNodes nodes (heap_items queue.old) →
        (e.1 < nodes) × AreNodes nodes (heap_items queue.new)) }
{
    let (Reverse(distance), node) = queue.pop()?;
    Some((distance, node))
}
