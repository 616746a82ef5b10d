// Searching nodes from which flow can go to nodes that need it, at the current heights.
ghost use Rattle.std.specs.Prelude.{◌≡◌, ◌<◌, All, IfOk, length};
ghost use Rattle.flow_infer.specs.Heights.{IsArcOf};
ghost use Rattle.flow_infer.specs.Networks.{IsNetwork};

use crate::arcs::Arc;
use crate::network::Network;
use crate::rooms::room_at;
use rb_bytes::fault::NoMemory;
use std::alloc::Global;

/// Nodes from which flow can go to nodes that need it, nearest first.
#[derive(Drop)]
pub struct Found {
    pub order: Vec<usize>,
    /// The index of each node in `order`; for a node that isn't there, the number of all nodes.
    pub places: Vec<usize>,
    /// Whether a node of `order` has spare flow.
    pub meets: bool,
}

/// Searches breadth first from the nodes that need flow, backwards over links that have room at these heights.
pub fn search(alloc: Global, network: &Network<'_>) -> Result<Found, NoMemory>
    requires { IsNetwork network.now }
    ensures places { IfOk result (λ s. length s.places.items ≡ length network.now.heights.now) }
    ensures order { IfOk result (λ s. All (λ n. n < length network.now.heights.now) s.order.items) }
{
    let nodes = network.heights.len();
    let mut places = vec![in alloc; nodes; nodes]?;
    let mut order = Vec::new(alloc);
    for n in 0..nodes {
        if network.need[n] > 0 {
            places[n] = order.len();
            order.push(n)?;
        }
    }
    let mut meets = false;
    for next in 0..nodes {
        if next >= order.len() {
            break;
        }
        let n = order[next];
        if network.spare[n] > 0 {
            meets = true;
        }
        push_sources(&mut order, &mut places, network, &network.around[n])?;
    }
    Ok(Found {
        order,
        places,
        meets,
    })
}

// Appends the nodes that weren't found yet and from which there is room to the node whose arcs are `arcs`.
fn push_sources(
    order: &mut Vec<usize>,
    places: &mut [usize],
    network: &Network<'_>,
    arcs: &[Arc],
) -> Result<(), NoMemory>
    requires network { IsNetwork network.now }
    requires arcs { All (IsArcOf (length network.now.links.now) (length network.now.heights.now)) arcs.now }
    requires places { length places.old ≡ length network.now.heights.now }
    requires order { All (λ n. n < length network.now.heights.now) order.old.items }
    ensures { All (λ n. n < length network.now.heights.now) order.new.items }
{
    for arc in arcs {
        if places[arc.head] < places.len() {
            continue;
        }
        let room = room_at(
            network.links,
            arc.link,
            network.heights,
            network.first,
            arc.direction.reversed(),
        );
        if room == 0 {
            continue;
        }
        places[arc.head] = order.len();
        order.push(arc.head)?;
    }
    Ok(())
}
