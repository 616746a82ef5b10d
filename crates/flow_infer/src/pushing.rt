// Moving flow from nodes with too much of it to nodes with too little.
ghost use Rattle.std.specs.Prelude.{◌≡◌, ◌<◌, ◌^◌, ℕ, All, length};
ghost use Rattle.flow_infer.specs.Heights.{AreArcs, HasMoved, IsArcOf, IsSteady};

use crate::arcs::Arc;
use crate::direction::Direction;
use crate::flow::Link;
use crate::nodes::at_ends;
use crate::rooms::room_at;
use crate::searching::Found;

// Moves `amount` over the link with index `place` in a direction, or as much as it has room for.
fn move_at(
    links: &mut [Link],
    place: usize,
    heights: &[u64],
    first: usize,
    direction: Direction,
    amount: u128,
)
    requires few { length heights.now < 2 ^ 63 }
    requires steady { IsSteady heights.now first (length heights.now) links.old }
    requires place { place < length links.old }
    ensures { HasMoved heights.now first (length heights.now) links.old links.new }
{
    let link = links[place];
    let ends = at_ends(heights, first, &link);
    links[place] = link.moved(ends, direction, amount);
}

/// Moves the spare flow of nodes on to nodes that were found before them, beginning with the node that was found last.
/// So flow that reaches a node moves on in the same wave.
pub fn wave(
    links: &mut [Link],
    heights: &[u64],
    first: usize,
    around: &[Vec<Arc>],
    found: &Found,
    spare: &mut [u128],
    need: &mut [u128],
)
    requires few { length heights.now < 2 ^ 63 }
    requires steady { IsSteady heights.now first (length heights.now) links.old }
    requires around { length around.now ≡ length heights.now }
    requires arcs { AreArcs (length links.old) (length heights.now) around.now }
    requires places { length found.now.places.items ≡ length heights.now }
    requires order { All (λ n. n < length heights.now) found.now.order.items }
    requires spare { length spare.old ≡ length heights.now }
    requires need { length need.old ≡ length heights.now }
    ensures { HasMoved heights.now first (length heights.now) links.old links.new }
{
    let count = found.order.len();
    for back in 0..count {
        let n = found.order[count - 1 - back];
        push_from(
            links,
            heights,
            first,
            &around[n],
            n,
            &found.places,
            spare,
            need,
        );
    }
}

// Moves the spare flow of node `n` on to nodes that were found before it.
fn push_from(
    links: &mut [Link],
    heights: &[u64],
    first: usize,
    arcs: &[Arc],
    n: usize,
    places: &[usize],
    spare: &mut [u128],
    need: &mut [u128],
)
    requires few { length heights.now < 2 ^ 63 }
    requires steady { IsSteady heights.now first (length heights.now) links.old }
    requires arcs { All (IsArcOf (length links.old) (length heights.now)) arcs.now }
    requires node { n < length heights.now }
    requires places { length places.now ≡ length heights.now }
    requires spare { length spare.old ≡ length heights.now }
    requires need { length need.old ≡ length heights.now }
    ensures { HasMoved heights.now first (length heights.now) links.old links.new }
{
    for arc in arcs {
        if places[arc.head] >= places[n] {
            continue;
        }
        let amount = spare[n].min(room_at(links, arc.link, heights, first, arc.direction));
        if amount == 0 {
            continue;
        }
        move_at(links, arc.link, heights, first, arc.direction, amount);
        spare[n] = spare[n].saturating_sub(amount);
        let needed = need[arc.head];
        need[arc.head] = needed.saturating_sub(amount);
        spare[arc.head] = spare[arc.head].saturating_add(amount.saturating_sub(needed));
    }
}
