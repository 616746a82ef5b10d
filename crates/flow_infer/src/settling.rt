// Balancing the flows of one function, with heights that show that they change the counts least.
ghost use Rattle.std.specs.Prelude.{◌≡◌, ◌<◌, ◌^◌, ℕ, All, IfOk, OnOk, length};
ghost use Rattle.flow_infer.specs.declared.settling.Progress.TheVariants as progress;
ghost use Rattle.flow_infer.specs.Flows.{AreSameLinks};
ghost use Rattle.flow_infer.specs.Heights.{AllHoldBy, AreAmong, AreArcs, BalancesWithin, IsSteady};

use crate::arcs::{Arc, arcs};
use crate::distances::find_distances;
use crate::flow::Link;
use crate::lifting::lift;
use crate::network::Network;
use crate::nodes::{is_balanced, sum_flows, surplus, total};
use crate::pushing::wave;
use crate::searching::search;
use rb_bytes::fault::NoMemory;
use std::alloc::Global;

/// The result of a round.
#[derive(Clone, Copy)]
pub enum Progress {
    /// The flow balances.
    Balanced,
    /// Flow was moved. Holds the spare flow before the move.
    Moved(u128),
    /// Heights were raised.
    Raised,
}

/// Moves flow on the links of a function, whose blocks begin with `first`, until it balances. The result has the
/// heights of its nodes, which are prices that hold.
///
/// `NoMemory` also if a wave moved no flow to its goal, at sums above 128 bits, and at heights above 64 bits.
pub fn settle(
    alloc: Global,
    links: &mut [Link],
    first: usize,
    nodes: usize,
) -> Result<Vec<u64>, NoMemory>
    requires few { nodes < 2 ^ 63 }
    requires some { 0 < nodes }
    requires among { AreAmong first nodes links.old }
    requires counted { All (λ l. l.flow ≡ l.count) links.old }
    ensures same { OnOk result (AreSameLinks links.old links.new) }
    ensures among { OnOk result (AreAmong first nodes links.new) }
    ensures balanced { OnOk result (BalancesWithin first nodes links.new) }
    ensures tall { IfOk result (λ heights. length heights.items ≡ nodes) }
    ensures holds { IfOk result (λ heights. AllHoldBy heights.items first links.new) }
{
    let mut heights = vec![in alloc; 0u64; nodes]?;
    let around = arcs(alloc, links, first, nodes)?;
    // The number of rises is only bounded for the prover; no network comes near the bound.
    let mut rises = u64::MAX;
    // The spare flow before the last wave.
    let mut left = u128::MAX;
    loop {
        match round(alloc, links, &mut heights, first, &around)? {
            Progress::Balanced => return Ok(heights),
            Progress::Moved(spare) => {
                // The wave before this one made no progress.
                if spare >= left {
                    return Err(NoMemory);
                }
                left = spare;
            }
            Progress::Raised => {
                if rises == 0 {
                    return Err(NoMemory);
                }
                rises -= 1;
            }
        }
    }
}

// Moves flow at the current heights, or raises them if none can be moved.
fn round(
    alloc: Global,
    links: &mut [Link],
    heights: &mut [u64],
    first: usize,
    around: &[Vec<Arc>],
) -> Result<Progress, NoMemory>
    requires few { length heights.old < 2 ^ 63 }
    requires some { 0 < length heights.old }
    requires steady { IsSteady heights.old first (length heights.old) links.old }
    requires around { length around.now ≡ length heights.old }
    requires arcs { AreArcs (length links.old) (length heights.old) around.now }
    ensures steady { OnOk result (IsSteady heights.new first (length heights.new) links.new) }
    ensures same { OnOk result (AreSameLinks links.old links.new) }
    ensures balanced { IfOk result (λ r. r ≡ progress.Balanced → BalancesWithin first (length heights.old) links.new) }
{
    let nodes = heights.len();
    let sums = sum_flows(alloc, links, first, nodes)?;
    if is_balanced(&sums.into, &sums.out_of) {
        return Ok(Progress::Balanced);
    }
    let mut spare = surplus(alloc, &sums.into, &sums.out_of)?;
    let mut need = surplus(alloc, &sums.out_of, &sums.into)?;
    let network = Network {
        links,
        heights,
        first,
        around,
        spare: &spare,
        need: &need,
    };
    let found = search(alloc, &network)?;
    if found.meets {
        let moved = total(&spare);
        wave(links, heights, first, around, &found, &mut spare, &mut need);
        return Ok(Progress::Moved(moved));
    }
    let distances = find_distances(alloc, &network)?;
    lift(
        heights,
        first,
        links,
        &distances.of_nodes,
        distances.farthest,
    )?;
    Ok(Progress::Raised)
}
