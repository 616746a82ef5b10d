// Raising heights as long as prices still hold.
ghost use Rattle.std.specs.Prelude.{◌≡◌, ◌<◌, ◌≤◌, ◌^◌, ℕ, All, OnOk, length, slice_index};
ghost use Rattle.flow_infer.specs.Heights.{HoldsRaised, IsSteady, raised};

use crate::flow::Link;
use crate::nodes::at_ends;
use rb_bytes::fault::NoMemory;

/// Raises heights by the longest step, up to `most`, after which prices still hold. Each node rises by the step minus
/// the node's distance, if this is positive.
pub fn lift(
    heights: &mut [u64],
    first: usize,
    links: &[Link],
    distances: &[u64],
    most: u64,
) -> Result<(), NoMemory>
    requires few { length heights.old < 2 ^ 63 }
    requires steady { IsSteady heights.old first (length heights.old) links.now }
    requires distances { length distances.now ≡ length heights.old }
    ensures { OnOk result (IsSteady heights.new first (length heights.new) links.now) }
{
    let step = longest_step(heights, first, links, distances, most);
    raise(heights, distances, step)
}

// The longest step up to `most` after which prices still hold.
fn longest_step(heights: &[u64], first: usize, links: &[Link], distances: &[u64], most: u64) -> u64
    requires few { length heights.now < 2 ^ 63 }
    requires steady { IsSteady heights.now first (length heights.now) links.now }
    requires distances { length distances.now ≡ length heights.now }
    ensures { (step : ℕ) → step ≤ result → All (HoldsRaised heights.now first distances.now step) links.now }
{
    let mut longest = most;
    for link in links {
        let step = link.longest_step(
            at_ends(heights, first, link),
            at_ends(distances, first, link),
        );
        longest = longest.min(step);
    }
    longest
}

// Raises each node by `step` minus its distance, if this is positive.
fn raise(heights: &mut [u64], distances: &[u64], step: u64) -> Result<(), NoMemory>
    requires { length distances.now ≡ length heights.old }
    ensures { OnOk result ((n : ℕ) → n < length heights.old →
        slice_index heights.new n ≡ raised step (slice_index distances.now n) (slice_index heights.old n)) }
{
    for n in 0..heights.len() {
        let rise = step.saturating_sub(distances[n]);
        heights[n] = heights[n].checked_add(rise).ok_or(NoMemory)?;
    }
    Ok(())
}
