// The room of a link for more flow at given heights, and how far heights may rise. A link whose end is higher than its
// start by the cost of raising a count has room for any flow, and gives back the flow above its count. A link whose end
// is lower by the cost of lowering a count has room up to its count, and gives back all its flow. Any other link has no
// room and gives nothing back.
ghost use Rattle.std.specs.Prelude.{◌≡◌, ◌+◌, ◌-◌, ◌<◌, ◌≤◌, ◌^◌, ℕ, length};
ghost use Rattle.flow_infer.specs.declared.direction.Direction.TheVariants.{Along, Against};
ghost use Rattle.flow_infer.specs.Flows.{bare};
ghost use Rattle.flow_infer.specs.Heights.{EndMayRise, HoldsBetween, IsSteady, StartMayRise, flowing, raised};

use crate::direction::Direction;
use crate::flow::Link;
use crate::nodes::{Ends, at_ends};

// The costs of raising a count by one, and of lowering it by one. The difference is far smaller than either, so the
// least cost is that of a least change, and among the least changes of one that lowers counts least.
const RAISE_COST: u64 = 1 << 32;

const LOWER_COST: u64 = RAISE_COST + 1;

impl Link {
    // How much more flow the link has room for in a direction, at the heights of its ends.
    fn room(&self, heights: Ends, direction: Direction) -> u128
        requires { HoldsBetween heights.start heights.end self.now }
        ensures fits { direction ≡ Along → self.now.flow + result < 2 ^ 128 }
        ensures within { direction ≡ Against → result ≤ self.now.flow }
        ensures holds { (d : ℕ) → d ≤ result → HoldsBetween heights.start heights.end (flowing direction d self.now) }
    {
        match direction {
            Direction::Along => self.room_along(heights),
            Direction::Against => self.room_against(heights),
        }
    }

    fn room_along(&self, heights: Ends) -> u128
        requires { HoldsBetween heights.start heights.end self.now }
        ensures fits { self.now.flow + result < 2 ^ 128 }
        ensures holds { (d : ℕ) → d ≤ result →
            HoldsBetween heights.start heights.end (record self.now { flow = self.now.flow + d }) }
    {
        let Ends { start, end } = heights;
        let flow = self.flow;
        if end > start && end - start == RAISE_COST {
            u128::MAX - flow
        } else if start > end && start - end == LOWER_COST {
            self.count.saturating_sub(flow)
        } else {
            0
        }
    }

    fn room_against(&self, heights: Ends) -> u128
        requires { HoldsBetween heights.start heights.end self.now }
        ensures within { result ≤ self.now.flow }
        ensures holds { (d : ℕ) → d ≤ result →
            HoldsBetween heights.start heights.end (record self.now { flow = self.now.flow - d }) }
    {
        let Ends { start, end } = heights;
        if end > start && end - start == RAISE_COST {
            self.flow.saturating_sub(self.count)
        } else if start > end && start - end == LOWER_COST {
            self.flow
        } else {
            0
        }
    }

    /// The link with `amount` more flow in a direction, or with as much as it has room for at the heights of its ends.
    pub fn moved(&self, heights: Ends, direction: Direction, amount: u128) -> Link
        requires { HoldsBetween heights.start heights.end self.now }
        ensures same { bare result ≡ bare self.now }
        ensures holds { HoldsBetween heights.start heights.end result }
    {
        let amount = amount.min(self.room(heights, direction));
        let flow = match direction {
            Direction::Along => self.flow + amount,
            Direction::Against => self.flow - amount,
        };
        Link { flow, ..*self }
    }

    // The link's slack: how much further the node to which `direction` leads may rise than the other one, from these
    // heights. With slack 0 there is room in this direction.
    fn slack(&self, heights: Ends, direction: Direction) -> u64
        requires { HoldsBetween heights.start heights.end self.now }
    {
        match direction {
            Direction::Along => self.slack_of_end(heights),
            Direction::Against => self.slack_of_start(heights),
        }
    }

    fn slack_of_end(&self, heights: Ends) -> u64
        requires { HoldsBetween heights.start heights.end self.now }
        ensures { EndMayRise heights.start heights.end result self.now }
    {
        let Ends { start, end } = heights;
        if self.flow < self.count {
            start.saturating_sub(end).saturating_sub(LOWER_COST)
        } else {
            start.saturating_add(RAISE_COST).saturating_sub(end)
        }
    }

    fn slack_of_start(&self, heights: Ends) -> u64
        requires { HoldsBetween heights.start heights.end self.now }
        ensures { StartMayRise heights.start heights.end result self.now }
    {
        let Ends { start, end } = heights;
        if self.flow == 0 {
            u64::MAX
        } else if self.flow > self.count {
            0
        } else {
            end.saturating_add(LOWER_COST).saturating_sub(start)
        }
    }

    /// The longest step in which the link's ends may rise from these heights, at these distances, so that its prices
    /// still hold.
    pub fn longest_step(&self, heights: Ends, distances: Ends) -> u64
        requires { HoldsBetween heights.start heights.end self.now }
        ensures { (step : ℕ) → step ≤ result → HoldsBetween (raised step distances.start heights.start)
            (raised step distances.end heights.end) self.now }
    {
        let end = step_within(self.slack_of_end(heights), distances.end, distances.start);
        let start = step_within(self.slack_of_start(heights), distances.start, distances.end);
        end.min(start)
    }
}

/// How much more flow the link with index `place` has room for in a direction, at the heights of its ends.
pub fn room_at(
    links: &[Link],
    place: usize,
    heights: &[u64],
    first: usize,
    direction: Direction,
) -> u128
    requires few { length heights.now < 2 ^ 63 }
    requires steady { IsSteady heights.now first (length heights.now) links.now }
    requires place { place < length links.now }
{
    let link = &links[place];
    link.room(at_ends(heights, first, link), direction)
}

/// The slack of the link with index `place` in a direction, at the heights of its ends.
pub fn slack_at(
    links: &[Link],
    place: usize,
    heights: &[u64],
    first: usize,
    direction: Direction,
) -> u64
    requires few { length heights.now < 2 ^ 63 }
    requires steady { IsSteady heights.now first (length heights.now) links.now }
    requires place { place < length links.now }
{
    let link = &links[place];
    link.slack(at_ends(heights, first, link), direction)
}

// The longest step in which a node at `distance` rises at most `slack` further than a node at the distance `other`.
fn step_within(slack: u64, distance: u64, other: u64) -> u64
    ensures { (step : ℕ) → step ≤ result → step - distance ≤ (step - other) + slack }
{
    let reach = distance.saturating_add(slack);
    if other <= reach { u64::MAX } else { reach }
}
