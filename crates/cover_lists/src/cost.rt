// The limit of questions to groups of ranges and to lists.

use file_bounds::{COST, COST_OF_EACH};

/// Whether the answers of `count` groups or lists cost too much.
pub fn is_too_much(cost: usize, count: usize) -> bool {
    cost > count.saturating_mul(COST_OF_EACH).saturating_add(COST)
}
