// The weight of the runs of a location list.
ghost use Rattle.std.specs.Prelude.{◌≡◌, ◌-◌, ◌^◌, min};
ghost use Rattle.cover_lists.specs.ListWeights as spec;

use crate::list_runs::ListRun;
use answer_runs::RUN_WEIGHT;

// The weight of an expression without its bytes.
const EXPRESSION_WEIGHT: u64 = 16;

// The weight of expressions, saturated at 2^64 - 1.
fn copies_weight(copies: &[Vec<u8>]) -> u64
    ensures { result ≡ min (spec.copies_weight copies.now) (2 ^ 64 - 1) }
{
    let mut weight: u64 = 0;
    for copy in copies {
        weight = weight.saturating_add(EXPRESSION_WEIGHT.saturating_add(copy.len() as u64));
    }
    weight
}

/// The weight of the runs of a list, saturated at 2^64 - 1.
pub fn list_weight(runs: &[ListRun]) -> u64
    ensures { result ≡ min (spec.list_weight runs.now) (2 ^ 64 - 1) }
{
    let mut weight: u64 = 0;
    for run in runs {
        weight = weight.saturating_add(RUN_WEIGHT.saturating_add(copies_weight(&run.answer)));
    }
    weight
}
