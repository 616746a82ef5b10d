// Weights of line tables.
ghost use Rattle.std.specs.Prelude.{◌≡◌, ◌+◌, ◌*◌, ◌-◌, ◌^◌, length, min, sum_by};
ghost use Rattle.answer_runs.specs.Weights.{run_weight};
ghost use Rattle.line_rewrite.specs.Tables.{row_weight};

use crate::answer::LineAt;
use answer_runs::{RUN_WEIGHT, Run};

// The weight of a row: more than the bytes of all operations that it may need.
const ROW_WEIGHT: u64 = 96;

/// The weight of the runs, saturated at 2^64 - 1.
pub fn runs_weight(runs: &[Run<LineAt>]) -> u64
    ensures { result ≡ min (sum_by (λ r. run_weight + row_weight * length r.answer.rows) runs.now) (2 ^ 64 - 1) }
{
    let mut weight: u64 = 0;
    for run in runs {
        let rows = (run.answer.rows.len() as u64).saturating_mul(ROW_WEIGHT);
        weight = weight.saturating_add(rows.saturating_add(RUN_WEIGHT));
    }
    weight
}
