// The weight of the runs of entries with ranges.
ghost use Rattle.std.specs.Prelude.{◌≡◌, ◌*◌, ◌-◌, ◌^◌, length, min, sum_by};
ghost use Rattle.answer_runs.specs.Weights.{run_weight};
ghost use Rattle.cover_lists.specs.GroupRuns as spec;

use crate::group_runs::runs_in;
use crate::groups::RangedEntry;
use answer_runs::{RUN_WEIGHT, Run};

// The weight of the runs of an entry.
fn entry_weight(entry: RangedEntry, lists: &[Vec<Run<bool>>]) -> u64
    ensures { result ≡ min (run_weight * length (spec.runs_in lists.now entry.group)) (2 ^ 64 - 1) }
{
    let runs = runs_in(lists, entry.group);
    (runs.len() as u64).saturating_mul(RUN_WEIGHT)
}

/// The weight of the runs of entries, by the runs of their groups, saturated at 2^64 - 1.
pub fn runs_weight(ranged: &[RangedEntry], lists: &[Vec<Run<bool>>]) -> u64
    ensures { result ≡ min (sum_by (λ r. run_weight * length (spec.runs_in lists.now r.group)) ranged.now)
        (2 ^ 64 - 1) }
{
    let mut weight: u64 = 0;
    for entry in ranged {
        weight = weight.saturating_add(entry_weight(*entry, lists));
    }
    weight
}
