// The runs of location lists at new code.
ghost use Rattle.std.specs.Prelude.{◌≡◌, ◌-◌, ◌^◌, min};
ghost use Rattle.cover_lists.specs.ListWeights.{total_weight};

use cover_lists::list_runs::ListRun;
use cover_lists::list_weight::list_weight;

/// For each location list, by its number, the longest runs of new code with the same expressions in force at the
/// owners.
pub type PlaceRuns = Vec<Vec<ListRun>>;

/// The weight of the runs of lists, saturated at 2^64 - 1.
pub fn runs_weight(lists: &[Vec<ListRun>]) -> u64
    ensures { result ≡ min (total_weight lists.now) (2 ^ 64 - 1) }
{
    let mut weight: u64 = 0;
    for runs in lists {
        weight = weight.saturating_add(list_weight(runs.as_slice()));
    }
    weight
}
