// The expressions of location lists at the owners of new bytes.
ghost use Rattle.std.specs.Prelude.{◌≡◌, ℕ, AllPairs, IfOk, length};
ghost use Rattle.addr_map.specs.MapText.{IsLineBefore};
ghost use Rattle.addr_map.specs.Spans.{ShareNoByte};
ghost use Rattle.answer_runs.specs.AnswerRuns.{carried, AreLow, AreRunsOf};
ghost use Rattle.cover_lists.specs.ListRuns.{list_answer, said_in};

use crate::bounds::place_bounds;
use crate::kept_list::KeptList;
use crate::list_finder::ListFinder;
use crate::list_runs::{ListRun, list_runs};
use crate::stretches::stretches_of;
use addr_map::AddrMap;
use rb_bytes::fault::NoMemory;
use std::alloc::Global;

/// For each list, by its number, the longest runs of new code with the same expressions in force at the owners. A list
/// is asked once for each stretch of new code in which no list changes, and only if its bounds contain the stretch's
/// owner or it has defaults.
pub fn carried_lists(
    alloc: Global,
    lists: &[KeptList],
    map: &AddrMap,
) -> Result<Vec<Vec<ListRun>>, NoMemory>
    requires ordered { AllPairs IsLineBefore map.now }
    requires disjoint { AllPairs ShareNoByte map.now }
    requires low { AreLow map.now }
    ensures count { IfOk result (λ rs. length rs.items ≡ length lists.now) }
    ensures each { IfOk result (λ rs. (n : ℕ) → AreRunsOf (carried (list_answer lists.now n) map.now)
        (said_in rs.items n)) }
{
    if lists.is_empty() {
        return Ok(Vec::new(alloc));
    }
    let bounds = place_bounds(alloc, lists)?;
    let stretches = stretches_of(alloc, &bounds, map)?;
    let finder = ListFinder::new(alloc, lists)?;
    list_runs(alloc, lists, &finder, &stretches)
}
