// The heaviest caller of each unit.
ghost use Rattle.std.specs.Prelude.{◌≡◌, ℕ, ◌+◌, ◌<◌, ◌^◌, None, All, length, IfOk, sum_by, slice_index_or};
ghost use Rattle.std.specs.List.Sorted.{IsPermutation};
ghost use Rattle.func_place.specs.Calls.{heaviest_caller};
ghost use Rattle.func_place.specs.internal.HeaviestCallers.{AreByCallee, more_of};

use crate::calls::UnitCall;
use rb_bytes::fault::NoMemory;
use std::alloc::Global;

/// For each unit the other hot unit that calls it most often, the lowest of several. `None` if no other hot unit calls
/// it.
pub fn heaviest_callers(
    alloc: Global,
    heats: &[u128],
    calls: &[UnitCall],
) -> Result<Vec<Option<usize>>, NoMemory>
    requires inside { All (λ c. (c.from < length heats.now) × (c.to < length heats.now)) calls.now }
    requires room { sum_by (λ c. c.count) calls.now < 2 ^ 128 }
    ensures len { IfOk result (λ v. length v.items ≡ length heats.now) }
    ensures heaviest { IfOk result (λ v. (u : ℕ) → slice_index_or v.items u None ≡
        heaviest_caller heats.now calls.now u) }
{
    let sorted = by_callee(alloc, calls)?;
    heaviest_of_sorted(alloc, heats, &sorted)
}

// The counts, sorted by callee and then by caller.
fn by_callee(alloc: Global, calls: &[UnitCall]) -> Result<Vec<UnitCall>, NoMemory>
    ensures each { IfOk result (λ v. IsPermutation calls.now v.items) }
    ensures ordered { IfOk result (λ v. AreByCallee v.items) }
{
    let mut sorted = calls.to_vec(alloc)?;
    sorted.sort_by_key(|call| (call.to, call.from))?;
    Ok(sorted)
}

// The heaviest callers, from calls that are sorted by callee and caller: counts of one pair follow one another, so the
// pair's sum is complete at the last of them.
fn heaviest_of_sorted(
    alloc: Global,
    heats: &[u128],
    calls: &[UnitCall],
) -> Result<Vec<Option<usize>>, NoMemory>
    requires ordered { AreByCallee calls.now }
    requires inside { All (λ c. (c.from < length heats.now) × (c.to < length heats.now)) calls.now }
    requires room { sum_by (λ c. c.count) calls.now < 2 ^ 128 }
    ensures len { IfOk result (λ v. length v.items ≡ length heats.now) }
    ensures heaviest { IfOk result (λ v. (u : ℕ) → slice_index_or v.items u None ≡
        heaviest_caller heats.now calls.now u) }
{
    let mut heaviest: Vec<Option<usize>> = vec![in alloc; None; heats.len()]?;
    let mut most: Vec<u128> = vec![in alloc; 0; heats.len()]?;
    let mut run = UnitCall {
        from: 0,
        to: 0,
        count: 0,
    };
    for call in calls {
        run = more_of(&run, call);
        if run.from != run.to && heats[run.from] > 0 && most[run.to] < run.count {
            most[run.to] = run.count;
            heaviest[run.to] = Some(run.from);
        }
    }
    Ok(heaviest)
}

// `run` has the sum of the counts of a pair so far. Returns `run` with the count of `call` added if `call` is of the
// same pair, otherwise `call`.
fn more_of(run: &UnitCall, call: &UnitCall) -> UnitCall
    requires { run.now.count + call.now.count < 2 ^ 128 }
    ensures { result ≡ more_of run.now call.now }
{
    let same = run.from == call.from && run.to == call.to;
    UnitCall {
        from: call.from,
        to: call.to,
        count: if same {
            run.count + call.count
        } else {
            call.count
        },
    }
}
