// How often control went between a block and the outside of its function.
ghost use Rattle.std.specs.Prelude.{◌≡◌, ◌==◌, ◌&&◌, ◌<◌, ◌≤◌, ◌^◌, IfOk, IsPermutation, OnOk, filter, if◌then◌else◌};
ghost use Rattle.std.specs.Prelude.{map, not, sum_by};
ghost use Rattle.std.specs.List.Sorted.{IsNonDecreasingBy};
ghost use Rattle.rv_code.specs.layout.FunctionMembers as functions;
ghost use Rattle.edge_profile.specs.PairCounts.{total_count};
ghost use Rattle.flow_infer.specs.Sources.{AreLookedUp, turned};

use rb_bytes::fault::NoMemory;
use rv_code::Func;
use rv_code::functions::func_holds;
use std::alloc::Global;

/// `pairs` reversed, so that each has its end first, and sorted by the end.
pub fn by_end(alloc: Global, pairs: &[(u64, u64, u128)]) -> Result<Vec<(u64, u64, u128)>, NoMemory>
    requires { total_count pairs.now < 2 ^ 100 }
    ensures permutation { IfOk result (λ ends. IsPermutation (map turned pairs.now) ends.items) }
    ensures ordered { IfOk result (λ ends. AreLookedUp ends.items) }
{
    let mut ends = turned(alloc, pairs)?;
    sort_by_first(&mut ends);
    Ok(ends)
}

// `pairs` reversed: the end of each, its start and its count.
fn turned(alloc: Global, pairs: &[(u64, u64, u128)]) -> Result<Vec<(u64, u64, u128)>, NoMemory>
    ensures { IfOk result (λ ends. ends.items ≡ map turned pairs.now) }
{
    let mut ends = Vec::new(alloc);
    for pair in pairs {
        ends.push((pair.1, pair.0, pair.2))?;
    }
    Ok(ends)
}

fn sort_by_first(pairs: &mut Vec<(u64, u64, u128)>)
    ensures permutation { IsPermutation pairs.old.items pairs.new.items }
    ensures ordered { IsNonDecreasingBy (λ p. p.0) pairs.new.items }
{
    pairs.sort_unstable_by_key(|p| p.0);
}

/// How often control went from `address` to addresses outside `func`; or to `address` from there, if `pairs` are from
/// `by_end`. A binary search, and a sum over the pairs that it finds.
pub fn count_outside(pairs: &[(u64, u64, u128)], func: &Func, address: u64) -> u128
    requires { AreLookedUp pairs.now }
    ensures { result ≡
        sum_by (λ p. if p.0 == address && not (functions.func_holds p.1 func.now) then p.2 else 0) pairs.now }
{
    sum_outside(pairs_from(pairs, address), func)
}

// The pairs whose first address is `address`.
fn pairs_from<'a>(pairs: &'a [(u64, u64, u128)], address: u64) -> &'a [(u64, u64, u128)]
    requires { AreLookedUp pairs.now }
    ensures { result.now ≡ filter (λ p. p.0 == address) pairs.now }
{
    let (upto, _) = pairs.split_at(pairs.partition_point(|p| p.0 <= address));
    let (_, found) = upto.split_at(upto.partition_point(|p| p.0 < address));
    found
}

// The sum of the counts of pairs whose second address isn't in `func`.
fn sum_outside(pairs: &[(u64, u64, u128)], func: &Func) -> u128
    requires { total_count pairs.now < 2 ^ 100 }
    ensures { result ≡ sum_by (λ p. if not (functions.func_holds p.1 func.now) then p.2 else 0) pairs.now }
{
    let mut sum = 0;
    for pair in pairs {
        sum += count_unless_held(func, pair);
    }
    sum
}

fn count_unless_held(func: &Func, pair: &(u64, u64, u128)) -> u128
    ensures { result ≡ (if not (functions.func_holds pair.now.1 func.now) then pair.now.2 else 0) }
{
    if func_holds(func, pair.1) { 0 } else { pair.2 }
}
