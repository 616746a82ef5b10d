// Merging the counts of pairs.
ghost use Rattle.std.specs.Prelude.{◌≡◌, ◌+◌, ◌<◌, ◌^◌, All, AllPairs, IfOk, IsPermutation, OnOk, length};
ghost use Rattle.edge_profile.specs.PairCounts.{IsCountedBefore, total_count};
ghost use Rattle.edge_profile.specs.Pairs.{IsNotAfter, AreMerged, AddsCount, is_last_pair};

use rb_bytes::fault::NoMemory;
use std::alloc::Global;

/// The pairs with positive counts, in order, each with the sum of its counts. `said` has the addresses of a pair and a
/// count, in any order, and a pair any number of times.
pub fn merged(
    alloc: Global,
    mut said: Vec<(u64, u64, u64)>,
) -> Result<Vec<(u64, u64, u128)>, NoMemory>
    requires { length said.items < 2 ^ 32 }
    ensures { IfOk result (λ pairs. AreMerged said.items pairs.items) }
{
    sort_by_pair(&mut said);
    merged_sorted(alloc, &said)
}

fn sort_by_pair(said: &mut Vec<(u64, u64, u64)>)
    ensures permutation { IsPermutation said.old.items said.new.items }
    ensures ordered { AllPairs IsNotAfter said.new.items }
{
    said.sort_unstable_by_key(|p| (p.0, p.1));
}

fn merged_sorted(alloc: Global, said: &[(u64, u64, u64)]) -> Result<Vec<(u64, u64, u128)>, NoMemory>
    requires few { length said.now < 2 ^ 32 }
    requires ordered { AllPairs IsNotAfter said.now }
    ensures { IfOk result (λ pairs. AreMerged said.now pairs.items) }
{
    let mut pairs = Vec::new(alloc);
    for p in said {
        if p.2 == 0 {
            continue;
        }
        add(&mut pairs, p.0, p.1, p.2 as u128)?;
    }
    Ok(pairs)
}

// Adds a count for the pair of `from` and `to`, which doesn't come before any of `pairs`: to the last pair, or as a new
// pair.
fn add(pairs: &mut Vec<(u64, u64, u128)>, from: u64, to: u64, count: u128) -> Result<(), NoMemory>
    requires positive { 0 < count }
    requires last { All (λ q. IsNotAfter q (from, to, count)) pairs.old.items }
    requires ordered { AllPairs IsCountedBefore pairs.old.items }
    requires fits { total_count pairs.old.items + count < 2 ^ 128 }
    ensures { OnOk result (AddsCount pairs.old.items pairs.new.items (from, to, count)) }
{
    if is_last(pairs, from, to) {
        let last = pairs.len() - 1;
        pairs[last].2 += count;
        return Ok(());
    }
    pairs.push((from, to, count))?;
    Ok(())
}

// Whether the last of `pairs` is the pair of `from` and `to`.
fn is_last(pairs: &[(u64, u64, u128)], from: u64, to: u64) -> bool
    ensures { result ≡ is_last_pair from to pairs.now }
{
    let length = pairs.len();
    if length == 0 {
        return false;
    }
    let last = pairs[length - 1];
    last.0 == from && last.1 == to
}
