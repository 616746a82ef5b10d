// Replacing counts by flows.
ghost use Rattle.std.specs.Prelude.{◌≡◌, ◌++◌, AllPairs, IfOk, OnOk, filter};
ghost use Rattle.edge_profile.specs.PairCounts.{IsCountedBefore};
ghost use Rattle.edge_profile.specs.Pairs.{is_before};
ghost use Rattle.flow_text.specs.MergedFlows.{some_flow, with_flows};

use rb_bytes::fault::NoMemory;
use std::alloc::Global;

/// `pairs`, with flows instead of counts for the pairs in `flows`, and without pairs whose flow is 0. Both lists and
/// the result are in order.
pub fn with_flows(
    alloc: Global,
    flows: &[(u64, u64, u128)],
    pairs: &[(u64, u64, u128)],
) -> Result<Vec<(u64, u64, u128)>, NoMemory>
    requires { AllPairs IsCountedBefore pairs.now }
    ensures { IfOk result (λ out. out.items ≡ with_flows flows.now pairs.now) }
{
    let mut out = Vec::new(alloc);
    let mut rest = pairs;
    for flow in flows {
        push_upto(&mut out, rest, flow)?;
        rest = pairs_after(rest, flow);
    }
    out.extend_from_slice(rest)?;
    Ok(out)
}

// Appends the pairs before the pair of `flow`, and then `flow`, unless it is 0.
fn push_upto(
    out: &mut Vec<(u64, u64, u128)>,
    pairs: &[(u64, u64, u128)],
    flow: &(u64, u64, u128),
) -> Result<(), NoMemory>
    requires { AllPairs IsCountedBefore pairs.now }
    ensures { OnOk result
        (out.new.items ≡ out.old.items ++ filter (λ p. is_before p flow.now) pairs.now ++ some_flow flow.now) }
{
    out.extend_from_slice(pairs_before(pairs, flow))?;
    if flow.2 > 0 {
        out.push(*flow)?;
    }
    Ok(())
}

// The pairs that come before `pair`.
fn pairs_before<'a>(
    pairs: &'a [(u64, u64, u128)],
    pair: &(u64, u64, u128),
) -> &'a [(u64, u64, u128)]
    requires { AllPairs IsCountedBefore pairs.now }
    ensures { result.now ≡ filter (λ p. is_before p pair.now) pairs.now }
{
    let (before, _) = pairs.split_at(pairs.partition_point(|p| is_before(p, pair)));
    before
}

// The pairs that come after `pair`.
fn pairs_after<'a>(pairs: &'a [(u64, u64, u128)], pair: &(u64, u64, u128)) -> &'a [(u64, u64, u128)]
    requires { AllPairs IsCountedBefore pairs.now }
    ensures { result.now ≡ filter (λ p. is_before pair.now p) pairs.now }
{
    let (_, after) = pairs.split_at(pairs.partition_point(|p| !is_before(pair, p)));
    after
}

fn is_before(pair: &(u64, u64, u128), other: &(u64, u64, u128)) -> bool
    ensures { result ≡ is_before pair.now other.now }
{
    pair.0 < other.0 || (pair.0 == other.0 && pair.1 < other.1)
}
