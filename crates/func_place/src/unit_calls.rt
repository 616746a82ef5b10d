// The counts of a profile from unit to unit.
ghost use Rattle.std.specs.Prelude.{◌≡◌, IfOk, length, slice_index};
ghost use Rattle.rv_code.specs.layout.FunctionLists.{AreLaidOut};
ghost use Rattle.func_place.specs.Placement.{unit_call, unit_calls};

use crate::calls::UnitCall;
use rb_bytes::fault::NoMemory;
use rv_code::Func;
use rv_code::functions::function_at;
use std::alloc::Global;

/// The counts of `pairs` as counts between the units of their addresses, for pairs with both addresses in functions.
/// `units` has the unit of each function.
pub fn calls_of(
    alloc: Global,
    funcs: &[Func],
    units: &[usize],
    pairs: &[(u64, u64, u128)],
) -> Result<Vec<UnitCall>, NoMemory>
    requires { AreLaidOut funcs.now }
    ensures { IfOk result (λ v. v.items ≡ unit_calls funcs.now units.now pairs.now) }
{
    let mut calls = Vec::new(alloc);
    for pair in pairs {
        if let Some(call) = call_of(funcs, units, pair) {
            calls.push(call)?;
        }
    }
    Ok(calls)
}

fn call_of(funcs: &[Func], units: &[usize], pair: &(u64, u64, u128)) -> Option<UnitCall>
    requires { AreLaidOut funcs.now }
    ensures { result ≡ unit_call funcs.now units.now pair.now }
{
    let from = function_at(funcs, pair.0)?;
    let to = function_at(funcs, pair.1)?;
    Some(UnitCall {
        from: unit_at(units, from),
        to: unit_at(units, to),
        count: pair.2,
    })
}

fn unit_at(units: &[usize], function: usize) -> usize
    ensures { result ≡ slice_index units.now function }
{
    units.get(function).copied().unwrap_or(0)
}
