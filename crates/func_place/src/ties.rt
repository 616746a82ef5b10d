// Pairs of functions of which one leads into the other.
ghost use Rattle.std.specs.Prelude.{◌≡◌, ◌≢◌, ◌↔◌, ℕ, ◌+◌, ◌<◌, ◌^◌, [], IfOk, OnOk, length, slice_get};
ghost use Rattle.rv_code.specs.layout.FunctionLists.{AreLaidOut};
ghost use Rattle.rv_code.specs.layout.FunctionMembers.{function_at};
ghost use Rattle.rb_bytes.specs.Lists.{Gains};
ghost use Rattle.func_place.specs.internal.TieList.{Ties, TiesOf, TiesFrom, TiesAt};

use rb_bytes::fault::NoMemory;
use rv_code::Func;
use rv_code::flow::{fall_target, target};
use rv_code::functions::{func_holds, function_at};
use std::alloc::Global;

/// The pairs of a function and another one into which it leads, as indices. A pair can occur more than once.
pub fn ties(alloc: Global, funcs: &[Func]) -> Result<Vec<(usize, usize)>, NoMemory>
    requires { AreLaidOut funcs.now }
    ensures { IfOk result (λ v. Gains [] v.items (Ties funcs.now)) }
{
    let mut ties = Vec::new(alloc);
    for place in 0..funcs.len() {
        put_ties_of(&mut ties, funcs, place)?;
    }
    Ok(ties)
}

// Appends the pairs of the function with index `place`.
fn put_ties_of(ties: &mut Vec<(usize, usize)>, funcs: &[Func], place: usize) -> Result<(), NoMemory>
    requires funcs { AreLaidOut funcs.now }
    requires inside { place < length funcs.now }
    ensures { OnOk result (Gains ties.old.items ties.new.items (TiesOf funcs.now place)) }
{
    let func = &funcs[place];
    for i in 0..func.insts.len() {
        put_ties_from(ties, funcs, place, func, i)?;
    }
    Ok(())
}

// Appends the pairs of instruction `i` of `func`, which is the function with index `place`.
fn put_ties_from(
    ties: &mut Vec<(usize, usize)>,
    funcs: &[Func],
    place: usize,
    func: &Func,
    i: usize,
) -> Result<(), NoMemory>
    requires funcs { AreLaidOut funcs.now }
    requires is_func { slice_get funcs.now place ≡ Some func.now }
    requires inside { place < length funcs.now }
    requires i_in { i < length func.now.insts.items }
    ensures { OnOk result (Gains ties.old.items ties.new.items (TiesFrom funcs.now place i)) }
{
    let inst = &func.insts[i];
    put_tie(ties, funcs, place, target(inst.addr, &inst.inst))?;
    put_tie(ties, funcs, place, fall_target(func, i, inst))?;
    Ok(())
}

// Appends the pair of the function with index `place` and the function that contains the address `to`, if this is
// another function.
fn put_tie(
    ties: &mut Vec<(usize, usize)>,
    funcs: &[Func],
    place: usize,
    to: Option<u64>,
) -> Result<(), NoMemory>
    requires funcs { AreLaidOut funcs.now }
    requires inside { place < length funcs.now }
    ensures { OnOk result (Gains ties.old.items ties.new.items (λ t. (a : ℕ) × (to ≡
        Some a) × TiesAt funcs.now place a t)) }
{
    if let Some(address) = to {
        put_tie_at(ties, funcs, place, address)?;
    }
    Ok(())
}

fn put_tie_at(
    ties: &mut Vec<(usize, usize)>,
    funcs: &[Func],
    place: usize,
    address: u64,
) -> Result<(), NoMemory>
    requires funcs { AreLaidOut funcs.now }
    requires inside { place < length funcs.now }
    ensures { OnOk result (Gains ties.old.items ties.new.items (TiesAt funcs.now place address)) }
{
    if let Some(other) = other_function_at(funcs, place, address) {
        ties.push((place, other))?;
    }
    Ok(())
}

// The function that contains `address`, unless it is the one with index `place`. That one is looked at first, since
// most branches stay in their function.
fn other_function_at(funcs: &[Func], place: usize, address: u64) -> Option<usize>
    requires funcs { AreLaidOut funcs.now }
    requires inside { place < length funcs.now }
    ensures { (g : ℕ) → (result ≡ Some g) ↔ ((function_at funcs.now address ≡ Some g) × (g ≢ place)) }
{
    if func_holds(&funcs[place], address) {
        return None;
    }
    function_at(funcs, address)
}
