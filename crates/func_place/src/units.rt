// Units of functions.
ghost use Rattle.std.specs.Prelude.{◌≡◌, ◌↔◌, ℕ, ◌+◌, ◌<◌, List, IfOk, OnOk, All, length, slice_index};
ghost use Rattle.rv_code.specs.layout.FunctionLists.{AreLaidOut};
ghost use Rattle.func_place.specs.Units.{AreUnits};
ghost use Rattle.func_place.specs.internal.Groups.{grouping_of, IsGrouped};
ghost use Rattle.func_place.specs.internal.TieList.{IsTied, Agrees, AreTogether};

use crate::groups::Groups;
use crate::ties::ties;
use rb_bytes::fault::NoMemory;
use rv_code::Func;
use std::alloc::Global;

/// For each function its unit, which has the number of its lowest function.
pub fn units_of(alloc: Global, funcs: &[Func]) -> Result<Vec<usize>, NoMemory>
    requires { AreLaidOut funcs.now }
    ensures units { IfOk result (λ v. AreUnits funcs.now v.items) }
    ensures inside { IfOk result (λ v. All (λ u. u < length funcs.now) v.items) }
{
    let ties = ties(alloc, funcs)?;
    let groups = group_tied(alloc, funcs.len(), &ties)?;
    let units = groups.lowest_members(alloc)?;
    Ok(units)
}

// The numbers below `n` in groups, by the pairs that tie them together.
fn group_tied(alloc: Global, n: usize, ties: &[(usize, usize)]) -> Result<Groups, NoMemory>
    requires { All (λ t. (t.0 < n) × (t.1 < n)) ties.now }
    ensures len { IfOk result (λ g. length (grouping_of g).lists ≡ n) }
    ensures grouped { IfOk result (λ g. IsGrouped (grouping_of g)) }
    ensures classes { IfOk result (λ g. (f h : ℕ) → f < n → h < n → (slice_index (grouping_of g).numbers f ≡
        slice_index (grouping_of g).numbers h) ↔ AreTogether ties.now (length ties.now) f h) }
{
    let mut groups = Groups::new(alloc, n)?;
    for &(a, b) in ties {
        tie(alloc, &mut groups, a, b)?;
    }
    Ok(groups)
}

// Joins the groups of `a` and `b`, unless they are the same group.
fn tie(alloc: Global, groups: &mut Groups, a: usize, b: usize) -> Result<(), NoMemory>
    requires grouped { IsGrouped (grouping_of groups.old) }
    requires a_in { a < length (grouping_of groups.old).lists }
    requires b_in { b < length (grouping_of groups.old).lists }
    ensures len { OnOk result (length (grouping_of groups.new).lists ≡ length (grouping_of groups.old).lists) }
    ensures grouped { OnOk result (IsGrouped (grouping_of groups.new)) }
    ensures agrees { OnOk result ((ties : List (ℕ × ℕ)) (i : ℕ) → IsTied ties i a b (length
        (grouping_of groups.old).lists) → Agrees ties i (grouping_of groups.old) → Agrees ties (i + 1)
        (grouping_of groups.new)) }
{
    let first = groups.group_number(a);
    let second = groups.group_number(b);
    if first != second {
        groups.join(alloc, first, second)?;
    }
    Ok(())
}
