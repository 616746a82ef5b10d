// Faults of placement.
ghost use Rattle.std.specs.Prelude.{◌≡◌, ◌<◌, ◌≤◌, All, MatchOption, length};
ghost use Rattle.func_place.specs.Faults.{leaves};
ghost use Rattle.func_place.specs.internal.FirstFaults.{IsFirstLong, IsFirstLeaving, IsFirstKept, StaysIn};
ghost use Rattle.func_place.specs.Clusters.{AreWithinLimit};

use rv_code::flow::{is_branch, target};
use rv_code::functions::func_holds;
use rv_code::worst_sizes::NEAR_LIMIT;
use rv_code::{Func, Placed};

/// The start of the first unit that is longer than `NEAR_LIMIT`. `sizes` has the worst size of each unit.
pub fn first_long(funcs: &[Func], sizes: &[u128]) -> Option<u64>
    requires { length sizes.now ≡ length funcs.now }
    ensures { MatchOption result (AreWithinLimit sizes.now) (IsFirstLong funcs.now sizes.now) }
{
    for (unit, size) in sizes.iter().enumerate() {
        if *size > NEAR_LIMIT {
            return Some(funcs[unit].start);
        }
    }
    None
}

/// The address of the first branch or two-byte jump that leaves a function which moves as one piece. Such an
/// instruction keeps its bytes, so it can't be made to reach far.
pub fn first_kept(funcs: &[Func]) -> Option<u64>
    ensures { MatchOption result (All StaysIn funcs.now) (IsFirstKept funcs.now) }
{
    for func in funcs {
        if let Some(place) = first_leaving(func) {
            return Some(place);
        }
    }
    None
}

fn first_leaving(func: &Func) -> Option<u64>
    ensures { MatchOption result (StaysIn func.now) (IsFirstLeaving func.now) }
{
    for inst in &func.insts {
        if leaves(func, inst) {
            return Some(inst.addr);
        }
    }
    None
}

fn leaves(func: &Func, inst: &Placed) -> bool
    ensures { result ≡ leaves func.now inst.now }
{
    if !(func.whole && (is_branch(&inst.inst) || inst.len == 2)) {
        return false;
    }
    match target(inst.addr, &inst.inst) {
        Some(to) => !func_holds(func, to),
        None => false,
    }
}
