// Whether control can leave a function by an instruction.
ghost use Rattle.std.specs.Prelude.{◌≡◌, ◌⊎◌, ◌↔◌, ◌+◌, ◌<◌, ℕ, IsTrue, IsSomeAnd, false, length, slice_get};
ghost use Rattle.rv_code.specs.layout.FunctionMembers.{func_holds};
ghost use Rattle.rv_code.specs.isa.Action.{action_of};
ghost use Rattle.rv_code.specs.layout.Blocks.{EndsBlock};
ghost use Rattle.rv_code.specs.layout.Flow as flow;
ghost use Rattle.flow_infer.specs.Links as links;

use crate::entries::far_target;
use rv_code::flow::{ends_block, falls, is_call};
use rv_code::{Func, Inst, Placed, ZERO};

/// Whether control can leave `func` by its instruction with the index `place` among all of `func`. The instruction is
/// the last one of a block.
pub fn leaves(func: &Func, place: usize) -> bool
    requires { place < length func.now.insts.items }
    ensures { IsTrue result ↔ IsSomeAnd (slice_get func.now.insts.items place) (links.LeavesBy func.now place) }
{
    let inst = &func.insts[place];
    leaves_by(func, place, inst)
}

fn leaves_by(func: &Func, place: usize, inst: &Placed) -> bool
    requires { place < length func.now.insts.items }
    ensures { IsTrue result ↔ links.LeavesBy func.now place inst.now }
{
    is_indirect(&inst.inst) || jumps_out(func, inst) || ends_out(func, place, inst)
}

// Whether `inst` is an indirect jump that saves no return address.
fn is_indirect(inst: &Inst) -> bool
    ensures { result ≡ links.is_indirect (action_of inst.now) }
{
    match *inst {
        Inst::Jalr { rd, .. } => rd == ZERO,
        _ => false,
    }
}

// Whether `inst` is a branch out of `func`, or a direct jump out of it that saves no return address.
fn jumps_out(func: &Func, inst: &Placed) -> bool
    ensures { IsTrue result ↔
        (EndsBlock inst.now × IsSomeAnd (flow.target_of inst.now) (λ a. func_holds a func.now ≡ false)) }
{
    if !ends_block(inst) {
        return false;
    }
    far_target(func, inst).is_some()
}

// Whether `inst`, with index `place`, is the last instruction of `func`, and control falls through its end or leaves it
// by a call, which isn't assumed to return.
fn ends_out(func: &Func, place: usize, inst: &Placed) -> bool
    requires { place < length func.now.insts.items }
    ensures { IsTrue result ↔ ((place + 1 ≡ length func.now.insts.items) ×
        (IsTrue (flow.falls_at func.now place inst.now) ⊎ IsTrue (flow.is_call (flow.action_at inst.now)))) }
{
    if place + 1 != func.insts.len() {
        return false;
    }
    falls(&inst.inst, true) || is_call(&inst.inst)
}
