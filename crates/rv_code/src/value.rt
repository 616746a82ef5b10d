// The result of an instruction on operands that the caller has read.
ghost use Rattle.std.specs.Prelude.{◌≡◌};
ghost use Rattle.rv_code.specs.isa.Action.{action_of};
ghost use Rattle.rv_code.specs.isa.Value.{operation_value, is_taken};

use crate::action::Action;
use crate::inst::Inst;

/// The result of an operation on two registers or on a register and an immediate: `a` is the value of rs1, and `b` is
/// the value of rs2 or the immediate in 64 bits. The result is 0 for other instructions.
pub fn op_value(inst: &Inst, a: u64, b: u64) -> u64
    ensures { result ≡ operation_value (action_of inst.now) a b }
{
    match inst.action() {
        Action::Compute { op, .. } => op.apply(a, b),
        Action::Branch { .. }
        | Action::Jump { .. }
        | Action::JumpTo { .. }
        | Action::Upper { .. }
        | Action::UpperPc { .. }
        | Action::Load { .. }
        | Action::Store { .. }
        | Action::Fence
        | Action::SystemCall
        | Action::Breakpoint => 0,
    }
}

/// Whether a conditional branch is taken, if `a` and `b` are the values of rs1 and rs2. False for other instructions.
pub fn taken(inst: &Inst, a: u64, b: u64) -> bool
    ensures { result ≡ is_taken (action_of inst.now) a b }
{
    match inst.action() {
        Action::Branch { test, wanted, .. } => test.holds(a, b) == wanted,
        Action::Compute { .. }
        | Action::Jump { .. }
        | Action::JumpTo { .. }
        | Action::Upper { .. }
        | Action::UpperPc { .. }
        | Action::Load { .. }
        | Action::Store { .. }
        | Action::Fence
        | Action::SystemCall
        | Action::Breakpoint => false,
    }
}
