// Control flow of instructions. ISA manual, section 2.5.
ghost use Rattle.std.specs.Prelude.{◌≡◌, ◌+◌, ◌<◌, ◌^◌, ◌↔◌, IsTrue, length};
ghost use Rattle.rv_code.specs.isa.Action.{action_of};
ghost use Rattle.rv_code.specs.isa.TwosComplement.{unsigned64};
ghost use Rattle.rv_code.specs.layout.Blocks.{EndsBlock};
ghost use Rattle.rv_code.specs.layout.Flow as flow;
ghost use Rattle.rv_code.specs.machine.Machine.{plus};

use crate::inst::Inst;
use crate::placed::{Func, Placed};
use crate::register::ZERO;

/// The target of a JAL or of a taken conditional branch at `address`; `None` for other instructions.
pub fn target(address: u64, inst: &Inst) -> Option<u64>
    ensures { result ≡ flow.target address (action_of inst.now) }
{
    match *inst {
        Inst::Jal { imm, .. } => Some(moved_by(address, imm)),
        Inst::Beq { imm, .. } => Some(moved_by(address, imm)),
        Inst::Bne { imm, .. } => Some(moved_by(address, imm)),
        Inst::Blt { imm, .. } => Some(moved_by(address, imm)),
        Inst::Bge { imm, .. } => Some(moved_by(address, imm)),
        Inst::Bltu { imm, .. } => Some(moved_by(address, imm)),
        Inst::Bgeu { imm, .. } => Some(moved_by(address, imm)),
        _ => None,
    }
}

/// The address at a distance from `address`, modulo 2^64.
pub fn moved_by(address: u64, distance: i64) -> u64
    ensures { result ≡ plus address (unsigned64 distance) }
{
    address.wrapping_add(distance.cast_unsigned())
}

/// Whether an instruction ends a block: a conditional branch, or a jump that saves no return address.
pub fn ends_block(inst: &Placed) -> bool
    ensures { IsTrue result ↔ EndsBlock inst.now }
{
    is_branch(&inst.inst) || is_plain_jump(&inst.inst)
}

/// Whether an instruction is a call: a jump that saves a return address.
pub fn is_call(inst: &Inst) -> bool
    ensures { result ≡ flow.is_call (action_of inst.now) }
{
    match *inst {
        Inst::Jal { rd, .. } | Inst::Jalr { rd, .. } => rd != ZERO,
        _ => false,
    }
}

/// Whether an instruction is a jump that saves no return address.
pub fn is_plain_jump(inst: &Inst) -> bool
    ensures { result ≡ flow.is_plain_jump (action_of inst.now) }
{
    match *inst {
        Inst::Jal { rd, .. } | Inst::Jalr { rd, .. } => rd == ZERO,
        _ => false,
    }
}

/// Whether an instruction is a conditional branch.
pub fn is_branch(inst: &Inst) -> bool
    ensures { result ≡ flow.is_branch (action_of inst.now) }
{
    match *inst {
        Inst::Beq { .. }
        | Inst::Bne { .. }
        | Inst::Blt { .. }
        | Inst::Bge { .. }
        | Inst::Bltu { .. }
        | Inst::Bgeu { .. } => true,
        _ => false,
    }
}

/// Whether an instruction falls through to the next one. A call that is the last instruction of its function is assumed
/// not to return.
pub fn falls(inst: &Inst, is_last: bool) -> bool
    ensures { result ≡ flow.falls (action_of inst.now) is_last }
{
    !(is_plain_jump(inst) || (is_call(inst) && is_last))
}

/// The address after the instruction `inst`, which has the index `place` in `func.insts`, if it falls through.
pub fn fall_target(func: &Func, place: usize, inst: &Placed) -> Option<u64>
    requires inside { place < length func.now.insts.items }
    requires room { inst.now.addr + inst.now.len < 2 ^ 64 }
    ensures { result ≡ flow.fall_target func.now place inst.now }
{
    if falls(&inst.inst, place + 1 == func.insts.len()) {
        Some(inst.addr + inst.len as u64)
    } else {
        None
    }
}
