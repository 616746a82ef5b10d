// Single instructions for the new code.
ghost use Rattle.std.specs.Prelude.{◌≡◌, ◌<◌, ◌^◌, pos, ◌≤ℤ◌, ◌-ℤ◌};
ghost use Rattle.rv_code.specs.isa.HiLo.{hi20, lo12};
ghost use Rattle.move_law.specs.RelocatedValues.{distance};
ghost use Rattle.move_law.specs.FaithfulRewrite.{made_anew};
ghost use Rattle.code_emit.specs.NewInsts.{with_distance, turned, kept};
ghost use Rattle.branch_fixup.specs.Distances.{new_target};
ghost use Rattle.code_emit.specs.Inputs.{AreLow, HasLowTargets};
ghost use Rattle.addr_map.specs.Spans.{new};

use addr_map::AddrMap;
use move_law::with_immediate;
use rv_code::flow::target;
use rv_code::{Inst, Placed, Role};

/// The new address of the instruction at `a`. If no instruction starts at `a`, the result is `a`.
pub fn new_of(moved: &AddrMap, a: u64) -> u64
    ensures { result ≡ new moved.now a }
{
    moved.moved(a).unwrap_or(a)
}

/// The distance of `to` from `from`.
pub fn distance(to: u64, from: u64) -> i64
    requires to_low { to < 2 ^ 62 }
    requires from_low { from < 2 ^ 62 }
    ensures { result ≡ distance to from }
{
    to as i64 - from as i64
}

fn number(n: u64) -> i64
    requires { n < 2 ^ 62 }
    ensures { result ≡ pos n }
{
    n as i64
}

// The upper part of a number, rounded so that the lower part fits in 12 bits with a sign.
fn upper(v: i64) -> i64
    requires { v ≤ℤ pos (2 ^ 62) }
    ensures { result ≡ hi20 v }
{
    (v + 0x800) >> 12
}

// The lower part of a number: the number minus its upper part.
fn lower(v: i64) -> i64
    requires low { (pos 0 -ℤ pos (2 ^ 62)) ≤ℤ v }
    requires high { v ≤ℤ pos (2 ^ 62) }
    ensures { result ≡ lo12 v }
{
    v - 4096 * upper(v)
}

/// A branch or a JAL with another distance. Any other instruction is returned unchanged.
pub fn with_distance(inst: &Inst, imm: i64) -> Inst
    ensures { result ≡ with_distance inst.now imm }
{
    match *inst {
        Inst::Jal { rd, .. } => Inst::Jal { rd, imm },
        Inst::Beq { rs1, rs2, .. } => Inst::Beq { rs1, rs2, imm },
        Inst::Bne { rs1, rs2, .. } => Inst::Bne { rs1, rs2, imm },
        Inst::Blt { rs1, rs2, .. } => Inst::Blt { rs1, rs2, imm },
        Inst::Bge { rs1, rs2, .. } => Inst::Bge { rs1, rs2, imm },
        Inst::Bltu { rs1, rs2, .. } => Inst::Bltu { rs1, rs2, imm },
        Inst::Bgeu { rs1, rs2, .. } => Inst::Bgeu { rs1, rs2, imm },
        _ => *inst,
    }
}

/// A branch with the opposite condition, if `opposite`. Any other instruction is returned unchanged.
pub fn turned(opposite: bool, inst: &Inst) -> Inst
    ensures { result ≡ turned opposite inst.now }
{
    if !opposite {
        return *inst;
    }
    match *inst {
        Inst::Beq { rs1, rs2, imm } => Inst::Bne { rs1, rs2, imm },
        Inst::Bne { rs1, rs2, imm } => Inst::Beq { rs1, rs2, imm },
        Inst::Blt { rs1, rs2, imm } => Inst::Bge { rs1, rs2, imm },
        Inst::Bge { rs1, rs2, imm } => Inst::Blt { rs1, rs2, imm },
        Inst::Bltu { rs1, rs2, imm } => Inst::Bgeu { rs1, rs2, imm },
        Inst::Bgeu { rs1, rs2, imm } => Inst::Bltu { rs1, rs2, imm },
        _ => *inst,
    }
}

// The instruction `p`, which isn't a branch or a JAL, for its new address `a`: with the part of a new address that its
// role says.
fn anew(moved: &AddrMap, a: u64, p: &Placed) -> Inst
    requires here { a ≡ new moved.now p.now.addr }
    requires low { a < 2 ^ 62 }
    requires lows { AreLow moved.now }
    requires targets { HasLowTargets p.now }
    ensures { result ≡ made_anew (new moved.now) p.now.addr p.now.role p.now.inst }
{
    match p.role {
        Role::Plain => p.inst,
        Role::CallHi { target } | Role::Hi { target } => {
            with_immediate(&p.inst, upper(distance(new_of(moved, target), a)))
        }
        Role::CallLo { hi, target } | Role::Lo { hi, target } => {
            with_immediate(
                &p.inst,
                lower(distance(new_of(moved, target), new_of(moved, hi))),
            )
        }
        Role::AbsHi { target } => with_immediate(&p.inst, upper(number(new_of(moved, target)))),
        Role::AbsLo { target } => with_immediate(&p.inst, lower(number(new_of(moved, target)))),
    }
}

/// The instruction `p`, which keeps its width, for its new address `a`.
pub(crate) fn kept(moved: &AddrMap, a: u64, p: &Placed) -> Inst
    requires here { a ≡ new moved.now p.now.addr }
    requires low { a < 2 ^ 62 }
    requires lows { AreLow moved.now }
    requires targets { HasLowTargets p.now }
    ensures { result ≡ kept (new moved.now) a p.now }
{
    match target(p.addr, &p.inst) {
        Some(t) => with_distance(&p.inst, distance(new_of(moved, t), a)),
        None => anew(moved, a, p),
    }
}

/// The new address of the target of the branch or JAL `p`; 0 for any other instruction.
pub fn new_target(moved: &AddrMap, p: &Placed) -> u64
    requires lows { AreLow moved.now }
    requires targets { HasLowTargets p.now }
    ensures value { result ≡ new_target (new moved.now) p.now }
    ensures low { result < 2 ^ 62 }
{
    match target(p.addr, &p.inst) {
        Some(t) => new_of(moved, t),
        None => 0,
    }
}
