// The new code for one instruction.
ghost use Rattle.std.specs.Prelude.{◌≡◌, ◌<◌, ◌+◌, ◌^◌, OnOk, [], ◌∷◌, if◌then◌else◌};
ghost use Rattle.addr_map.specs.Spans.{new};
ghost use Rattle.code_emit.specs.NewInsts.{jump_to, branch_to, added, made};
ghost use Rattle.branch_fixup.specs.Distances.{new_target};
ghost use Rattle.branch_fixup.specs.Pieces.{bytes_of_size};
ghost use Rattle.code_emit.specs.Bytes.{Adds, AllCanBeEncoded, CanBeEncoded, width_of_bytes};
ghost use Rattle.code_emit.specs.Inputs.{AreLow, HasLowTargets};

use crate::anew::{distance, kept, new_of, new_target, turned, with_distance};
use crate::code::push;
use addr_map::AddrMap;
use branch_fixup::lengths::bytes_of_size;
use rb_bytes::fault::NoMemory;
use rv_code::{Form, Inst, Placed, Size, Width};

fn width_of(bytes: u8) -> Width
    ensures { result ≡ width_of_bytes bytes }
{
    if bytes == 2 { Width::Half } else { Width::Full }
}

// Appends an instruction in `bytes` bytes, two or four.
#[tactic(auto, using(crate::proofs::Coded::adds_as_long))]
fn put(code: &mut Vec<u8>, inst: &Inst, bytes: u8) -> Result<(), NoMemory>
    requires { CanBeEncoded (record { inst = inst.now; bytes = bytes }) }
    ensures ok { OnOk result (Adds code.old.items code.new.items (record { inst = inst.now; bytes = bytes } ∷ [])) }
{
    push(code, inst, width_of(bytes))
}

// Appends a `JAL x0` to `to`, at `a`.
fn put_jump(code: &mut Vec<u8>, to: u64, a: u64) -> Result<(), NoMemory>
    requires can { CanBeEncoded (jump_to to a) }
    requires to_low { to < 2 ^ 62 }
    requires low { a < 2 ^ 62 }
    ensures ok { OnOk result (Adds code.old.items code.new.items (jump_to to a ∷ [])) }
{
    let jump = Inst::Jal {
        rd: 0,
        imm: distance(to, a),
    };
    put(code, &jump, 4)
}

// Appends a branch to `to`, at `a`. A long one is a branch with the opposite condition over a jump.
#[tactic(auto, using(crate::proofs::Coded::adds_both))]
fn put_branch(
    code: &mut Vec<u8>,
    to: u64,
    inst: &Inst,
    inverted: bool,
    size: Size,
    a: u64,
) -> Result<(), NoMemory>
    requires can { AllCanBeEncoded (branch_to to inst.now inverted size a) }
    requires to_low { to < 2 ^ 62 }
    requires low { a < 2 ^ 61 }
    ensures ok { OnOk result (Adds code.old.items code.new.items (branch_to to inst.now inverted size a)) }
{
    match size {
        Size::Half => put(
            code,
            &with_distance(&turned(inverted, inst), distance(to, a)),
            2,
        ),
        Size::Full => put(
            code,
            &with_distance(&turned(inverted, inst), distance(to, a)),
            4,
        ),
        Size::Long => {
            put(code, &with_distance(&turned(!inverted, inst), 8), 4)?;
            put_jump(code, to, a + 4)
        }
    }
}

// The new address to which the branch `p` has to lead: its target, or its fall-through address if it is `inverted`.
fn branch_goal(moved: &AddrMap, p: &Placed, inverted: bool) -> u64
    requires lows { AreLow moved.now }
    requires targets { HasLowTargets p.now }
    ensures low { result < 2 ^ 62 }
    ensures value { result ≡ (if inverted then new moved.now (p.now.addr + p.now.len) else new_target
        (new moved.now) p.now) }
{
    if inverted {
        new_of(moved, p.addr + p.len as u64)
    } else {
        new_target(moved, p)
    }
}

// Appends a jump to the fall-through address of `p`, at `a`, if `jump` is true.
#[tactic(auto, using(crate::proofs::Coded::adds_none))]
fn put_added(
    code: &mut Vec<u8>,
    moved: &AddrMap,
    p: &Placed,
    jump: bool,
    a: u64,
) -> Result<(), NoMemory>
    requires can { AllCanBeEncoded (added (new moved.now) p.now jump a) }
    requires lows { AreLow moved.now }
    requires low { a < 2 ^ 62 }
    requires targets { HasLowTargets p.now }
    ensures ok { OnOk result (Adds code.old.items code.new.items (added (new moved.now) p.now jump a)) }
{
    if jump {
        put_jump(code, new_of(moved, p.addr + p.len as u64), a)
    } else {
        Ok(())
    }
}

// Appends the branch `p`, at `a`, with the jump after it if `jump` is true.
fn put_whole_branch(
    code: &mut Vec<u8>,
    moved: &AddrMap,
    p: &Placed,
    inverted: bool,
    size: Size,
    jump: bool,
    a: u64,
) -> Result<(), NoMemory>
    requires can { AllCanBeEncoded (made (new moved.now) a p.now (Form.Branch inverted size jump)) }
    requires lows { AreLow moved.now }
    requires low { a < 2 ^ 61 }
    requires targets { HasLowTargets p.now }
    ensures ok { OnOk result
        (Adds code.old.items code.new.items (made (new moved.now) a p.now (Form.Branch inverted size jump))) }
{
    put_branch(
        code,
        branch_goal(moved, p, inverted),
        &p.inst,
        inverted,
        size,
        a,
    )?;
    put_added(code, moved, p, jump, a + bytes_of_size(size) as u64)
}

/// Appends the instruction `p` in its form, at its new address `a`.
#[tactic(auto, using(crate::proofs::Coded::adds_both, crate::proofs::Coded::adds_none))]
pub(crate) fn put_piece(
    code: &mut Vec<u8>,
    moved: &AddrMap,
    p: &Placed,
    form: Form,
    a: u64,
) -> Result<(), NoMemory>
    requires here { a ≡ new moved.now p.now.addr }
    requires can { AllCanBeEncoded (made (new moved.now) a p.now form) }
    requires lows { AreLow moved.now }
    requires low { a < 2 ^ 61 }
    requires targets { HasLowTargets p.now }
    ensures ok { OnOk result (Adds code.old.items code.new.items (made (new moved.now) a p.now form)) }
{
    match form {
        Form::Plain => put(code, &kept(moved, a, p), p.len),
        Form::Jump => {
            put(code, &kept(moved, a, p), p.len)?;
            put_jump(code, new_of(moved, p.addr + p.len as u64), a + p.len as u64)
        }
        Form::Branch {
            inverted,
            size,
            jump,
        } => put_whole_branch(code, moved, p, inverted, size, jump, a),
        Form::Goto { half } => {
            let jump = Inst::Jal {
                rd: 0,
                imm: distance(new_target(moved, p), a),
            };
            put(code, &jump, if half { 2 } else { 4 })
        }
        Form::Dropped => Ok(()),
    }
}
