// The ending of a block, by the block that follows it.
ghost use Rattle.std.specs.Prelude.{◌≡◌, if◌then◌else◌};
ghost use Rattle.rv_code.specs.layout.Flow.{action_at, target_of};
ghost use Rattle.branch_fixup.specs.BlockInsts.{seen};
ghost use Rattle.branch_fixup.specs.Ends.{lead_of, IsShortest};
ghost use Rattle.branch_fixup.specs.Endings.{begins_at};

use crate::block_insts::BlockInsts;
use rv_code::flow::target;
use rv_code::{Action, Form, Size};

// Whether the next block, which begins at `next`, begins at `address`. False if either is `None`.
fn begins_at(next: Option<u64>, address: Option<u64>) -> bool
    ensures { result ≡ begins_at next address }
{
    match (next, address) {
        (Some(start), Some(address)) => start == address,
        _ => false,
    }
}

// The last instruction unchanged, with a jump after it if the block falls through to another block than the next one
// (`apart`).
fn kept(apart: bool) -> Form
    ensures { result ≡ (if apart then Form.Jump else Form.Plain) }
{
    if apart { Form::Jump } else { Form::Plain }
}

/// The shortest form of a block, if the next block begins at `next`.
pub fn shortest_form(block: &BlockInsts, next: Option<u64>) -> Form
    ensures { IsShortest (seen block.now) next result }
{
    let apart = block.fall.is_some() && !begins_at(next, block.fall);
    if block.whole {
        return kept(apart);
    }
    let to = target(block.last.addr, &block.last.inst);
    let half = block.last.len == 2;
    match block.last.inst.action() {
        Action::Branch { .. } => {
            // The inverted branch goes to the block's fall-through address, and falls through to its target, the next
            // block.
            let inverted = apart && begins_at(next, to);
            let size = if half { Size::Half } else { Size::Full };
            Form::Branch {
                inverted,
                size,
                jump: apart && !inverted,
            }
        }
        Action::Jump { rd, .. } => {
            if rd != 0 {
                return kept(apart);
            }
            // A jump that begins its block may be named by a role or a cell, so it isn't dropped.
            if begins_at(next, to) && !block.inner.is_empty() {
                return Form::Dropped;
            }
            Form::Goto { half }
        }
        _ => kept(apart),
    }
}

/// The target of the branch or jump of `form`, if the form can grow; otherwise `None`.
pub fn lead_of(block: &BlockInsts, form: Form) -> Option<u64>
    ensures { result ≡ lead_of (seen block.now) form }
{
    match form {
        Form::Branch { inverted, .. } => {
            if inverted {
                block.fall
            } else {
                target(block.last.addr, &block.last.inst)
            }
        }
        Form::Goto { .. } => target(block.last.addr, &block.last.inst),
        _ => None,
    }
}
