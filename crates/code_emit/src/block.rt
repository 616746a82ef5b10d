// The new code of a block.
ghost use Rattle.std.specs.Prelude.{◌≡◌, ◌<◌, ◌^◌, All, IfOk, OnOk, map};
ghost use Rattle.addr_map.specs.Spans.{new};
ghost use Rattle.branch_fixup.specs.BlockInsts.{seen};
ghost use Rattle.branch_fixup.specs.Pieces.{PlacedFrom, as_it_is, end_from};
ghost use Rattle.branch_fixup.specs.Strips.{insts_in, pieces_of_strip};
ghost use Rattle.code_emit.specs.NewInsts.{made_from};
ghost use Rattle.code_emit.specs.Bytes.{Adds, AllCanBeEncoded, CanBePut};
ghost use Rattle.code_emit.specs.Inputs.{AreLow, HasLowTargets};

use crate::piece::put_piece;
use addr_map::AddrMap;
use branch_fixup::block_insts::BlockInsts;
use rb_bytes::fault::NoMemory;
use rv_code::{Form, Placed};

// Appends instructions that keep their widths, from the new address `at` on. Returns the address after them.
fn put_inner(
    code: &mut Vec<u8>,
    moved: &AddrMap,
    mut at: u64,
    insts: &[Placed],
) -> Result<u64, NoMemory>
    requires placed { PlacedFrom (new moved.now) at (map as_it_is insts.now) }
    requires can { AllCanBeEncoded (made_from (new moved.now) at (map as_it_is insts.now)) }
    requires lows { AreLow moved.now }
    requires low { end_from at (map as_it_is insts.now) < 2 ^ 61 }
    requires targets { All HasLowTargets insts.now }
    ensures adds { IfOk result
        (λ end. Adds code.old.items code.new.items (made_from (new moved.now) at (map as_it_is insts.now))) }
    ensures end { IfOk result (λ end. end ≡ end_from at (map as_it_is insts.now)) }
{
    for inst in insts {
        put_piece(code, moved, inst, Form::Plain, at)?;
        at += inst.len as u64;
    }
    Ok(at)
}

/// Appends a block from the new address `at` on, with its last instruction in `form`.
pub(crate) fn put_block(
    code: &mut Vec<u8>,
    moved: &AddrMap,
    at: u64,
    block: &BlockInsts,
    form: Form,
) -> Result<(), NoMemory>
    requires fits { CanBePut (new moved.now) at (pieces_of_strip (seen block.now) form) }
    requires lows { AreLow moved.now }
    requires targets { All HasLowTargets (insts_in (seen block.now)) }
    ensures adds { OnOk result
        (Adds code.old.items code.new.items (made_from (new moved.now) at (pieces_of_strip (seen block.now) form))) }
{
    let last_at = put_inner(code, moved, at, block.inner)?;
    put_piece(code, moved, &block.last, form, last_at)
}
