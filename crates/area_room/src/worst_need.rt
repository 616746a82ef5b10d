// The greatest size of the new area.
ghost use Rattle.std.specs.Prelude.{◌≡◌, IfOk};
ghost use Rattle.rv_code.specs.layout.FunctionLists.{AreLaidOut};
ghost use Rattle.area_room.specs.Need as spec;
ghost use Rattle.file_room.specs.Numbers.{capped};

use crate::frame_need::frame_need;
use elf_image::Elf;
use file_room::capped;
use rb_bytes::fault::NoMemory;
use rv_code::{Block, Func, worst_size_of_block};
use std::alloc::Global;

// The sum of the worst sizes of all blocks, saturating at 2^64 - 1.
fn code_need(funcs: &[Func], blocks: &[Block]) -> u64
    ensures { result ≡ capped (spec.code_need funcs.now blocks.now) }
{
    let mut sum: u64 = 0;
    for block in blocks {
        sum = sum.saturating_add(capped(worst_size_of_block(funcs, block)));
    }
    sum
}

/// The greatest size in bytes of the new area: the worst sizes of all blocks, and the need of the unwind table that the
/// file loads, with its index. In a malformed table the entries before the first malformed one are counted. Sums
/// saturate at 2^64 - 1.
pub fn need(alloc: Global, elf: &Elf<'_>, funcs: &[Func], blocks: &[Block]) -> Result<u64, NoMemory>
    requires laid { AreLaidOut funcs.now }
    requires blocks { spec.AreBlocksOf funcs.now blocks.now }
    ensures { IfOk result (λ need. need ≡ spec.need elf.now funcs.now blocks.now) }
{
    let frames = frame_need(alloc, elf, funcs, blocks)?;
    Ok(code_need(funcs, blocks).saturating_add(frames))
}
