// Lists the basic blocks of functions.
ghost use Rattle.std.specs.Prelude.{◌≡◌, ◌+◌, ◌<◌, ◌↔◌, ℕ, IfOk, OnOk, IsTrue, Some, length, slice_get};
ghost use Rattle.rv_code.specs.layout.Blocks.{AreBlocks, Begins};
ghost use Rattle.rv_code.specs.layout.ProgramCode.{ProgramCode};
ghost use Rattle.cfg_build.specs.NamedAddresses.{code_of, AreEntered};
ghost use Rattle.cfg_build.specs.BlockLists.{AreBlocksBefore, EndsAt};

use crate::named::entered_addresses;
use code_starts::address_set::AddressSet;
use rb_bytes::fault::NoMemory;
use rv_code::flow::ends_block;
use rv_code::{Block, Func};
use rv_reloc::Refs;
use std::alloc::Global;

/// The blocks of functions, by function and by address. `refs` are the references of the file, and `entry` is its entry
/// point.
pub fn blocks(
    alloc: Global,
    funcs: &[Func],
    refs: &Refs,
    entry: u64,
) -> Result<Vec<Block>, NoMemory>
    ensures { IfOk result (λ blocks. AreBlocks (code_of funcs.now refs.now entry) blocks.items) }
{
    let entered = entered_addresses(alloc, funcs, refs, entry)?;
    let mut blocks = Vec::new(alloc);
    for (place, func) in funcs.iter().enumerate() {
        push_blocks(&mut blocks, &entered, place, func)?;
    }
    Ok(blocks)
}

// Appends the blocks of `func`, which is function `place`.
fn push_blocks(
    blocks: &mut Vec<Block>,
    entered: &AddressSet,
    place: usize,
    func: &Func,
) -> Result<(), NoMemory>
    ensures { OnOk result ((code : ProgramCode) → slice_get code.funcs place ≡ Some func.now →
        AreEntered code entered.now →
        AreBlocksBefore code place 0 blocks.old.items → AreBlocksBefore code (place + 1) 0 blocks.new.items) }
{
    let mut first = 0;
    for last in 0..func.insts.len() {
        if !ends_at(entered, func, last) {
            continue;
        }
        blocks.push(Block {
            func: place,
            first,
            last,
        })?;
        first = last + 1;
    }
    Ok(())
}

// Whether a block ends with instruction `i` of `func`. A function that moves as one piece is one block.
fn ends_at(entered: &AddressSet, func: &Func, i: usize) -> bool
    requires { i < length func.now.insts.items }
    ensures { (code : ProgramCode) → AreEntered code entered.now → IsTrue result ↔ EndsAt code func.now i }
{
    if i + 1 == func.insts.len() {
        return true;
    }
    if func.whole {
        return false;
    }
    if ends_block(&func.insts[i]) {
        return true;
    }
    entered.has(func.insts[i + 1].addr)
}
