// Worst sizes: the most bytes that code can take, wherever it is put.
ghost use Rattle.std.specs.Prelude.{◌≡◌, ◌+◌, ◌-◌, ◌*◌, ◌≤◌, ◌^◌, take, drop, length, sum_by};
ghost use Rattle.rv_code.specs.layout.WorstSizes as worst;

use crate::flow::falls;
use crate::inst::Inst;
use crate::placed::{Block, Func, Placed};

/// Code of at most this worst size may be put in any order: a JAL reaches 2^20 bytes in both directions, so it reaches
/// everything in that code.
pub const NEAR_LIMIT: u128 = 1_000_000;

/// The most bytes that a block takes wherever it is put, or 0 if its function isn't in `funcs`. A whole function is one
/// block.
pub fn worst_size_of_block(funcs: &[Func], block: &Block) -> u128
    ensures is { result ≡ worst.worst_size_of_block funcs.now block.now }
    ensures small { result ≤ 2 ^ 67 }
{
    match funcs.get(block.func) {
        Some(func) => {
            if func.whole {
                worst_whole_size(func)
            } else {
                worst_block_size(func, block.first, block.last)
            }
        }
        None => 0,
    }
}

// The most bytes that a whole function takes: its instructions stay the same, and a jump may be added after them.
fn worst_whole_size(func: &Func) -> u128
    ensures is { result ≡ worst.worst_whole_size func.now }
    ensures small { result ≤ 2 ^ 67 }
{
    let length = func.end.saturating_sub(func.start) as u128;
    length + added_jump(func, func.insts.len().saturating_sub(1))
}

fn worst_block_size(func: &Func, first: usize, last: usize) -> u128
    ensures is { result ≡ worst.worst_block_size func.now first last }
    ensures small { result ≤ 2 ^ 67 }
{
    worst_lengths(insts_between(func, first, last)) + added_jump(func, last)
}

// The instructions of a function from index `first` to `last`, without indices past the end.
fn insts_between(func: &Func, first: usize, last: usize) -> &[Placed]
    ensures { result.now ≡ take (last + 1 - first) (drop first func.now.insts.items) }
{
    let insts = func.insts.as_slice();
    let first = first.min(insts.len());
    let rest = &insts[first..];
    if last < first {
        return &rest[..0];
    }
    &rest[..(last - first).saturating_add(1).min(rest.len())]
}

// The sum of the worst lengths of instructions.
fn worst_lengths(insts: &[Placed]) -> u128
    ensures is { result ≡ sum_by worst.worst_length insts.now }
    ensures small { result ≤ 255 * length insts.now }
{
    let mut size: u128 = 0;
    for inst in insts {
        size += worst_length(inst) as u128;
    }
    size
}

// The most bytes that an instruction takes: a branch may become an inverted branch over a JAL, and C.J a JAL. Other
// instructions keep their length.
fn worst_length(inst: &Placed) -> u8
    ensures { result ≡ worst.worst_length inst.now }
{
    match inst.inst {
        Inst::Beq { .. }
        | Inst::Bne { .. }
        | Inst::Blt { .. }
        | Inst::Bge { .. }
        | Inst::Bltu { .. }
        | Inst::Bgeu { .. } => 8,
        Inst::Jal { .. } => 4,
        _ => inst.len,
    }
}

// The bytes of the JAL that is added after the instruction at `index`, if it falls through.
fn added_jump(func: &Func, index: usize) -> u128
    ensures is { result ≡ worst.added_jump func.now index }
    ensures small { result ≤ 4 }
{
    match func.insts.get(index) {
        Some(p) => {
            if falls(&p.inst, index + 1 == func.insts.len()) {
                4
            } else {
                0
            }
        }
        None => 0,
    }
}
