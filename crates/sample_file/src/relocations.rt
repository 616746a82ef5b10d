// The relocations of a sample: of its calls, and of its pointers. psABI, "Relocations".
ghost use Rattle.std.specs.Prelude.{◌≤◌};

use crate::places::{DATA, function_at};
use elf_image::relocation::{R_RISCV_64, R_RISCV_CALL_PLT};
use rb_bytes::fault::NoMemory;
use rb_bytes::little::put_u64;
use std::alloc::Global;

// The offset of a function's call of the next one, and the offset of the entry code's call of the first function.
const CALL: u64 = 0x1c;

const START_CALL: u64 = 4;

// Appends a relocation for the symbol of function `k`, whose index is `k` + 1, after the null symbol.
fn put_relocation(table: &mut Vec<u8>, place: u64, k: u64, kind: u32) -> Result<(), NoMemory>
    requires { k ≤ 1000 }
{
    put_u64(table, place)?;
    put_u64(table, ((k + 1) << 32) | kind as u64)?;
    put_u64(table, 0)
}

/// The relocations of the calls of sample `n`.
pub fn calls(alloc: Global, n: u64) -> Result<Vec<u8>, NoMemory>
    requires { n ≤ 1000 }
{
    let mut table = Vec::new(alloc);
    for k in 1..n {
        put_relocation(&mut table, function_at(k - 1) + CALL, k, R_RISCV_CALL_PLT)?;
    }
    put_relocation(&mut table, function_at(n) + START_CALL, 0, R_RISCV_CALL_PLT)?;
    Ok(table)
}

/// The relocations of the pointers of sample `n`.
pub fn pointers(alloc: Global, n: u64) -> Result<Vec<u8>, NoMemory>
    requires { n ≤ 1000 }
{
    let mut table = Vec::new(alloc);
    for k in 0..n {
        put_relocation(&mut table, DATA + 8 * k, k, R_RISCV_64)?;
    }
    Ok(table)
}

/// The pointers, one to each of `n` functions.
pub fn data(alloc: Global, n: u64) -> Result<Vec<u8>, NoMemory>
    requires { n ≤ 1000 }
{
    let mut data = Vec::new(alloc);
    for k in 0..n {
        put_u64(&mut data, function_at(k))?;
    }
    Ok(data)
}
