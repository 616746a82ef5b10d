// The unwind table of a sample, and its index. LSB, "The .eh_frame section" and "The .eh_frame_hdr section".
ghost use Rattle.std.specs.Prelude.{◌≤◌};

use crate::numbers::{low, put_distance};
use crate::places::{FUNCTION_SIZE, function_at};
use rb_bytes::fault::NoMemory;
use rb_bytes::little::put_u32;
use std::alloc::Global;

// The CIE: its length, id 0, version 1, the augmentation, code and data alignment, the return register, the encoding of
// addresses (relative, in four bytes), and the rule that the canonical frame address is the stack pointer.
const COMMON: &[u8] = b"\x14\0\0\0\0\0\0\0\x01zR\0\x01\x78\x01\x01\x1b\x0c\x02\0\0\0\0\0";

// The call frame instructions of a function: after its first instruction the frame has 16 bytes, and after the second
// one the return address is saved in it. The return address is restored before the last instruction but one, and the
// frame removed before the last one. Four nops are padding.
const OPERATIONS: &[u8] = b"\x44\x0e\x10\x44\x81\x01\x60\xc1\x44\x0e\0\0\0\0\0";

// The size of a function's FDE, and its size without the length field.
const ENTRY_SIZE: u64 = 32;

const ENTRY_LENGTH: u32 = 28;

// The header of the index: version 1, and the encodings of the table's address (relative), of the number of entries
// (four bytes) and of the entries (relative to the index).
const INDEX_FRONT: &[u8] = b"\x01\x1b\x03\x3b";

// The offset of the FDE of function `k` in the table.
fn entry_place(k: u64) -> u64
    requires { k ≤ 1000 }
{
    COMMON.len() as u64 + ENTRY_SIZE * k
}

/// The table of sample `n`, which is loaded at the address `at`.
pub fn frames(alloc: Global, n: u64, at: u64) -> Result<Vec<u8>, NoMemory>
    requires { n ≤ 1000 }
{
    let mut table = Vec::new(alloc);
    table.extend_from_slice(COMMON)?;
    for k in 0..n {
        let place = entry_place(k);
        put_u32(&mut table, ENTRY_LENGTH)?;
        put_u32(&mut table, low(place.wrapping_add(4)))?;
        put_distance(
            &mut table,
            function_at(k),
            at.wrapping_add(place.wrapping_add(8)),
        )?;
        put_u32(&mut table, low(FUNCTION_SIZE))?;
        table.push(0)?;
        table.extend_from_slice(OPERATIONS)?;
    }
    put_u32(&mut table, 0)?;
    Ok(table)
}

/// The index of the table of sample `n`. The table is loaded at `frames`, and the index at `at`.
pub fn index(alloc: Global, n: u64, frames: u64, at: u64) -> Result<Vec<u8>, NoMemory>
    requires { n ≤ 1000 }
{
    let mut index = Vec::new(alloc);
    index.extend_from_slice(INDEX_FRONT)?;
    put_distance(&mut index, frames, at.wrapping_add(4))?;
    put_u32(&mut index, low(n))?;
    for k in 0..n {
        put_distance(&mut index, function_at(k), at)?;
        put_distance(&mut index, frames.wrapping_add(entry_place(k)), at)?;
    }
    Ok(index)
}
