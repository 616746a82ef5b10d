// The debugging entries of a sample. DWARF 5, section 7.5.
ghost use Rattle.std.specs.Prelude.{◌≤◌};

use crate::numbers::{put_text, put_unit};
use crate::places::{CODE, FUNCTION_SIZE, START_SIZE, function_at};
use crate::profile::function_name;
use rb_bytes::fault::NoMemory;
use rb_bytes::little::{put_u16, put_u32, put_u64};
use std::alloc::Global;
use table_core::DWARF_VERSION;

/// The abbreviations of a unit and of a function: names, bounds, the unit's line table, and a function's frame base.
pub const ABBREVIATIONS: &[u8] =
    b"\x01\x11\x01\x03\x08\x10\x17\x11\x01\x12\x07\0\0\x02\x2e\0\x03\x08\x11\x01\x12\x07\x40\x18\0\0\0";

// The name of the source file.
const SOURCE: &[u8] = b"sample.c";

// The unit's header after its version: type (compilation), size of addresses, offset of the abbreviations. The code of
// the unit's abbreviation follows.
const UNIT_FRONT: &[u8] = b"\x01\x08\0\0\0\0\x01";

// The code of a function's abbreviation.
const FUNCTION: u8 = 2;

// The expression for the frame base: its length, and DW_OP_call_frame_cfa.
const FRAME_BASE: &[u8] = b"\x01\x9c";

/// The unit of sample `n`, with an entry for each function.
pub fn info(alloc: Global, n: u64) -> Result<Vec<u8>, NoMemory>
    requires { n ≤ 1000 }
{
    let mut unit = Vec::new(alloc);
    put_u16(&mut unit, DWARF_VERSION)?;
    unit.extend_from_slice(UNIT_FRONT)?;
    put_text(&mut unit, SOURCE)?;
    // The offset of its line table in `.debug_line`, and then its bounds.
    put_u32(&mut unit, 0)?;
    put_u64(&mut unit, CODE)?;
    put_u64(&mut unit, FUNCTION_SIZE * n + START_SIZE)?;
    for k in 0..n {
        put_function(&mut unit, alloc, k)?;
    }
    // The end of the unit's children.
    unit.push(0)?;
    let mut info = Vec::new(alloc);
    put_unit(&mut info, &unit)?;
    Ok(info)
}

fn put_function(unit: &mut Vec<u8>, alloc: Global, k: u64) -> Result<(), NoMemory>
    requires { k ≤ 1000 }
{
    unit.push(FUNCTION)?;
    put_text(unit, &function_name(alloc, k)?)?;
    put_u64(unit, function_at(k))?;
    put_u64(unit, FUNCTION_SIZE)?;
    unit.extend_from_slice(FRAME_BASE)?;
    Ok(())
}
