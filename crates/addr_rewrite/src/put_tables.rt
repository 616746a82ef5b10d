// Tables of `.debug_aranges` as bytes. DWARF 5, sections 6.1.2 and 7.21.
ghost use Rattle.std.specs.Prelude.{◌≡◌, ◌<◌, ◌≤◌, ◌-◌, ◌+◌, ◌*◌, ◌^◌, ◌++◌, OnOk, length};
ghost use Rattle.byteorder.specs.Endian.{little_bytes};
ghost use Rattle.addr_rewrite.specs.WrittenAranges as spec;

use crate::stretch::Stretch;
use rb_bytes::fault::NoMemory;
use rb_bytes::little::{put_u16, put_u32, put_u64};
use table_core::ARANGES_VERSION;

// An address size of 8 and a segment selector size of 0, as one number of 16 bits.
const SIZES: u16 = 8;

// The number of bytes of a table after its length, without its pairs: eight of the header, four of padding, and the two
// zeros that end the pairs.
const FIXED_SIZE: usize = 28;

// The number of bytes of a pair.
const PAIR_SIZE: usize = 16;

fn put_pair(out: &mut Vec<u8>, address: u64, len: u64) -> Result<(), NoMemory>
    ensures { OnOk result (out.new.items ≡ out.old.items ++ (little_bytes 8 address ++ little_bytes 8 len)) }
{
    put_u64(out, address)?;
    put_u64(out, len)?;
    Ok(())
}

// Appends a pair for each stretch, and the two zeros that end them.
fn put_pairs(out: &mut Vec<u8>, stretches: &[Stretch]) -> Result<(), NoMemory>
    ensures { OnOk result (out.new.items ≡ out.old.items ++ spec.pairs_bytes stretches.now) }
{
    for stretch in stretches {
        put_pair(out, stretch.start, stretch.len)?;
    }
    put_pair(out, 0, 0)?;
    Ok(())
}

// Appends the table of a unit, with its length. The first pair is at a multiple of 16 bytes from the table's start,
// after four bytes of padding.
fn put_table(out: &mut Vec<u8>, unit: u32, stretches: &[Stretch]) -> Result<(), NoMemory>
    requires { 28 + 16 * length stretches.now < 2 ^ 32 - 1 }
    ensures { OnOk result (out.new.items ≡ out.old.items ++ spec.spelled_table (spec.table_bytes unit stretches.now)) }
{
    put_u32(out, (FIXED_SIZE + PAIR_SIZE * stretches.len()) as u32)?;
    put_u16(out, ARANGES_VERSION)?;
    put_u32(out, unit)?;
    put_u16(out, SIZES)?;
    put_u32(out, 0)?;
    put_pairs(out, stretches)?;
    Ok(())
}

// The number of stretches at the front that are of a unit.
fn count_of(unit: u32, stretches: &[Stretch]) -> usize
    ensures count { result ≡ spec.count_of unit stretches.now }
    ensures within { result ≤ length stretches.now }
{
    for (i, stretch) in stretches.iter().enumerate() {
        if stretch.unit != unit {
            return i;
        }
    }
    stretches.len()
}

/// Appends a table for each unit. Stretches of a unit must follow one another.
pub fn put_tables(out: &mut Vec<u8>, stretches: &[Stretch]) -> Result<(), NoMemory>
    requires { 28 + 16 * length stretches.now < 2 ^ 32 - 1 }
    ensures { OnOk result (out.new.items
        ≡ out.old.items ++ spec.spelled_tables (spec.tables_of (length stretches.now) stretches.now)) }
{
    let mut rest = stretches;
    // Each table has at least one stretch. `count` isn't read: it bounds the loop.
    for count in 0..stretches.len() {
        match rest.split_first() {
            None => return Ok(()),
            Some((first, others)) => {
                let (table, behind) = rest.split_at(count_of(first.unit, others) + 1);
                put_table(out, first.unit, table)?;
                rest = behind;
            }
        }
    }
    Ok(())
}
