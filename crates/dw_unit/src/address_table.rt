// Tables of addresses. DWARF 5, section 7.27.
ghost use Rattle.std.specs.Prelude.{◌≡◌, false, not};
ghost use Rattle.std.specs.Option.{option_map_or};
ghost use Rattle.table_core.specs.DebugUnits.{first_place};
ghost use Rattle.dw_unit.specs.Faults.{is_address_table};

use byteorder::{ByteOrder, LittleEndian};
use table_core::DebugUnit;

// Whether a table has an address size of 8, a segment selector size of 0, and then whole addresses.
fn is_address_table(bytes: &[u8]) -> bool
    ensures { result ≡ is_address_table bytes.now }
{
    if bytes.len() < 4 {
        return false;
    }
    let (_, sizes) = bytes.split_at(2);
    LittleEndian::read_u16(sizes) == 8 && (bytes.len() - 4) % 8 == 0
}

fn is_bad(table: &DebugUnit) -> bool
    ensures { result ≡ not (option_map_or is_address_table table.now.bytes false) }
{
    match table.bytes {
        Some(bytes) => !is_address_table(bytes),
        None => true,
    }
}

/// The offset of the first malformed address table. Other versions are found by `other_version`.
pub fn bad_table(tables: &[DebugUnit]) -> Option<u64>
    ensures { result ≡ first_place (λ w. not (option_map_or is_address_table w.bytes false)) tables.now }
{
    let table = tables.iter().find(|table| is_bad(table))?;
    Some(table.place)
}

fn is_other(unit: &DebugUnit) -> bool
    ensures { result ≡ unit.now.is_other }
{
    unit.is_other
}

/// The offset of the first unit, or table, of another format or version than those that are read.
pub fn other_version(units: &[DebugUnit]) -> Option<u64>
    ensures { result ≡ first_place (λ w. w.is_other) units.now }
{
    let unit = units.iter().find(|unit| is_other(unit))?;
    Some(unit.place)
}
