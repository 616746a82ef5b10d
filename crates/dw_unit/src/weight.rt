// The weight of the written `.debug_abbrev`, which bounds its size.
ghost use Rattle.std.specs.Prelude.{◌≡◌, ◌-◌, ◌*◌, ◌^◌, IfOk, min, sum_by, unwrap_or};
ghost use Rattle.rb_bytes.specs.FirstFault.{IsFree};
ghost use Rattle.dw_unit.specs.AbbrevWeight as spec;
ghost use Rattle.dw_unit.specs.CompUnits.{Sections};
ghost use Rattle.dw_unit.specs.Faults.{HasDwarfFault, unit_fault_places};
ghost use Rattle.dw_unit.specs.ListedUnits.{sections};
ghost use Rattle.dw_unit.specs.MapKeys.{HasKeys};

use crate::offsets::abbrev_offsets;
use crate::tables::{Tables, read_tables};
use rb_bytes::fault::NoMemory;
use std::alloc::Global;
use table_core::{DWARF_VERSION, debug_units};

// The weight of a written table: three times the size of the old one. No pair of a declaration grows more: two bytes of
// DW_AT_high_pc become five, and new names take two bytes instead of one. `offset` and `end` are the old table's.
fn table_weight(offset: u64, end: Option<u64>) -> u64
    ensures { result ≡ min (3 * (unwrap_or end offset - offset)) (2 ^ 64 - 1) }
{
    let Some(end) = end else {
        return 0;
    };
    end.saturating_sub(offset).saturating_mul(3)
}

// The weight of the tables at some offsets.
fn sum_weights(tables: &Tables<'_>, offsets: &[u64]) -> u64
    requires { HasKeys tables.now.starts offsets.now }
    ensures { (s : Sections) → s.abbrevs ≡ tables.now.section.now →
        result ≡ min (sum_by (spec.table_weight s) offsets.now) (2 ^ 64 - 1) }
{
    let mut weight: u64 = 0;
    for offset in offsets {
        let table = tables.find(*offset);
        weight = weight.saturating_add(table_weight(*offset, table.at.table.table.end));
    }
    weight
}

/// The weight of all tables of abbreviations that units refer to.
pub fn weigh_tables(
    alloc: Global,
    info: &[u8],
    abbrevs: &[u8],
    addr: &[u8],
) -> Result<u64, NoMemory>
    requires sound { IsFree (HasDwarfFault (unit_fault_places (sections info.now abbrevs.now addr.now))) }
    ensures { IfOk result (λ n. n ≡ min (spec.abbrev_weight (sections info.now abbrevs.now addr.now)) (2 ^ 64 - 1)) }
{
    let units = debug_units(alloc, DWARF_VERSION, info)?;
    let offsets = abbrev_offsets(alloc, &units)?;
    let tables = read_tables(alloc, abbrevs, &offsets)?;
    Ok(sum_weights(&tables, &offsets))
}
