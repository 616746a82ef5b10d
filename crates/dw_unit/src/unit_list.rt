// All entries of the units of some sections.
ghost use Rattle.std.specs.Prelude.{◌≡◌, IfOk, OnOk, IfErr};
ghost use Rattle.rb_bytes.specs.FirstFault.{IsFree, IsRefusalBy};
ghost use Rattle.dw_unit.specs.Faults.{HasDwarfFault, unit_fault_places};
ghost use Rattle.dw_unit.specs.ListedEntries.{listed_entries};
ghost use Rattle.dw_unit.specs.ListedUnits.{sections};

use crate::entry::Entry;
use crate::fault_places::refused;
use crate::offsets::abbrev_offsets;
use crate::read_unit::read_units;
use crate::tables::read_tables;
use crate::unit_faults::{UnitFaults, fault_places};
use rb_bytes::fault::Refusal;
use std::alloc::Global;
use table_core::{DWARF_VERSION, debug_units};

/// All entries of the units of `.debug_info`, in order, or the first fault. `.debug_abbrev` and `.debug_addr` are read
/// too.
pub fn listed_units(
    alloc: Global,
    info: &[u8],
    abbrevs: &[u8],
    addr: &[u8],
) -> Result<Vec<Entry>, Refusal>
    ensures entries { IfOk result (λ es. es.items ≡ listed_entries (sections info.now abbrevs.now addr.now)) }
    ensures sound { OnOk result (IsFree (HasDwarfFault (unit_fault_places (sections info.now abbrevs.now addr.now)))) }
    ensures fault { IfErr result (IsRefusalBy (HasDwarfFault
        (unit_fault_places (sections info.now abbrevs.now addr.now)))) }
{
    let units = debug_units(alloc, DWARF_VERSION, info)?;
    let address_tables = debug_units(alloc, DWARF_VERSION, addr)?;
    let offsets = abbrev_offsets(alloc, &units)?;
    let tables = read_tables(alloc, abbrevs, &offsets)?;
    let readings = read_units(alloc, &tables, addr, &units)?;
    let faults = UnitFaults {
        bad_form: readings.bad_form,
        bad_high: readings.bad_high,
        unformed: readings.unformed,
        bad: readings.bad,
    };
    let places = fault_places(faults, &units, &address_tables);
    refused(places)?;
    Ok(readings.entries)
}
