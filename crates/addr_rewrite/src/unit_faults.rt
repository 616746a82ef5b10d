// The faults of units.
ghost use Rattle.std.specs.Prelude.{◌≡◌, ◌++◌, ◌∷◌, [], ℕ, List, None, Some, IfOk, is_some, if◌then◌else◌};
ghost use Rattle.table_core.specs.DebugUnits.{Walked};
ghost use Rattle.dw_unit.specs.Faults.{unit_fault_places};
ghost use Rattle.dw_unit.specs.ListedUnits.{sections};
ghost use Rattle.dw_unit.specs.UnitFaults.{AreNoted};
ghost use Rattle.dw_unit.specs.UnitReadings.{IsReading};

use dw_unit::UnitReader;
use dw_unit::fault_places::FaultPlaces;
use dw_unit::lowest::lower;
use dw_unit::unit_faults::{UnitFaults, fault_places};
use dw_unit::unit_reading::UnitReading;
use rb_bytes::fault::NoMemory;
use std::alloc::Global;
use table_core::{DWARF_VERSION, debug_units, place_of};

// The offset of a unit, if it can't be read.
fn bad_place(place: u64, reading: &UnitReading) -> Option<u64>
    ensures { result ≡ (if is_some reading.now.entries then None else Some place) }
{
    if reading.entries.is_some() {
        None
    } else {
        Some(place)
    }
}

// The faults of some units and of the next one, which is at offset `place`.
fn with_unit(so_far: UnitFaults, place: u64, reading: &UnitReading) -> UnitFaults
    ensures { (abbrevs addr : List ℕ) (ws : List Walked) (w : Walked) → w.place ≡ place →
        AreNoted abbrevs addr ws so_far →
        IsReading abbrevs addr w reading.now → AreNoted abbrevs addr (ws ++ w ∷ []) result }
{
    UnitFaults {
        bad_form: lower(so_far.bad_form, reading.bad_form),
        bad_high: lower(so_far.bad_high, reading.bad_high),
        unformed: lower(so_far.unformed, reading.unformed),
        bad: so_far.bad.or(bad_place(place, reading)),
    }
}

fn noted(alloc: Global, reader: &UnitReader<'_, '_>) -> Result<UnitFaults, NoMemory>
    ensures { IfOk result (AreNoted reader.now.abbrevs reader.now.addr reader.now.units) }
{
    let units = reader.units();
    let mut faults = UnitFaults {
        bad_form: None,
        bad_high: None,
        unformed: None,
        bad: None,
    };
    for number in 0..units.len() {
        let reading = reader.read(alloc, number)?;
        let place = place_of(units, number);
        faults = with_unit(faults, place, &reading);
    }
    Ok(faults)
}

/// The place to report for each fault of units and of address tables, from `.debug_info`, `.debug_abbrev` and
/// `.debug_addr`. No entry is kept.
pub fn unit_places(
    alloc: Global,
    info: &[u8],
    abbrevs: &[u8],
    addr: &[u8],
) -> Result<FaultPlaces, NoMemory>
    ensures { IfOk result (λ p. record { version = p.version; form = p.form; high = p.high; bad = p.bad }
        ≡ unit_fault_places (sections info.now abbrevs.now addr.now)) }
{
    let address_tables = debug_units(alloc, DWARF_VERSION, addr)?;
    let reader = UnitReader::new(alloc, info, abbrevs, addr)?;
    let faults = noted(alloc, &reader)?;
    Ok(fault_places(faults, reader.units(), &address_tables))
}
