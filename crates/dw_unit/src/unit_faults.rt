// The faults of units, and the places to report for all faults of debug data.
ghost use Rattle.std.specs.Prelude.{◌≡◌};
ghost use Rattle.table_core.specs.DebugUnits.{walked};
ghost use Rattle.dw_unit.specs.CompUnits.{Sections};
ghost use Rattle.dw_unit.specs.Faults.{unit_fault_places};
ghost use Rattle.dw_unit.specs.UnitFaults.{AreNoted};

use crate::address_table::{bad_table, other_version};
use crate::fault_places::FaultPlaces;
use crate::lowest::lower;
use table_core::DebugUnit;

/// The place to report for each fault of some units, other versions excepted.
#[derive(Clone, Copy)]
pub struct UnitFaults {
    /// The lowest offset of a declaration with an unknown form.
    pub bad_form: Option<u64>,
    /// The lowest offset of a declaration with a high address that can't be changed in place.
    pub bad_high: Option<u64>,
    /// The lowest offset of a declaration with a value of an unknown form.
    pub unformed: Option<u64>,
    /// The offset of the first unit that can't be read.
    pub bad: Option<u64>,
}

/// The place to report for each fault, with those of versions and of address tables. Units come before tables.
pub fn fault_places(
    faults: UnitFaults,
    units: &[DebugUnit<'_>],
    address_tables: &[DebugUnit<'_>],
) -> FaultPlaces
    ensures { (s : Sections) → units.now ≡ walked 5 s.info → address_tables.now ≡ walked 5 s.addr →
        AreNoted s.abbrevs s.addr units.now faults →
        record { version = result.version; form = result.form; high = result.high; bad = result.bad } ≡
        unit_fault_places s }
{
    let unit = other_version(units);
    let table = other_version(address_tables);
    let version = unit.or(table);
    let form = lower(faults.bad_form, faults.unformed);
    let broken = bad_table(address_tables);
    let bad = faults.bad.or(broken);
    FaultPlaces {
        version,
        form,
        high: faults.bad_high,
        bad,
    }
}
