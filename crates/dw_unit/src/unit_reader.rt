// Units read one at a time.
ghost use Rattle.std.specs.Prelude.{◌≡◌, ◌<◌, IfOk, Some, length, slice_get};
ghost use Rattle.table_core.specs.DebugUnits.{Walked, walked};
ghost use Rattle.dw_unit.specs.UnitReadings.{IsReading};

use crate::offsets::abbrev_offsets;
use crate::read_unit::read_unit;
use crate::tables::{Tables, read_tables};
use crate::unit_reading::UnitReading;
use rb_bytes::fault::NoMemory;
use std::alloc::Global;
use std::marker::Model;
use table_core::{DWARF_VERSION, DebugUnit, debug_units};

/// Reads units one at a time. All tables of abbreviations are read at the start, so that each declaration is read once.
#[derive(Drop)]
pub struct UnitReader<'a, 's> {
    units: Vec<DebugUnit<'a>>,
    tables: Tables<'s>,
    addr: &'s [u8],
}

impl<'a, 's> Model for UnitReader<'a, 's> {
    ghost use Rattle.dw_unit.specs.ReaderSections.{ReaderSections, AreReadable};

    ghost Value = { ReaderSections };

    ghost view = { λ r. record { units = r.units.items; abbrevs = r.tables.section.now; addr = r.addr.now } };

    ghost invariant = { λ r. AreReadable r.tables.starts r.units.items };
}

impl<'a, 's> UnitReader<'a, 's> {
    /// The reader of the units of `.debug_info`.
    pub fn new(
        alloc: Global,
        info: &'a [u8],
        abbrevs: &'s [u8],
        addr: &'s [u8],
    ) -> Result<UnitReader<'a, 's>, NoMemory>
        ensures { IfOk result (λ r. r ≡ record { units = walked 5 info.now; abbrevs = abbrevs.now; addr = addr.now }) }
    {
        let units = debug_units(alloc, DWARF_VERSION, info)?;
        let offsets = abbrev_offsets(alloc, &units)?;
        let tables = read_tables(alloc, abbrevs, &offsets)?;
        Ok(UnitReader {
            units,
            tables,
            addr,
        })
    }

    /// The units, in order.
    pub fn units(&self) -> &[DebugUnit<'a>]
        ensures { result.now ≡ self.now.units }
    {
        &self.units
    }

    /// The entries and the faults of unit `number`, counted from 0.
    pub fn read(&self, alloc: Global, number: usize) -> Result<UnitReading, NoMemory>
        requires { number < length self.now.units }
        ensures { (w : Walked) → slice_get self.now.units number ≡ Some w →
            IfOk result (IsReading self.now.abbrevs self.now.addr w) }
    {
        read_unit(alloc, &self.tables, self.addr, &self.units[number])
    }
}
