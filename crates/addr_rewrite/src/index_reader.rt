// An index of `.debug_aranges`, or its first fault.
ghost use Rattle.std.specs.Prelude.{◌≡◌, IfOk, OnOk, IfErr};
ghost use Rattle.rb_bytes.specs.FirstFault.{IsFree, IsRefusalBy};
ghost use Rattle.dw_unit.specs.Faults.{FaultPlaces as Places, HasDwarfFault};
ghost use Rattle.addr_rewrite.specs.ArangesReading.{AreKept};
ghost use Rattle.addr_rewrite.specs.Tables.{places_by};

use crate::table_list::read_tables;
use crate::unit_index::UnitIndex;
use dw_unit::address_table::other_version;
use dw_unit::fault_places::{FaultPlaces, refused};
use rb_bytes::fault::Refusal;
use std::alloc::Global;
use table_core::{ARANGES_VERSION, debug_units};

/// Reads `.debug_aranges`, or refuses it for its first fault. `units` has the faults of units, which come first.
pub fn read_index(alloc: Global, units: FaultPlaces, section: &[u8]) -> Result<UnitIndex, Refusal>
    ensures kept { IfOk result (AreKept section.now) }
    ensures free { OnOk result ((p : Places) →
        record { version = units.version; form = units.form; high = units.high; bad = units.bad } ≡ p →
        IsFree (HasDwarfFault (places_by p section.now))) }
    ensures fault { IfErr result (λ e. (p : Places) →
        record { version = units.version; form = units.form; high = units.high; bad = units.bad } ≡ p →
        IsRefusalBy (HasDwarfFault (places_by p section.now)) e) }
{
    let tables = debug_units(alloc, ARANGES_VERSION, section)?;
    let read = read_tables(alloc, &tables)?;
    let other = other_version(&tables);
    let version = units.version.or(other);
    let bad = units.bad.or(read.bad);
    let places = FaultPlaces {
        version,
        form: units.form,
        high: units.high,
        bad,
    };
    refused(places)?;
    let index = UnitIndex::new(alloc, &read.ranges)?;
    Ok(index)
}
