// Which fault of units is reported.
ghost use Rattle.std.specs.Prelude.{OnOk, IfErr};
ghost use Rattle.rb_bytes.specs.FirstFault.{IsFree, IsAnswered};
ghost use Rattle.dw_unit.specs.Faults.{HasDwarfFault};

use rb_bytes::fault::{Fault, FaultKind};

/// The place to report for each of four faults, if present: units or tables of another version, unknown forms, high
/// addresses that can't be changed in place, and any other violation of the format.
#[derive(Clone, Copy)]
pub struct FaultPlaces {
    pub version: Option<u64>,
    pub form: Option<u64>,
    pub high: Option<u64>,
    pub bad: Option<u64>,
}

/// Refuses with the first fault that is present, in the order of the fields.
pub fn refused(places: FaultPlaces) -> Result<(), Fault>
    ensures free { OnOk result (IsFree (HasDwarfFault (record
        { version = places.version; form = places.form; high = places.high; bad = places.bad }))) }
    ensures fault { IfErr result (IsAnswered (HasDwarfFault
        (record { version = places.version; form = places.form; high = places.high; bad = places.bad }))) }
{
    if let Some(place) = places.version {
        return Err(Fault::at(FaultKind::DwarfVersion, place));
    }
    if let Some(place) = places.form {
        return Err(Fault::at(FaultKind::DwarfForm, place));
    }
    if let Some(place) = places.high {
        return Err(Fault::at(FaultKind::HighPcForm, place));
    }
    if let Some(place) = places.bad {
        return Err(Fault::at(FaultKind::DwarfFault, place));
    }
    Ok(())
}
