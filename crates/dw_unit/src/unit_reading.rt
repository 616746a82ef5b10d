// The results of reading units.

use crate::entry::Entry;

/// A unit's entries, and the places of faults of its declarations and of its values' forms.
#[derive(Drop)]
pub struct UnitReading {
    /// The lowest offset of a declaration of its table with an unknown form.
    pub bad_form: Option<u64>,
    /// The lowest offset of a declaration of its table with a high address that can't be changed in place.
    pub bad_high: Option<u64>,
    /// The offset of the declaration of a value with an unknown form.
    pub unformed: Option<u64>,
    /// Its entries, if all of the unit can be read.
    pub entries: Option<Vec<Entry>>,
}

/// The entries of several units, and the lowest place of each fault of their declarations and of their values' forms.
#[derive(Drop)]
pub struct Readings {
    pub bad_form: Option<u64>,
    pub bad_high: Option<u64>,
    pub unformed: Option<u64>,
    /// The offset of the first unit that can't be read.
    pub bad: Option<u64>,
    /// The entries of all units, if all can be read.
    pub entries: Vec<Entry>,
}
