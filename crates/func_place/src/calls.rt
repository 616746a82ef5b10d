// Counts from unit to unit.

/// How often control went from one unit to another, or within one. A unit's number is the index of its lowest function.
#[derive(Clone, Copy)]
pub struct UnitCall {
    pub from: usize,
    pub to: usize,
    pub count: u128,
}
