// A list that was read, expression by expression.

/// The addresses from `low` up to `high`, which isn't included. Neither is cut to 64 bits: an offset may lead past the
/// last address.
#[derive(Clone, Copy)]
pub struct Bounds {
    pub low: u128,
    pub high: u128,
}

/// An expression, and the addresses at which it is in force.
#[derive(Clone, Copy)]
pub struct Place<'a> {
    /// These addresses. None means every address at which no other expression of the list is in force.
    pub bounds: Option<Bounds>,
    pub expression: &'a [u8],
}
