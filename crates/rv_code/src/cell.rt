// Data fields that contain code addresses.

/// The content of a data field. All addresses are addresses of the input.
#[derive(Clone, Copy, PartialEq, Eq)]
pub enum CellKind {
    /// The address `to`.
    Abs { to: u64 },
    /// The distance `to` - `from`, modulo 2 to the field's width in bits.
    Diff { to: u64, from: u64 },
}

/// A data field that contains a code address or a distance between two addresses of labels.
#[derive(Clone, Copy)]
pub struct CodeCell {
    /// The address of the first byte.
    pub addr: u64,
    /// The width in bytes, 4 or 8.
    pub width: u8,
    pub kind: CellKind,
}
