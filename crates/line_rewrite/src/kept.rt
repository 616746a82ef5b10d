// Kept sequences: in place of their rows, some states of the walk over these.

use crate::registers::Registers;

/// The number of rows after which a state is kept again.
pub const MAX_ROWS: usize = 16;

/// The number of bytes of a program after which a state is kept again, at the next row.
pub const MAX_BYTES: usize = 128;

/// The state of a walk before a row.
#[derive(Clone, Copy)]
pub struct Kept {
    /// The offset in the program of the operations for this row.
    pub place: usize,
    /// The index of the row, from 0.
    pub index: usize,
    pub registers: Registers,
    /// The address of the row.
    pub address: u64,
}

/// The next state is kept from this row on, or from this offset in the program on, whichever comes first.
#[derive(Clone, Copy)]
pub struct Due {
    pub row: usize,
    pub place: usize,
}

/// A sequence of a program.
#[derive(Drop)]
pub struct KeptSequence {
    /// The offset in the program of its start.
    pub place: usize,
    /// The address of its first row; its end, if it has none.
    pub low: u64,
    /// The address of its end.
    pub end: u64,
    /// The number of its rows.
    pub rows: usize,
    /// The states before its first row, and before each row that is `MAX_ROWS` or `MAX_BYTES` after the last state and
    /// above all rows before it.
    pub kept: Vec<Kept>,
}
