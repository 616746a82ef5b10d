// Where a table begins within the tables that were read.

/// The start of a table: a declaration in a table that was read. The table goes on to the end of that table.
#[derive(Clone, Copy)]
pub struct Start {
    /// The index of the table that was read.
    pub number: usize,
    /// The index of the declaration in the table.
    pub index: usize,
    /// The lowest offset of a declaration with an unknown form, from here on.
    pub form: Option<u64>,
    /// The lowest offset of a declaration with a bad high address, from here on.
    pub high: Option<u64>,
}
