// A table that begins within one that was read.

use crate::indexed_table::IndexedTable;

/// The declarations of a table from an index on: the table that begins there.
#[derive(Clone, Copy)]
pub struct TableAt<'t> {
    pub table: &'t IndexedTable,
    pub index: usize,
}
