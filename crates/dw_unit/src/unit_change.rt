// What the change of units depends on.
use crate::entry_moves::EntryMoves;
use crate::new_tables::NewTables;
use crate::own_declarations::OwnDeclarations;
use crate::tables::Tables;

/// What the change of units depends on.
#[derive(Clone, Copy)]
pub struct UnitChange<'c> {
    /// The old `.debug_info`.
    pub info: &'c [u8],
    /// The old tables of abbreviations.
    pub tables: &'c Tables<'c>,
    /// The new tables of abbreviations.
    pub new_tables: &'c NewTables,
    pub own: &'c OwnDeclarations,
    pub moves: &'c EntryMoves<'c>,
}
