// The two kinds of sections of lists. DWARF 5, sections 2.6.2 and 2.17.3.

/// The lists of a section: ranges (`.debug_rnglists`), or expressions by range (`.debug_loclists`).
#[derive(Clone, Copy)]
pub enum ListKind {
    Ranges,
    Locations,
}
