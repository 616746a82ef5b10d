// Entries that are changed in place.

/// What the change of an entry's attributes depends on.
#[derive(Clone, Copy)]
pub struct ChangedEntry {
    /// Its offset in `.debug_info`.
    pub place: u64,
    /// Whether some unit's own entry has the same declaration.
    pub is_own: bool,
    /// Whether it is its unit's own entry.
    pub is_first: bool,
    /// Whether its declaration names DW_AT_high_pc.
    pub has_high: bool,
}
