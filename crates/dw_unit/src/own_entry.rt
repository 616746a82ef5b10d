// The own entries of units.

/// A unit's own entry, which is its first, such as a DW_TAG_compile_unit.
#[derive(Clone, Copy)]
pub struct OwnEntry {
    /// Its offset in `.debug_info`.
    pub place: u64,
    /// The offset of its declaration in `.debug_abbrev`.
    pub declaration: u64,
}
