// New names of attributes.

/// What the new names of a declaration's attributes depend on.
#[derive(Clone, Copy)]
pub struct Naming {
    /// Whether its DW_AT_low_pc keeps its name.
    pub keeps_low: bool,
    /// Whether it names DW_AT_high_pc.
    pub has_high: bool,
    /// Whether it names DW_AT_entry_pc.
    pub has_entry: bool,
}
