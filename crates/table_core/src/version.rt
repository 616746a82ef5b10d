// The versions of tables that are read and written. DWARF 5, appendix G.

/// The version of units, of line number programs, and of tables of addresses, of ranges and of locations.
pub const DWARF_VERSION: u16 = 5;

/// The version of `.debug_aranges`.
pub const ARANGES_VERSION: u16 = 2;
