// The tags of entries that are functions. DWARF 5, section 7.5.3.

pub const DW_TAG_inlined_subroutine: u64 = 0x1d;

pub const DW_TAG_subprogram: u64 = 0x2e;
