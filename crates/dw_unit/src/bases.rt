// The bases of a unit.

/// The bases of a unit's indexes: the values of DW_AT_addr_base, DW_AT_str_offsets_base, DW_AT_rnglists_base and
/// DW_AT_loclists_base of its own entry, if present. Each is an offset in its section. DWARF 5, section 3.1.1.
#[derive(Clone, Copy)]
pub struct Bases {
    pub addr: Option<u64>,
    pub str_offsets: Option<u64>,
    pub rnglists: Option<u64>,
    pub loclists: Option<u64>,
}
