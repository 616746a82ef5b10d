// The instruction of each opcode. DWARF 5, section 7.24.
pub(crate) mod extended;
pub(crate) mod frame;
pub(crate) mod location;
pub(crate) mod primary;
pub(crate) mod register;
