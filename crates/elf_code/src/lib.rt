//! Definitions of the code of an ELF file: its parts and relocations, the roles of instructions, code cells and
//! functions, and the faults of these. There is no code in this crate.
#![tactic(auto)]
