//! Tests of the libraries against values from outside: tables and worked examples of the standards.
#![tactic(auto)]

#[cfg(test)]
mod bytes;
#[cfg(test)]
mod decode;
#[cfg(test)]
mod elf;
#[cfg(test)]
mod elf_symbols;
#[cfg(test)]
mod encode;
#[cfg(test)]
mod instruction_table;
#[cfg(test)]
mod io;
#[cfg(test)]
mod machine;
#[cfg(test)]
mod value;
