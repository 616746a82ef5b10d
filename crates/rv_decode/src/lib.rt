//! Decodes instructions of RV64IMC.
#![tactic(auto)]

mod compressed;
mod field;
mod front;
mod full;
mod half;
mod integer;
mod memory;
mod quadrant1;
mod quadrant2;

pub use front::decode;
