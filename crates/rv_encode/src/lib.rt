//! Encodes instructions of RV64IMC.
#![tactic(auto)]

mod arithmetic;
mod constant;
mod format;
mod front;
mod full;
mod half;
mod integer;
mod jump;
mod layout;
mod memory;
mod operand;
pub mod same;
mod word;

pub use front::encode;
pub use word::Word;
