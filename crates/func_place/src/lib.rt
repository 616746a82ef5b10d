//! The order of functions in the new code: functions that call each other are near each other, and hot code is apart
//! from cold code.
#![tactic(auto)]

mod bands;
mod callers;
mod calls;
mod clusters;
mod faults;
mod groups;
mod placing;
mod ranks;
mod sizes;
mod sums;
mod ties;
mod unit_calls;
mod unit_order;
mod units;

pub use placing::{check_units, place, place_by};
