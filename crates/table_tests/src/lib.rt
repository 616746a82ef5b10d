//! Tests of debug tables of small executables, against values worked out by hand.
#![tactic(auto)]

#[cfg(test)]
mod units;
