//! Tests of the map and of the searches that it uses, against values worked out by hand.
#![tactic(auto)]

#[cfg(test)]
mod lanes;
#[cfg(test)]
mod maps;
#[cfg(test)]
mod valid;
