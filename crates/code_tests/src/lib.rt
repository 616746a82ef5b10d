//! Tests of references, functions, blocks and edges on small executables, against values worked out by hand.
#![tactic(auto)]

#[cfg(test)]
mod analysis;
#[cfg(test)]
mod applied;
#[cfg(test)]
mod cells;
#[cfg(test)]
mod found;
#[cfg(test)]
mod functions;
#[cfg(test)]
mod layout;
#[cfg(test)]
mod refused;
#[cfg(test)]
mod starts;
#[cfg(test)]
mod types;
