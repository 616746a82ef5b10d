//! Sessions with the top call: commands by their arguments, files that are refused, rewrites and their maps, and runs.
//! Texts, numbers and headers are worked out by hand.
#![tactic(auto)]

#[cfg(test)]
mod arguments;
#[cfg(test)]
mod failing;
#[cfg(test)]
mod framed;
#[cfg(test)]
mod limits;
#[cfg(test)]
mod looked_up;
#[cfg(test)]
mod malformed;
#[cfg(test)]
mod moved_tables;
#[cfg(test)]
mod reach;
#[cfg(test)]
mod refused;
#[cfg(test)]
mod repaired;
#[cfg(test)]
mod rewritten;
#[cfg(test)]
mod runs;
#[cfg(test)]
mod samples;
#[cfg(test)]
mod sessions;
#[cfg(test)]
mod smallest;
#[cfg(test)]
mod verified;
