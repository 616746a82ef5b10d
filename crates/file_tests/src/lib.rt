//! Files of the shapes that linkers and binary tools make: each is rewritten, and none gives out of memory.
#![tactic(auto)]

#[cfg(test)]
mod code;
#[cfg(test)]
mod copied;
#[cfg(test)]
mod extras;
#[cfg(test)]
mod places;
#[cfg(test)]
mod rewriting;
#[cfg(test)]
mod shape;
#[cfg(test)]
mod shapes;
