// The data from which the links of functions are found.

use edge_profile::Profile;
use rv_code::{Block, Func};

/// A program's code and the counts of its profile.
#[derive(Clone, Copy)]
pub struct Source<'a> {
    pub funcs: &'a [Func],
    pub blocks: &'a [Block],
    /// The edges between blocks, as indices in the list of blocks, in order of source and then of target.
    pub edges: &'a [(usize, usize)],
    /// The addresses at which control comes into functions from outside, ascending.
    pub entries: &'a [u64],
    pub profile: &'a Profile,
    /// The profile's pairs.
    pub pairs: &'a [(u64, u64, u128)],
    /// The pairs as `by_end` gives them: the end of each first, and sorted by it.
    pub ends: &'a [(u64, u64, u128)],
}
