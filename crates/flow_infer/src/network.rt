// The input of a search for ways of flow.
use crate::arcs::Arc;
use crate::flow::Link;

/// The links of a function, with the current state of its nodes.
#[derive(Clone, Copy)]
pub struct Network<'a> {
    pub links: &'a [Link],
    /// The height of each node. The heights are prices that hold.
    pub heights: &'a [u64],
    /// The block that is node 1.
    pub first: usize,
    /// The arcs around each node.
    pub around: &'a [Vec<Arc>],
    /// The spare flow of each node.
    pub spare: &'a [u128],
    /// The flow that each node needs.
    pub need: &'a [u128],
}
