// Links between blocks with their counts and flows. A flow is the count that a repaired profile has.

/// A link from a block to a block of the same function; `None` is the outside of the function. Blocks are given by
/// their indices in the list of blocks.
#[derive(Clone, Copy)]
pub struct Link {
    pub from: Option<usize>,
    pub to: Option<usize>,
    /// The link's count by the profile.
    pub count: u128,
    /// The link's count by the repaired profile.
    pub flow: u128,
}

/// All links, function by function, and a price for each block. The outside has the price 0.
#[derive(Drop)]
pub struct Flow {
    pub links: Vec<Link>,
    pub prices: Vec<i64>,
}
