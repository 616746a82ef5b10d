// Data that one step of the layout passes to the next.

/// The blocks of each function, split into a hot and a cold part. A block is its index in the list of blocks, and the
/// outer lists have the order of the list of functions.
#[derive(Drop)]
pub struct Chains {
    /// The blocks of each function's hot part, in their new order.
    pub hot: Vec<Vec<usize>>,
    /// The blocks of each function's cold part, in their new order.
    pub cold: Vec<Vec<usize>>,
}

/// The new order of code.
#[derive(Drop)]
pub struct Plan {
    /// All blocks in their new order, each as its index in the list of blocks.
    pub order: Vec<usize>,
}

/// The encoding of a conditional branch.
#[derive(Clone, Copy)]
pub enum Size {
    /// The compressed two-byte branch.
    Half,
    /// The four-byte branch.
    Full,
    /// The inverted four-byte branch over a `JAL x0` that follows it.
    Long,
}

/// How a block ends in the new code.
#[derive(Clone, Copy)]
pub enum Form {
    /// As in the input, with nothing added.
    Plain,
    /// As in the input, followed by an added `JAL x0`.
    Jump,
    /// A conditional branch, with its condition inverted if `inverted`, and followed by a `JAL x0` if `jump`.
    Branch {
        inverted: bool,
        size: Size,
        jump: bool,
    },
    /// A jump that is kept, with two bytes if `half`, and otherwise four.
    Goto {
        half: bool,
    },
    /// A jump that is left out, since its target follows.
    Dropped,
}

/// The new code, and the new contents of the fields with code addresses.
#[derive(Drop)]
pub struct Emitted {
    /// The bytes of the new code.
    pub code: Vec<u8>,
    /// For each field its address, its width in bytes, and its content as a little-endian number.
    pub cells: Vec<(u64, u8, u64)>,
}
