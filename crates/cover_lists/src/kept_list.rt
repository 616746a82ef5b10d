// A location list as it is kept.
ghost use Rattle.std.specs.Prelude.{◌<◌, All, length};
ghost use Rattle.cover_lists.specs.declared.cover_tree.Cover as spec;

use crate::cover_tree::CoverTree;

/// A location list. The expressions in force at an address are found by the bounds of its items.
#[derive(Drop)]
pub struct KeptList {
    /// The bounds of its items, each with the item's number as its group.
    pub tree: CoverTree,
    /// The expression of each item, by its number, also of items without bounds.
    pub expressions: Vec<Vec<u8>>,
    /// The expressions that are in force if no bounds contain the address.
    pub defaults: Vec<Vec<u8>>,
    /// The number of items of this list and of those kept before it, together. Each 64 bytes of an expression count as
    /// one more.
    pub size: usize,
    ghost numbered: { All (λ (c : spec.Cover). c.group < length expressions.items) tree },
}
