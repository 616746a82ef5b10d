// Attributes that refer to lists.

/// An attribute of an entry that refers to a list.
#[derive(Clone, Copy)]
pub struct NamedList {
    /// The entry's offset in `.debug_info`.
    pub place: u64,
    pub attr: u64,
    /// The offset of the own entry of its unit.
    pub own: u64,
    /// The index by which the attribute refers to the list, if it does so by an index and not by an offset.
    pub index: Option<u64>,
    /// The number of the list among those that were read.
    pub list: usize,
}
