// Location attributes.

use cover_lists::kept_list::KeptList;

/// The source of an attribute's expressions.
#[derive(Drop)]
pub enum Source {
    /// An expression that is in force everywhere.
    Direct(Vec<u8>),
    /// The expressions of a list, by its number among those that are kept.
    Listed(usize),
}

/// A location attribute, of an entry that has ranges or an ancestor with ranges.
#[derive(Drop)]
pub struct LocatedAttr {
    /// The entry's offset in `.debug_info`.
    pub place: u64,
    /// DW_AT_location or DW_AT_frame_base.
    pub attr: u64,
    /// The group of the nearest ranges: the entry's own, or those of the innermost ancestor that has some.
    pub group: usize,
    pub source: Source,
}

/// The location attributes of some units, and the lists to which they refer.
#[derive(Drop)]
pub struct Locations {
    /// The lists by their numbers from 0, each once for each unit that refers to it.
    pub lists: Vec<KeptList>,
    /// The attributes in the order of their entries, DW_AT_location before DW_AT_frame_base.
    pub located: Vec<LocatedAttr>,
}
