// Ranges of addresses of units.
use answer_runs::Range;

/// A range of a table of `.debug_aranges`.
#[derive(Clone, Copy)]
pub struct UnitRange {
    pub range: Range,
    /// The offset of the table's unit in `.debug_info`.
    pub unit: u64,
}
