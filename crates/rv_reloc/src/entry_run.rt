// Runs of consecutive relocation entries.
ghost use Rattle.std.specs.Prelude.{◌≤◌};
ghost use Rattle.rv_reloc.specs.AppliesTo.{end_of, last_start, first_end};

use crate::applies_to::AppliesTo;

/// Consecutive relocation entries that apply to the same sections. The entry with number k is at file offset `phase` +
/// 24 k, so that tables that share entries number them equally.
#[derive(Clone, Copy)]
pub struct EntryRun<'a> {
    pub applies_to: AppliesTo<'a>,
    /// Below 24, the size of a relocation.
    pub phase: usize,
    /// The number of the first relocation. `end` is the number of the last one plus one.
    pub first: usize,
    pub end: usize,
    ghost ordered: { first ≤ end },
    ghost starts: { (first_end applies_to).addr ≤ (last_start applies_to).addr },
    ghost ends: { end_of (first_end applies_to) ≤ end_of (last_start applies_to) },
}
