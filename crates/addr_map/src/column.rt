// Ascending columns of numbers with fast searches.
ghost use Rattle.std.specs.Prelude.{◌≡◌, IfOk};
ghost use Rattle.std.specs.List.Sorted.{IsNonDecreasingBy};
ghost use Rattle.rb_lanes.specs.Ranks.{rank};
ghost use Rattle.addr_map.specs.internal.Columns.{IsAscending, IsFirsts, IsGroupCount, AreLevels};

use rb_bytes::fault::NoMemory;
use std::alloc::Global;
use std::marker::Model;

// The number of members that one member of the level above represents.
const GROUP: usize = 64;

/// Ascending numbers with levels above them: each level has the first of each 64 members of the one below it, and the
/// highest has at most 64 members.
#[derive(Drop)]
pub(crate) struct SortedColumn {
    members: Vec<u64>,
    levels: Vec<Vec<u64>>,
}

impl Model for SortedColumn {
    ghost use Rattle.std.specs.Prelude.{ℕ, List};
    ghost use Rattle.addr_map.specs.internal.Columns.{IsSearchable};

    ghost Value = { List ℕ };

    ghost view = { λ column. column.members.items };

    ghost invariant = { λ column. IsSearchable column.members.items column.levels.items };
}

impl SortedColumn {
    /// Builds the levels above ascending numbers.
    pub(crate) fn new(alloc: Global, members: Vec<u64>) -> Result<SortedColumn, NoMemory>
        requires { IsAscending members.items }
        ensures { IfOk result (λ column. column ≡ members.items) }
    {
        let levels = levels_over(alloc, &members)?;
        Ok(SortedColumn { members, levels })
    }

    /// The number of members that are at most `x`, which is the index of the first member above `x`.
    pub(crate) fn rank(&self, x: u64) -> usize
        ensures { result ≡ rank self.now x }
    {
        rank_below(&self.members, &self.levels, x)
    }

    /// All members, ascending.
    pub(crate) fn members(&self) -> &[u64]
        ensures { result.now ≡ self.now }
    {
        &self.members
    }
}

// The levels above a column, the lowest first.
fn levels_over(alloc: Global, column: &[u64]) -> Result<Vec<Vec<u64>>, NoMemory>
    ensures { IfOk result (λ levels. AreLevels column.now levels.items) }
{
    if column.len() <= GROUP {
        return Ok(Vec::new(alloc));
    }
    let firsts = firsts_of(alloc, column)?;
    let mut levels = levels_over(alloc, &firsts)?;
    levels.insert(0, firsts)?;
    Ok(levels)
}

// The first member of each group of `GROUP`; the last group may be shorter.
fn firsts_of(alloc: Global, column: &[u64]) -> Result<Vec<u64>, NoMemory>
    ensures { IfOk result (λ firsts. IsFirsts firsts.items column.now) }
{
    let mut firsts = Vec::with_capacity(alloc, column.len().div_ceil(GROUP))?;
    let mut at = 0;
    while at < column.len() {
        firsts.push(column[at])?;
        at += GROUP;
    }
    Ok(firsts)
}

// The number of members of `column` that are at most `x`, by a search in the levels above it. Each level has a 64th of
// the members of the one below it, so the recursion is shallow.
fn rank_below(column: &[u64], levels: &[Vec<u64>], x: u64) -> usize
    requires ascending { IsAscending column.now }
    requires levels { AreLevels column.now levels.now }
    ensures { result ≡ rank column.now x }
{
    match levels.split_first() {
        None => rank_among(column, x),
        Some((firsts, higher)) => rank_in_group(column, rank_below(firsts, higher, x), x),
    }
}

// The number of members that are at most `x`, if only the first `groups` groups start with such a member: all members
// of the groups before the last of these, and some of the last.
fn rank_in_group(column: &[u64], groups: usize, x: u64) -> usize
    requires ascending { IsAscending column.now }
    requires groups { IsGroupCount column.now x groups }
    ensures { result ≡ rank column.now x }
{
    if groups == 0 {
        return 0;
    }
    let start = GROUP * (groups - 1);
    let (_, rest) = column.split_at(start);
    let (group, _) = rest.split_at(GROUP.min(rest.len()));
    start + rank_among(group, x)
}

// The number of members of a short ascending list that are at most `x`.
fn rank_among(numbers: &[u64], x: u64) -> usize
    requires { IsNonDecreasingBy (λ n. n) numbers.now }
    ensures { result ≡ rank numbers.now x }
{
    numbers.partition_point(|n| *n <= x)
}
