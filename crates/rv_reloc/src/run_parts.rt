// Parts of runs of relocations, and common parts of two runs.
ghost use Rattle.std.specs.Prelude.{◌≡◌, ◌≤◌, ◌<◌, IsTrue};
ghost use Rattle.rv_reloc.specs.EntryRuns.{IsPart, IsCommon};

use crate::entry_run::EntryRun;

impl<'a> EntryRun<'a> {
    /// Whether this run starts before another one or at the same entry, by phase and number.
    pub fn comes_first(&self, other: &EntryRun) -> bool {
        self.phase < other.phase || (self.phase == other.phase && self.first <= other.first)
    }

    /// Whether another run starts inside this run.
    pub fn has_start_of(&self, other: &EntryRun) -> bool
        ensures phase { IsTrue result → self.now.phase ≡ other.now.phase }
        ensures from { IsTrue result → self.now.first ≤ other.now.first }
        ensures to { IsTrue result → other.now.first < self.now.end }
    {
        self.phase == other.phase && self.first <= other.first && other.first < self.end
    }

    /// The relocations from number `first` to before `end`.
    pub fn part(&self, first: usize, end: usize) -> EntryRun<'a>
        requires { first ≤ end }
        ensures { IsPart self.now first end result }
    {
        EntryRun {
            applies_to: self.applies_to,
            phase: self.phase,
            first,
            end,
        }
    }

    /// The relocations from number `first` to before `end`, for the sections of both runs.
    pub fn common(&self, other: &EntryRun<'a>, first: usize, end: usize) -> EntryRun<'a>
        requires { first ≤ end }
        ensures { IsCommon self.now other.now first end result }
    {
        EntryRun {
            applies_to: self.applies_to.joined(&other.applies_to),
            phase: self.phase,
            first,
            end,
        }
    }
}
