// The numbered calls of an in-memory object, some of which are to fail.
ghost use Rattle.std.specs.Prelude.{◌≡◌, ◌≤◌, IsTrue};
ghost use Rattle.rb_io.specs.Calls.{no_calls, fails_next, after_call};
ghost use Rattle.rb_io.specs.FaultCounts.{Rose};

/// Counts the calls, numbered from 1, and the faults. Both counts saturate at `u64::MAX`.
#[derive(Drop)]
pub(crate) struct Calls {
    fail: Vec<u64>,
    made: u64,
    faults: u64,
}

impl Calls {
    /// No call yet. `fail` has the numbers of the calls that are to fail.
    pub(crate) fn new(fail: Vec<u64>) -> Calls
        ensures { result ≡ no_calls fail }
    {
        Calls {
            fail,
            made: 0,
            faults: 0,
        }
    }

    /// Whether the next call is to fail.
    pub(crate) fn fails_next(&self) -> bool
        ensures { result ≡ fails_next self.now }
    {
        self.fail.contains(&self.made.saturating_add(1))
    }

    /// Counts one call, and one fault if the call failed.
    pub(crate) fn count(&mut self, failed: bool)
        ensures after { self.new ≡ after_call self.old failed }
        ensures never_falls { self.old.faults ≤ self.new.faults }
        ensures rose { IsTrue failed → Rose self.old.faults self.new.faults }
    {
        self.made = self.made.saturating_add(1);
        if failed {
            self.faults = self.faults.saturating_add(1);
        }
    }

    /// The number of faults so far.
    pub(crate) fn faults(&self) -> u64
        ensures { result ≡ self.now.faults }
    {
        self.faults
    }
}
