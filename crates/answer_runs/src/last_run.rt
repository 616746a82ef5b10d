// The last of some runs.
ghost use Rattle.std.specs.Prelude.{◌≡◌, ◌+◌, ◌<◌, ◌^◌};
ghost use Rattle.answer_runs.specs.AnswerRuns.{IsWithin};
ghost use Rattle.answer_runs.specs.LastRuns as last;

use crate::run::Run;

/// Whether there is a last run, and it ends at an address.
pub fn ends_at<A>(runs: &[Run<A>], end: u64) -> bool
    requires { IsWithin 0 runs.now end }
    ensures { result ≡ last.ends_at end runs.now }
{
    match runs.last() {
        Some(last) => last.start + last.len == end,
        None => false,
    }
}

/// Makes the last run longer by `len` bytes. Does nothing if there are no runs.
pub fn lengthen<A>(runs: &mut Vec<Run<A>>, len: u64)
    requires { last.IfLast (λ r. r.len + len < 2 ^ 64) runs.old.items }
    ensures { runs.new.items ≡ last.lengthened len runs.old.items }
{
    if let Some(last) = runs.last_mut() {
        last.len += len;
    }
}
