// Stretches of new code of units.
ghost use Rattle.std.specs.Prelude.{◌≡◌, ◌<◌, ◌^◌, All, IfOk, map};
ghost use Rattle.std.specs.List.Sorted.{IsNonDecreasingBy, IsPermutation};
ghost use Rattle.addr_rewrite.specs.WrittenAranges.{stretch_of};

use answer_runs::Run;
use rb_bytes::fault::NoMemory;
use std::alloc::Global;

/// A stretch of new code of one unit.
#[derive(Clone, Copy)]
pub struct Stretch {
    /// The offset of the unit in `.debug_info`.
    pub unit: u32,
    /// The address of the first byte.
    pub start: u64,
    /// The number of its bytes.
    pub len: u64,
}

fn stretches_of(alloc: Global, runs: &[Run<u64>]) -> Result<Vec<Stretch>, NoMemory>
    requires { All (λ r. r.answer < 2 ^ 32) runs.now }
    ensures { IfOk result (λ ss. ss.items ≡ map stretch_of runs.now) }
{
    let mut stretches = Vec::new(alloc);
    for run in runs {
        stretches.push(Stretch {
            unit: run.answer as u32,
            start: run.start,
            len: run.len,
        })?;
    }
    Ok(stretches)
}

/// The stretches of runs, sorted by their units. The stretches of one unit stay in the order of the runs.
pub fn sorted(alloc: Global, runs: &[Run<u64>]) -> Result<Vec<Stretch>, NoMemory>
    requires { All (λ r. r.answer < 2 ^ 32) runs.now }
    ensures same { IfOk result (λ ss. IsPermutation (map stretch_of runs.now) ss.items) }
    ensures rises { IfOk result (λ ss. IsNonDecreasingBy (λ s. s.unit) ss.items) }
{
    let mut stretches = stretches_of(alloc, runs)?;
    stretches.sort_by_key(|s| s.unit)?;
    Ok(stretches)
}
