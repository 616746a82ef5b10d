// Tables of `.debug_aranges`, written from runs. DWARF 5, section 6.1.2.
ghost use Rattle.std.specs.Prelude.{◌≡◌, ◌<◌, ◌≤◌, ◌-◌, ◌*◌, ◌^◌, ◌++◌, List, All, OnOk, length, map, min};
ghost use Rattle.std.specs.List.Sorted.{IsNonDecreasingBy, IsPermutation};
ghost use Rattle.answer_runs.specs.Weights.{run_weight, weight_limit};
ghost use Rattle.addr_rewrite.specs.WrittenAranges as spec;
ghost use Rattle.addr_rewrite.specs.declared.stretch.Stretch.{Stretch};

use crate::put_tables::put_tables;
use crate::stretch::sorted;
use answer_runs::{RUN_WEIGHT, Run};
use rb_bytes::fault::NoMemory;
use std::alloc::Global;

/// The weight of runs, saturated at 2^64 - 1.
pub fn weight_of(runs: &[Run<u64>]) -> u64
    ensures { result ≡ min (run_weight * length runs.now) (2 ^ 64 - 1) }
{
    (runs.len() as u64).saturating_mul(RUN_WEIGHT)
}

/// Appends a table for each unit that is an answer of runs, with a pair for each of its runs.
pub fn put_runs(alloc: Global, out: &mut Vec<u8>, runs: &[Run<u64>]) -> Result<(), NoMemory>
    requires units { All (λ r. r.answer < 2 ^ 32) runs.now }
    requires few { run_weight * length runs.now ≤ weight_limit }
    ensures { OnOk result ((ss : List Stretch) × IsPermutation (map spec.stretch_of runs.now) ss
        × IsNonDecreasingBy (λ s. s.unit) ss × (out.new.items ≡ out.old.items
        ++ spec.spelled_tables (spec.tables_of (length ss) ss))) }
{
    let stretches = sorted(alloc, runs)?;
    put_tables(out, &stretches)?;
    Ok(())
}
