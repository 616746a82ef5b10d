// The kinds of frames of a table, in order. They are sorted and not hashed, since a file chooses them, and could choose
// their hashes.
ghost use Rattle.std.specs.Prelude.{◌≡◌, ◌<◌, ◌≤◌, List, IfOk, All, Contains, length, slice_get};
ghost use Rattle.std.specs.List.{IsDistinct, position_or_len};
ghost use Rattle.frame_rewrite.specs.SpelledFrames as spec;
ghost use Rattle.frame_rewrite.specs.SpelledFits.{KeyFits, RunReturns};

use crate::answer::FrameAt;
use crate::cie_key::{CieKey, key_of};
use addr_map::AddrMap;
use answer_runs::Run;
use rb_bytes::fault::NoMemory;
use std::alloc::Global;
use std::collections::BTreeSet;

// The kinds of frames that runs need, each once.
fn kinds_of(
    alloc: Global,
    map: &AddrMap,
    runs: &[Run<FrameAt>],
) -> Result<BTreeSet<CieKey>, NoMemory>
    requires { All RunReturns runs.now }
    ensures fits { IfOk result (λ kinds. All KeyFits kinds.keys) }
    ensures needed { IfOk result (λ kinds. (among : List CieKey) →
        All (λ r. Contains among (spec.key_of map.now r.answer)) runs.now → All (Contains among) kinds.keys) }
{
    let mut kinds = BTreeSet::new(alloc);
    for run in runs {
        kinds.insert(key_of(map, &run.answer))?;
    }
    Ok(kinds)
}

/// The kinds of frames that runs need, each once.
pub(crate) fn keys_of(
    alloc: Global,
    map: &AddrMap,
    runs: &[Run<FrameAt>],
) -> Result<Vec<CieKey>, NoMemory>
    requires { All RunReturns runs.now }
    ensures fits { IfOk result (λ keys. All KeyFits keys.items) }
    ensures distinct { IfOk result (λ keys. IsDistinct spec.is_key keys.items) }
    ensures needed { IfOk result (λ keys. (among : List CieKey) →
        All (λ r. Contains among (spec.key_of map.now r.answer)) runs.now → All (Contains among) keys.items) }
{
    let kinds = kinds_of(alloc, map, runs)?;
    Ok(kinds.iter().copied().collect(alloc)?)
}

/// The index of a kind of frame, which is there; that isn't proved, so `NoMemory` is answered if it isn't.
pub(crate) fn index_of(keys: &[CieKey], key: &CieKey) -> Result<usize, NoMemory>
    requires { IsDistinct spec.is_key keys.now }
    ensures index { IfOk result (λ i. i ≡ position_or_len (spec.is_key key.now) keys.now) }
    ensures found { IfOk result (λ i. slice_get keys.now i ≡ Some key.now) }
    ensures within { IfOk result (λ i. i < length keys.now) }
{
    match keys.binary_search(key) {
        Ok(index) => Ok(index),
        Err(_) => Err(NoMemory),
    }
}
