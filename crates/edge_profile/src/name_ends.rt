// Looking up names by their suffixes: many names can be suffixes of one text, which is then read once for all of them.
ghost use Rattle.std.specs.Prelude.{◌≡◌, ◌+◌, ◌^◌, ◌<◌, ◌≤◌, ◌∷◌, [], ℕ, List, length, slice_index_or};
ghost use Rattle.std.specs.List.Sorted.{IsNonDecreasingBy};
ghost use Rattle.edge_profile.specs.NameEnds.{BackwardName, AreInOrder, IsEnding, index_of, code_at, text_before};

use rb_bytes::fault::NoMemory;
use std::alloc::Global;

/// Names, each written backwards, in lexicographic order, so that names with the same suffix are next to each other.
#[derive(Drop)]
pub struct NameEnds {
    backward: Vec<Vec<u8>>,
    ghost ordered: { AreInOrder backward.items },
}

/// The names with some suffix: their range among all names, and the suffix's length in bytes.
#[derive(Clone, Copy)]
pub struct Ending {
    start: usize,
    end: usize,
    depth: usize,
}

impl NameEnds {
    ghost use Rattle.std.specs.Prelude.{◌≡◌, ◌+◌, ◌^◌, ◌<◌, ◌≤◌, ◌∷◌, [], ℕ, List, length};
    ghost use Rattle.edge_profile.specs.NameEnds.{IsEnding, index_of, text_before};

    /// Sorts `names`.
    pub fn new(alloc: Global, names: &[&[u8]]) -> Result<NameEnds, NoMemory> {
        let mut backward = Vec::with_capacity(alloc, names.len())?;
        for name in names {
            backward.push(reversed(alloc, name)?)?;
        }
        backward.sort()?;
        Ok(NameEnds { backward })
    }

    /// The number of names.
    pub fn count(&self) -> usize
        ensures { result ≡ length self.now.backward.items }
    {
        self.backward.len()
    }

    /// All names.
    pub fn all(&self) -> Ending
        ensures { IsEnding self.now.backward.items [] result }
    {
        Ending {
            start: 0,
            end: self.backward.len(),
            depth: 0,
        }
    }

    // The names whose suffix is `byte` followed by the suffix of `ending`.
    fn narrowed(&self, ending: Ending, byte: u8) -> Ending
        requires ordered { ending.start ≤ ending.end }
        requires within { ending.end ≤ length self.now.backward.items }
        requires short { ending.depth + 1 < 2 ^ 64 }
        ensures { (end : List ℕ) → IsEnding self.now.backward.items end ending →
            IsEnding self.now.backward.items (byte ∷ end) result }
    {
        let names = &self.backward[ending.start..ending.end];
        let below = count_up_to(names, ending.depth, byte as usize);
        let through = count_up_to(names, ending.depth, byte as usize + 1);
        Ending {
            start: ending.start + below,
            end: ending.start + through,
            depth: ending.depth + 1,
        }
    }

    /// The names whose suffix is `byte` followed by the suffix of `ending`. A zero byte ends the text before it, so the
    /// suffix is then empty, and all names have it.
    pub fn before(&self, ending: Ending, byte: u8) -> Ending
        requires ordered { ending.start ≤ ending.end }
        requires within { ending.end ≤ length self.now.backward.items }
        requires short { ending.depth + 1 < 2 ^ 64 }
        ensures { (end : List ℕ) → IsEnding self.now.backward.items end ending →
            IsEnding self.now.backward.items (text_before byte end) result }
    {
        if byte == 0 {
            self.all()
        } else {
            self.narrowed(ending, byte)
        }
    }

    /// The index of the first name that equals the suffix of `ending`.
    pub fn named(&self, ending: Ending) -> Option<usize>
        requires within { ending.end ≤ length self.now.backward.items }
        ensures { (end : List ℕ) → IsEnding self.now.backward.items end ending →
            result ≡ index_of self.now.backward.items end }
    {
        if ending.start >= ending.end {
            return None;
        }
        let name = self.backward[ending.start].as_slice();
        if name.len() == ending.depth {
            Some(ending.start)
        } else {
            None
        }
    }

    /// The index of `name`, or `None` if it isn't among the names.
    pub fn index_of(&self, name: &[u8]) -> Option<usize>
        ensures { result ≡ index_of self.now.backward.items name.now }
    {
        let mut ending = self.all();
        for index in 0..name.len() {
            ending = self.narrowed(ending, name[name.len() - 1 - index]);
        }
        self.named(ending)
    }
}

// The bytes of a name in reverse order.
fn reversed(alloc: Global, name: &[u8]) -> Result<Vec<u8>, NoMemory> {
    let mut bytes = Vec::from_slice(alloc, name)?;
    bytes.reverse();
    Ok(bytes)
}

// The number of `names` whose code at `index` is at most `code`, if these codes ascend.
fn count_up_to(names: &[Vec<u8>], index: usize, code: usize) -> usize
    ensures bound { result ≤ length names.now }
    ensures up_to { IsNonDecreasingBy (λ n. code_at index n.items) names.now →
        (k : ℕ) (d : BackwardName) → k < result → code_at index (slice_index_or names.now k d).items ≤ code }
    ensures above { IsNonDecreasingBy (λ n. code_at index n.items) names.now →
        (k : ℕ) (d : BackwardName) → result ≤ k → k < length names.now →
        code < code_at index (slice_index_or names.now k d).items }
{
    names.partition_point(|name| code_at(name, index) <= code)
}

// The byte of `name` at `index` plus 1; 0 past its end, so that a name comes before longer names with the same
// beginning.
fn code_at(name: &[u8], index: usize) -> usize
    ensures { result ≡ code_at index name.now }
{
    match name.get(index) {
        Some(byte) => *byte as usize + 1,
        None => 0,
    }
}
