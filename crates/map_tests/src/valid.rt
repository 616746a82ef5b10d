// Maps from spans whose conditions are tested first, pair by pair.
ghost use Rattle.std.specs.Prelude.{◌≡◌, ◌<◌, AllPairs, false, length, true};
ghost use Rattle.map_tests.specs.SpanPairs.{AreSeparate, IsSeparateFromFormer};

use addr_map::{AddrMap, Span};
use std::alloc::Global;
use std::process::Abort;
use std::test::Fail;

// Whether two spans are of one instruction, or overlap.
fn collide(s: &Span, t: &Span) -> bool
    ensures { result ≡ false → AreSeparate s.now t.now }
{
    let is_empty = s.len == 0 || t.len == 0;
    let first_ends = s.out <= t.out && t.out - s.out >= s.len as u64;
    let second_ends = t.out <= s.out && s.out - t.out >= t.len as u64;
    s.input == t.input || !is_empty && !first_ends && !second_ends
}

// Whether a span collides with one before it.
fn collides(spans: &[Span], j: usize) -> bool
    requires { j < length spans.now }
    ensures { result ≡ false → IsSeparateFromFormer spans.now j }
{
    for i in 0..j {
        if collide(&spans[i], &spans[j]) {
            return true;
        }
    }
    false
}

// Whether the spans are of distinct instructions and don't overlap.
fn are_of_a_map(spans: &[Span]) -> bool
    ensures { result ≡ true → AllPairs AreSeparate spans.now }
{
    for j in 0..spans.len() {
        if collides(spans, j) {
            return false;
        }
    }
    true
}

/// The map of these spans, if they are valid.
pub(crate) fn map_of(rt: &impl Abort, alloc: Global, spans: &[Span]) -> Result<AddrMap, Fail> {
    assert!(rt; are_of_a_map(spans));
    Ok(AddrMap::new(alloc, Vec::from_slice(alloc, spans)?)?)
}
