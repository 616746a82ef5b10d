// Stretches of spans: neighbours in a list whose instructions are neighbours in the old code too.
ghost use Rattle.std.specs.Prelude.{◌≡◌, ◌<◌, ◌≤◌, IfOk, OnOk, flat_map, length};
ghost use Rattle.std.specs.List.Sorted.{IsPermutation};
ghost use Rattle.addr_map.specs.internal.Stretches.{spans_in};

use crate::span::Span;
use rb_bytes::fault::NoMemory;
use std::alloc::Global;

// The most bytes of an instruction.
const MOST_BYTES: u64 = 4;

/// Spans of instructions that follow one another, as in a block.
#[derive(Clone, Copy)]
pub(crate) struct Stretch<'a> {
    /// The old address of the first one.
    pub(crate) start: u64,
    pub(crate) spans: &'a [Span],
}

/// The spans in another order: whole stretches, sorted by their first old addresses. If no instruction is inside
/// another one, that is the order of old addresses.
pub(crate) fn in_stretches(alloc: Global, spans: &[Span]) -> Result<Vec<Span>, NoMemory>
    ensures { IfOk result (λ moved. IsPermutation spans.now moved.items) }
{
    let mut stretches = stretches_of(alloc, spans)?;
    sort_stretches(&mut stretches)?;
    joined(alloc, &stretches, spans.len())
}

// The stretches of a list of spans.
fn stretches_of<'a>(alloc: Global, spans: &'a [Span]) -> Result<Vec<Stretch<'a>>, NoMemory>
    ensures { IfOk result (λ stretches. flat_map spans_in stretches.items ≡ spans.now) }
{
    let mut stretches = Vec::new(alloc);
    let mut rest = spans;
    while rest.len() > 0 {
        let (first, others) = rest.split_at(stretch_length(rest));
        stretches.push(Stretch {
            start: rest[0].input,
            spans: first,
        })?;
        rest = others;
    }
    Ok(stretches)
}

// The number of spans in the first stretch of a list that isn't empty.
fn stretch_length(spans: &[Span]) -> usize
    requires { 0 < length spans.now }
    ensures some { 0 < result }
    ensures within { result ≤ length spans.now }
{
    for i in 1..spans.len() {
        if !follows(&spans[i], &spans[i - 1]) {
            return i;
        }
    }
    spans.len()
}

// Whether an instruction is close after another one in the old code.
fn follows(span: &Span, before: &Span) -> bool {
    before.input < span.input && span.input - before.input <= MOST_BYTES
}

fn sort_stretches(stretches: &mut Vec<Stretch>) -> Result<(), NoMemory>
    ensures { OnOk result (IsPermutation stretches.old.items stretches.new.items) }
{
    stretches.sort_by_key(|stretch| stretch.start)?;
    Ok(())
}

// The `count` spans of these stretches.
fn joined(alloc: Global, stretches: &[Stretch], count: usize) -> Result<Vec<Span>, NoMemory>
    ensures { IfOk result (λ spans. spans.items ≡ flat_map spans_in stretches.now) }
{
    let mut spans = Vec::with_capacity(alloc, count)?;
    for stretch in stretches {
        spans.extend_from_slice(stretch.spans)?;
    }
    Ok(spans)
}
