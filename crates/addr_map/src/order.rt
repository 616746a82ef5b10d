// The two orders of spans. Spans arrive block by block, so they are mostly in the order of lines already, and whole
// blocks of them can be moved into the order of old addresses. A sort of what is in order takes one pass.
ghost use Rattle.std.specs.Prelude.{AllPairs, IfOk, OnOk, map};
ghost use Rattle.std.specs.List.Sorted.{IsPermutation};
ghost use Rattle.addr_map.specs.MapText.{AreInLineOrder};
ghost use Rattle.addr_map.specs.internal.Orders.{AreApart, IsRising};
ghost use Rattle.addr_map.specs.Spans.{ShareNoByte};

use crate::span::Span;
use crate::stretches::in_stretches;
use rb_bytes::fault::NoMemory;
use std::alloc::Global;

/// Sorts the spans of a map by line.
pub(crate) fn sort_by_line(spans: &mut Vec<Span>) -> Result<(), NoMemory>
    requires once { AllPairs AreApart spans.old.items }
    requires disjoint { AllPairs ShareNoByte spans.old.items }
    ensures { OnOk result (AreInLineOrder spans.old.items spans.new.items) }
{
    spans.sort_by_key(|span| (span.out, span.len, span.input))?;
    Ok(())
}

/// The spans of a map, sorted by old address.
pub(crate) fn by_input(alloc: Global, spans: &[Span]) -> Result<Vec<Span>, NoMemory>
    requires { AllPairs AreApart spans.now }
    ensures same { IfOk result (λ sorted. IsPermutation spans.now sorted.items) }
    ensures rises { IfOk result (λ sorted. IsRising (map (λ s. s.input) sorted.items)) }
{
    let mut sorted = in_stretches(alloc, spans)?;
    sort_by_input(&mut sorted)?;
    Ok(sorted)
}

// Sorts the spans of a map by old address.
fn sort_by_input(spans: &mut Vec<Span>) -> Result<(), NoMemory>
    requires { AllPairs AreApart spans.old.items }
    ensures same { IsPermutation spans.old.items spans.new.items }
    ensures rises { OnOk result (IsRising (map (λ s. s.input) spans.new.items)) }
{
    spans.sort_by_key(|span| span.input)?;
    Ok(())
}
