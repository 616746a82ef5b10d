// Lists with one field of each span.
ghost use Rattle.std.specs.Prelude.{◌≡◌, IfOk, map};

use crate::span::Span;
use rb_bytes::fault::NoMemory;
use std::alloc::Global;

/// The new addresses.
pub(crate) fn outs_of(alloc: Global, spans: &[Span]) -> Result<Vec<u64>, NoMemory>
    ensures { IfOk result (λ outs. outs.items ≡ map (λ s. s.out) spans.now) }
{
    Ok(spans.iter().map(|span| span.out).collect(alloc)?)
}

/// The lengths.
pub(crate) fn lens_of(alloc: Global, spans: &[Span]) -> Result<Vec<u8>, NoMemory>
    ensures { IfOk result (λ lens. lens.items ≡ map (λ s. s.len) spans.now) }
{
    Ok(spans.iter().map(|span| span.len).collect(alloc)?)
}

/// The old addresses.
pub(crate) fn inputs_of(alloc: Global, spans: &[Span]) -> Result<Vec<u64>, NoMemory>
    ensures { IfOk result (λ inputs. inputs.items ≡ map (λ s. s.input) spans.now) }
{
    Ok(spans.iter().map(|span| span.input).collect(alloc)?)
}
