// Reading the text of a map.
ghost use Rattle.std.specs.Prelude.{◌≡◌, ◌++◌, ◌<◌, ◌^◌, ℕ, List, IfOk, IfSome, IfNone};
ghost use Rattle.addr_map.specs.declared.span.Span.{Span};
ghost use Rattle.addr_map.specs.MapText.{span_line, map_text};
ghost use Rattle.map_check.specs.MapReading.{FitsLine, IsReadAs};

use crate::numbers::{byte_before, hex_before};
use addr_map::Span;
use rb_bytes::fault::NoMemory;
use std::alloc::Global;

/// The result of reading the text of a map.
#[derive(Drop)]
pub enum MapRead {
    /// The spans, in the order of their lines.
    Spans(Vec<Span>),
    /// The number of the first line that isn't one of a map, counted from 1.
    BadLine(u64),
}

/// Reads the text of a map: a line `OUT LEN INPUT` for each span, in any order. Addresses are in hexadecimal, lengths
/// in decimal.
pub fn read(alloc: Global, text: &[u8]) -> Result<MapRead, NoMemory>
    ensures { IfOk result (IsReadAs text.now) }
{
    let mut spans = Vec::new(alloc);
    let mut left = text;
    while !left.is_empty() {
        match first_line(left) {
            Some((span, rest)) => {
                spans.push(span)?;
                left = rest;
            }
            None => return Ok(MapRead::BadLine(spans.len() as u64 + 1)),
        }
    }
    Ok(MapRead::Spans(spans))
}

// The span of a text's first line, and the text after this line.
fn first_line(text: &[u8]) -> Option<(Span, &[u8])>
    ensures some { IfSome result (λ p. text.now ≡ span_line p.0 ++ p.1.now) }
    ensures fits { IfSome result (λ p. FitsLine p.0) }
    ensures none { IfNone result ((s : Span) (rest : List ℕ) → FitsLine s → text.now ≡ span_line s ++ rest → ⊥) }
{
    let (out, after) = hex_before(text, b' ')?;
    let (len, last) = byte_before(after, b' ')?;
    let (input, rest) = hex_before(last, b'\n')?;
    Some((Span { out, len, input }, rest))
}
