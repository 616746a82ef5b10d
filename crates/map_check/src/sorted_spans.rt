// Spans in order of their inputs (the old addresses), and the span of an old address.
ghost use Rattle.std.specs.Prelude.{◌≡◌, ◌<◌, ◌≤◌, ℕ, find, length, slice_index_or};
ghost use Rattle.std.specs.List.Sorted.{IsNonDecreasingBy, IsPermutation};
ghost use Rattle.addr_map.specs.declared.span.Span.{Span};
ghost use Rattle.addr_map.specs.Spans.{is_of};

use addr_map::Span;

/// Sorts spans by their inputs. The order of spans with one input doesn't matter, since a map has no two such spans.
pub fn sort_by_input(spans: &mut Vec<Span>)
    ensures same { IsPermutation spans.old.items spans.new.items }
    ensures rises { IsNonDecreasingBy (λ s. s.input) spans.new.items }
{
    spans.sort_unstable_by_key(|span| span.input);
}

// The number of spans whose input is below `a`.
fn count_below(sorted: &[Span], a: u64) -> usize
    requires { IsNonDecreasingBy (λ s. s.input) sorted.now }
    ensures bound { result ≤ length sorted.now }
    ensures below { (k : ℕ) (d : Span) → k < result → (slice_index_or sorted.now k d).input < a }
    ensures above { (k : ℕ) (d : Span) → result ≤ k → k < length sorted.now →
        a ≤ (slice_index_or sorted.now k d).input }
{
    sorted.partition_point(|s| s.input < a)
}

/// The first span of the instruction at `a`.
pub fn span_of(sorted: &[Span], a: u64) -> Option<Span>
    requires { IsNonDecreasingBy (λ s. s.input) sorted.now }
    ensures { result ≡ find (is_of a) sorted.now }
{
    let below = count_below(sorted, a);
    if below == sorted.len() {
        return None;
    }
    let span = sorted[below];
    if span.input == a { Some(span) } else { None }
}
