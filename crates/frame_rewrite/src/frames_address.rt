// The address of the new `.eh_frame` in the written file.
ghost use Rattle.std.specs.Prelude.{◌≡◌, ◌+◌, ◌≤◌, All, IfSome};
ghost use Rattle.rv_code.specs.layout.FunctionLists.{address_end};
ghost use Rattle.frame_rewrite.specs.Tables as spec;

use addr_map::{AddrMap, Span};

// The greater of `end` and the address at which a span's bytes end, if it has any.
fn later(end: u64, span: Option<Span>) -> u64
    requires { IfSome span (λ s. s.out + s.len ≤ address_end) }
    ensures { IfSome span (λ s. result ≡ spec.end_with end s) }
{
    match span {
        Some(span) if span.len > 0 => end.max(span.out + span.len as u64),
        _ => end,
    }
}

// The address at which the new code ends.
fn code_end(map: &AddrMap) -> u64
    requires { All (λ s. s.out + s.len ≤ address_end) map.now }
    ensures is { result ≡ spec.code_end map.now }
    ensures low { result ≤ address_end }
{
    let mut end = 0;
    for i in 0..map.len() {
        end = later(end, map.span(i));
    }
    end
}

/// The address of the new `.eh_frame`, after the new code.
pub(crate) fn frames_address(map: &AddrMap) -> u64
    requires { All (λ s. s.out + s.len ≤ address_end) map.now }
    ensures { result ≡ spec.frames_address map.now }
{
    (code_end(map) + 7) / 8 * 8
}
