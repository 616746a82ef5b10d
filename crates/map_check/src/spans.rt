// Clause `MapSpan`: whether spans are a map of a program's instructions.
ghost use Rattle.std.specs.Prelude.{◌≡◌, ◌↔◌, ◌++◌, IfNone, IfOk, OnOk, IsTrue, List, map, length};
ghost use Rattle.std.specs.List.Sorted.{IsNonDecreasingBy, IsPermutation};
ghost use Rattle.rv_code.specs.layout.FunctionLists.{AreLaidOut};
ghost use Rattle.rv_code.specs.layout.ProgramCode.{is_code_address, IsNamed, program_code};
ghost use Rattle.elf_image.specs.faults.LowestPlace.{IsLowest};
ghost use Rattle.addr_map.specs.declared.span.Span.{Span};
ghost use Rattle.addr_map.specs.Spans.{IsMap, IsPlaced};
ghost use Rattle.map_check.specs.BadSpans.{IsBadSpan, IsMiscounted, IsMisplaced, IsSharing};
ghost use Rattle.map_check.specs.internal.SpanLists.{addresses, first_difference, AreExtentsOf};

use crate::names::lowest_left_out;
use addr_map::Span;
use elf_image::extent::{Extent, lowest_shared};
use elf_image::lowest::{lower, place_if};
use rb_bytes::fault::NoMemory;
use rv_code::{CodeCell, Func, Placed, Role};
use std::alloc::Global;

fn push_addresses(out: &mut Vec<u64>, insts: &[Placed]) -> Result<(), NoMemory>
    ensures { OnOk result (out.new.items ≡ out.old.items ++ map (λ p. p.addr) insts.now) }
{
    for inst in insts {
        out.push(inst.addr)?;
    }
    Ok(())
}

// The addresses of the instructions of functions.
fn addresses(alloc: Global, funcs: &[Func]) -> Result<Vec<u64>, NoMemory>
    ensures { IfOk result (λ found. found.items ≡ addresses funcs.now) }
{
    let mut out = Vec::new(alloc);
    for func in funcs {
        push_addresses(&mut out, &func.insts)?;
    }
    Ok(out)
}

// Compares the inputs of `spans` with `addresses`, pair by pair: the lower of the first two that differ.
fn first_difference(spans: &[Span], addresses: &[u64]) -> Option<u64>
    ensures { result ≡ first_difference spans.now addresses.now }
{
    let mut left = addresses;
    for span in spans {
        match left.split_first() {
            Some((address, rest)) => {
                if span.input != *address {
                    return Some(span.input.min(*address));
                }
                left = rest;
            }
            None => return Some(span.input),
        }
    }
    left.first().copied()
}

// The lowest address of an instruction that doesn't have exactly one span, or of a span without an instruction.
fn lowest_miscounted(
    alloc: Global,
    sorted: &[Span],
    funcs: &[Func],
) -> Result<Option<u64>, NoMemory>
    requires sorted { IsNonDecreasingBy (λ s. s.input) sorted.now }
    requires laid { AreLaidOut funcs.now }
    ensures { IfOk result (IsLowest (IsMiscounted funcs.now sorted.now)) }
{
    let addresses = addresses(alloc, funcs)?;
    Ok(first_difference(sorted, &addresses))
}

// Whether a span has no bytes, or begins at an address that an instruction can have: even and not 0.
fn is_placed(span: &Span) -> bool
    ensures { IsTrue result ↔ IsPlaced span.now }
{
    span.len == 0 || (span.out % 2 == 0 && span.out > 0)
}

// The lowest input of a span with bytes at an odd address or at 0.
fn lowest_misplaced(spans: &[Span]) -> Option<u64>
    ensures { IsLowest (IsMisplaced spans.now) result }
{
    let mut lowest = None;
    for span in spans {
        lowest = lower(lowest, place_if(!is_placed(span), span.input));
    }
    lowest
}

// The byte ranges of the spans that aren't empty, each with the index of its span.
fn extents_of(alloc: Global, spans: &[Span]) -> Result<Vec<Extent>, NoMemory>
    ensures { IfOk result (λ extents. AreExtentsOf spans.now (length spans.now) extents.items) }
{
    let mut extents = Vec::new(alloc);
    for (k, span) in spans.iter().enumerate() {
        if span.len > 0 {
            extents.push(Extent {
                start: span.out,
                end: span.out as u128 + span.len as u128,
                place: k as u64,
            })?;
        }
    }
    Ok(extents)
}

// The lowest input of a span that shares a byte with another one. The extents' places are indices of `sorted`, so their
// order is the order of the inputs.
fn lowest_sharing(alloc: Global, sorted: &[Span]) -> Result<Option<u64>, NoMemory>
    requires { IsNonDecreasingBy (λ s. s.input) sorted.now }
    ensures { IfOk result (IsLowest (IsSharing sorted.now)) }
{
    let extents = extents_of(alloc, sorted)?;
    match lowest_shared(extents)? {
        Some(k) => Ok(Some(sorted[k as usize].input)),
        None => Ok(None),
    }
}

/// The lowest place at which spans aren't a map of a program's code. `sorted` has the spans in order of their inputs;
/// the clauses don't depend on the order.
pub fn lowest_bad_span(
    alloc: Global,
    sorted: &[Span],
    funcs: &[Func],
    roles: &[(u64, Role)],
    cells: &[CodeCell],
    entry: u64,
) -> Result<Option<u64>, NoMemory>
    requires sorted { IsNonDecreasingBy (λ s. s.input) sorted.now }
    requires laid { AreLaidOut funcs.now }
    ensures map { IfOk result (λ o. (spans : List Span) → IsPermutation spans sorted.now →
        IfNone o (IsMap (λ a. IsTrue (is_code_address funcs.now a))
        (IsNamed (program_code funcs.now roles.now cells.now entry)) spans)) }
    ensures lowest { IfOk result (λ o. (spans : List Span) → IsPermutation spans sorted.now →
        IsLowest (IsBadSpan (program_code funcs.now roles.now cells.now entry) spans) o) }
{
    let miscounted = lowest_miscounted(alloc, sorted, funcs)?;
    let misplaced = lowest_misplaced(sorted);
    let sharing = lowest_sharing(alloc, sorted)?;
    let left_out = lowest_left_out(sorted, roles, cells, entry);
    let shared = lower(sharing, left_out);
    let placed = lower(misplaced, shared);
    Ok(lower(miscounted, placed))
}
