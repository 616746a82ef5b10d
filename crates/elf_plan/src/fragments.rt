// Fragments: ranges of new code of one function. The size of a symbol is the rest of its fragment.
ghost use Rattle.std.specs.Prelude.{◌≡◌, ◌≤◌, ◌<◌, ◌++◌, ◌∷◌, [], ℕ, IfOk, List, OnOk, length, option_map, slice_get};
ghost use Rattle.std.specs.Prelude.{IsTrue, Some, slice_index_or};
ghost use Rattle.addr_map.specs.declared.span.Span.{Span};
ghost use Rattle.rv_code.specs.declared.placed.Func.{Func};
ghost use Rattle.rv_code.specs.layout.FunctionLists.{AreLaidOut};
ghost use Rattle.elf_plan.specs.ColdSymbols.{start_around};
ghost use Rattle.elf_plan.specs.FragmentLists.{AreFragments, AreSorted, Grows};
ghost use Rattle.rv_code.specs.layout.FunctionMembers.{function_at};
ghost use Rattle.elf_plan.specs.Fragments.{IsFragment};

use crate::round::sum;
use crate::unwritable::Unwritable;
use addr_map::{AddrMap, Span};
use rv_code::Func;
use rv_code::functions::{func_holds, function_at};
use std::alloc::Global;

/// A maximal range of new code, from `start` to before `end`, whose bytes belong to one function.
#[derive(Clone, Copy)]
pub struct Fragment {
    pub start: u64,
    pub end: u64,
    /// The index of the function in the list of functions.
    pub func: usize,
}

/// The start of the function that contains `address`.
pub fn start_around(funcs: &[Func], address: u64) -> Option<u64>
    requires { AreLaidOut funcs.now }
    ensures { result ≡ start_around funcs.now address }
{
    let func = function_at(funcs, address)?;
    function_start(funcs, func)
}

// The start of the function with the index `place`.
fn function_start(funcs: &[Func], place: usize) -> Option<u64>
    ensures { result ≡ option_map (λ f. f.start) (slice_get funcs.now place) }
{
    funcs.get(place).map(|f| f.start)
}

/// All fragments, by address. `Layout` if the map doesn't fit these functions: its spans aren't in the order of their
/// bytes, overlap, or are of instructions outside all functions.
pub fn fragments(alloc: Global, funcs: &[Func], map: &AddrMap) -> Result<Vec<Fragment>, Unwritable>
    requires { AreLaidOut funcs.now }
    ensures { IfOk result (λ fragments. AreFragments funcs.now map.now fragments.items) }
{
    let mut fragments: Vec<Fragment> = Vec::new(alloc);
    for i in 0..map.len() {
        let span = map.span(i).ok_or(Unwritable::Layout)?;
        add_span(&mut fragments, funcs, &span)?;
    }
    Ok(fragments)
}

// Adds the bytes of `span` after those of the spans before it.
fn add_span(fragments: &mut Vec<Fragment>, funcs: &[Func], span: &Span) -> Result<(), Unwritable>
    requires { AreLaidOut funcs.now }
    ensures { OnOk result ((spans : List Span) → AreFragments funcs.now spans fragments.old.items →
        AreFragments funcs.now (spans ++ span.now ∷ []) fragments.new.items) }
{
    if span.len == 0 {
        return Ok(());
    }
    let func = function_near(funcs, last_func(fragments), span.input).ok_or(Unwritable::Layout)?;
    let end = sum(span.out, span.len as u64)?;
    let start = span.out;
    add_fragment(fragments, Fragment { start, end, func })?;
    Ok(())
}

// The index of the last fragment's function, or 0 without a fragment.
fn last_func(fragments: &[Fragment]) -> usize {
    match fragments.last() {
        Some(last) => last.func,
        None => 0,
    }
}

// The function that contains `address`. `near` is tried first: most spans are of the same function as the one before.
fn function_near(funcs: &[Func], near: usize, address: u64) -> Option<usize>
    requires { AreLaidOut funcs.now }
    ensures { result ≡ function_at funcs.now address }
{
    if is_in(funcs, near, address) {
        return Some(near);
    }
    function_at(funcs, address)
}

// Whether the function at `index` contains `address`.
fn is_in(funcs: &[Func], index: usize, address: u64) -> bool
    requires { AreLaidOut funcs.now }
    ensures { IsTrue result → function_at funcs.now address ≡ Some index }
{
    if funcs.len() <= index {
        return false;
    }
    func_holds(&funcs[index], address)
}

// Appends `fragment`, or extends the last fragment if that is of the same function and adjacent.
fn add_fragment(fragments: &mut Vec<Fragment>, fragment: Fragment) -> Result<(), Unwritable>
    requires { fragment.start < fragment.end }
    ensures { OnOk result (Grows fragments.old.items fragment fragments.new.items) }
{
    let Some(last) = fragments.pop() else {
        fragments.push(fragment)?;
        return Ok(());
    };
    if last.func == fragment.func && last.end == fragment.start {
        fragments.push(Fragment {
            end: fragment.end,
            ..last
        })?;
        return Ok(());
    }
    if fragment.start < last.end {
        return Err(Unwritable::Layout);
    }
    fragments.push(last)?;
    fragments.push(fragment)?;
    Ok(())
}

// The number of fragments that start at or below an address.
fn count_fragments_up_to(fragments: &[Fragment], address: u64) -> usize
    ensures bound { result ≤ length fragments.now }
    ensures below { AreSorted fragments.now → (k : ℕ) (d : Fragment) → k < result →
        (slice_index_or fragments.now k d).start ≤ address }
    ensures above { AreSorted fragments.now → (k : ℕ) (d : Fragment) → result ≤ k → k < length fragments.now →
        address < (slice_index_or fragments.now k d).start }
{
    fragments.partition_point(|r| r.start <= address)
}

/// The number of bytes of the function `func` from `address` of the new code to the end of its fragment. 0 if no
/// fragment of the function contains the address.
pub fn bytes_left(fragments: &[Fragment], func: usize, address: u64) -> u64
    ensures { (funcs : List Func) (spans : List Span) → AreFragments funcs spans fragments.now →
        IsFragment funcs spans func address result }
{
    let above = count_fragments_up_to(fragments, address);
    if above == 0 {
        return 0;
    }
    let fragment = fragments[above - 1];
    if fragment.func == func && address < fragment.end {
        fragment.end - address
    } else {
        0
    }
}
