// The lines of a profile.
ghost use Rattle.std.specs.Prelude.{◌≡◌, ◌++◌, ◌<◌, All, IfOk, OnOk, flat_map};
ghost use Rattle.rv_code.specs.layout.FunctionLists.{AreLaidOut};
ghost use Rattle.edge_text.specs.EdgeText.{edge_line, place_text, start_at, text_of_pairs};

use crate::splitting::split_counts;
use edge_profile::places::place_of;
use rb_bytes::fault::NoMemory;
use rb_bytes::text::{put_count, put_hex};
use rv_code::Func;
use std::alloc::Global;

/// The text of a profile with `pairs`: two addresses and a positive count each. A count of more than 64 bits takes
/// several lines.
pub fn edge_text(
    alloc: Global,
    funcs: &[Func],
    pairs: &[(u64, u64, u128)],
) -> Result<Vec<u8>, NoMemory>
    requires funcs { AreLaidOut funcs.now }
    requires positive { All (λ p. 0 < p.2) pairs.now }
    ensures { IfOk result (λ text. text.items ≡ text_of_pairs funcs.now pairs.now) }
{
    let lines = split_counts(alloc, pairs)?;
    text_of(alloc, funcs, &lines)
}

// The text of lines.
fn text_of(alloc: Global, funcs: &[Func], pairs: &[(u64, u64, u128)]) -> Result<Vec<u8>, NoMemory>
    requires { AreLaidOut funcs.now }
    ensures { IfOk result (λ text. text.items ≡ flat_map (edge_line funcs.now) pairs.now) }
{
    let mut text = Vec::new(alloc);
    for pair in pairs {
        put_line(&mut text, funcs, pair)?;
    }
    Ok(text)
}

// Appends one line.
fn put_line(text: &mut Vec<u8>, funcs: &[Func], pair: &(u64, u64, u128)) -> Result<(), NoMemory>
    requires { AreLaidOut funcs.now }
    ensures { OnOk result (text.new.items ≡ text.old.items ++ edge_line funcs.now pair.now) }
{
    text.extend_from_slice(b"1 @")?;
    put_place(text, funcs, pair.0)?;
    text.extend_from_slice(b" 1 @")?;
    put_place(text, funcs, pair.1)?;
    text.extend_from_slice(b" 0 ")?;
    put_count(text, pair.2)?;
    text.push(b'\n')?;
    Ok(())
}

// Appends the start of the function that has the instruction at `address`, and the distance of `address` from this
// start.
fn put_place(text: &mut Vec<u8>, funcs: &[Func], address: u64) -> Result<(), NoMemory>
    requires { AreLaidOut funcs.now }
    ensures { OnOk result (text.new.items ≡ text.old.items ++ place_text funcs.now address) }
{
    let start = start_at(funcs, address);
    put_hex(text, start)?;
    text.push(b' ')?;
    put_hex(text, address.saturating_sub(start))?;
    Ok(())
}

// The start of the function that has an instruction at `address`, or 0 if there is none.
fn start_at(funcs: &[Func], address: u64) -> u64
    requires { AreLaidOut funcs.now }
    ensures { result ≡ start_at funcs.now address }
{
    match place_of(funcs, address) {
        Some(place) => funcs[place.func].start,
        None => 0,
    }
}
