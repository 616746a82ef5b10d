// Whether a unit contains one of some offsets, and so has to be read.
ghost use Rattle.std.specs.Prelude.{◌≡◌, ◌+◌, false, length};
ghost use Rattle.dw_unit.specs.CompUnits as spec;
ghost use Rattle.inline_frames.specs.FileChains.{LacksPlaces};

use std::collections::BTreeSet;
use table_core::DebugUnit;

fn start_of(unit: &DebugUnit<'_>) -> u128
    ensures { result ≡ unit.now.place }
{
    unit.place as u128
}

// The end of `bytes`, which follow a unit's length of 4 bytes at offset `place`.
fn end_behind(place: u64, bytes: &[u8]) -> u128
    ensures { result ≡ place + 4 + length bytes.now }
{
    place as u128 + 4 + bytes.len() as u128
}

fn end_of(unit: &DebugUnit<'_>) -> u128
    ensures { result ≡ spec.end_of unit.now }
{
    match unit.bytes {
        Some(bytes) => end_behind(unit.place, bytes),
        None => end_behind(unit.place, &[]),
    }
}

/// Whether one of `places` is an offset in `unit`.
pub fn has_place(places: &BTreeSet<u128>, unit: &DebugUnit<'_>) -> bool
    ensures { result ≡ false → LacksPlaces places.now unit.now }
{
    let start = start_of(unit);
    let end = end_of(unit);
    match places.range(start..end).next() {
        Some(_) => true,
        None => false,
    }
}
