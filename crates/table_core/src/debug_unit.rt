// The units of a debug section, one after another. DWARF 5, sections 7.2.2 and 7.4.
ghost use Rattle.std.specs.Prelude.{◌≡◌, ◌+◌, ◌<◌, IfOk, IfSome, MatchOption, Some, false, true, length, drop, option_map};
ghost use Rattle.std.specs.Prelude.{slice_get};
ghost use Rattle.table_core.specs.DebugUnits.{Walked, walked, unit_bytes, unit_length, is_other_version, is_whole_unit};

use byteorder::{ByteOrder, LittleEndian};
use rb_bytes::fault::NoMemory;
use std::alloc::Global;
use std::marker::Model;

/// A unit of a debug section, or a table that begins as units do: with a length of 32 bits and a version of 16.
#[derive(Drop)]
pub struct DebugUnit<'a> {
    /// The offset of its length in the section.
    pub place: u64,
    /// The bytes after its length, from the version on; none if not all are in the section, or there are too few for a
    /// version.
    pub bytes: Option<&'a [u8]>,
    /// Whether it is of the 64-bit format or of another version than the one that is read. This depends on the bytes in
    /// the section, even if the unit isn't whole.
    pub is_other: bool,
}

impl<'a> Model for DebugUnit<'a> {
    ghost use Rattle.std.specs.Prelude.{option_map};
    ghost use Rattle.table_core.specs.DebugUnits.{Walked};

    ghost Value = { Walked };

    ghost view = { λ u. record { place = u.place; bytes = option_map (λ b. b.now) u.bytes; is_other = u.is_other } };
}

// The length that begins a unit of the 64-bit format.
const DWARF64: u32 = 0xffff_ffff;

// The bytes after the length of the unit at the front, if they are whole and have room for a version.
fn unit_bytes(left: &[u8]) -> Option<&[u8]>
    ensures { option_map (λ b. b.now) result ≡ unit_bytes left.now }
{
    if left.len() < 4 {
        return None;
    }
    let length = LittleEndian::read_u32(left);
    let (_, behind) = left.split_at(4);
    if length == DWARF64 || length < 2 || behind.len() < length as usize {
        return None;
    }
    let (bytes, _) = behind.split_at(length as usize);
    Some(bytes)
}

// Whether the unit at the front is of the 64-bit format or of another version.
fn is_other_version(version: u16, left: &[u8]) -> bool
    ensures { result ≡ is_other_version version left.now }
{
    if left.len() < 4 {
        return false;
    }
    let length = LittleEndian::read_u32(left);
    if length == DWARF64 {
        return true;
    }
    if left.len() < 6 || length < 2 {
        return false;
    }
    let (_, behind) = left.split_at(4);
    LittleEndian::read_u16(behind) != version
}

// The bytes after the unit at the front, if the unit is whole; it may be too short for a version.
fn behind_unit(left: &[u8]) -> Option<&[u8]>
    ensures is { MatchOption result (is_whole_unit left.now ≡ false)
        (λ rest. (is_whole_unit left.now ≡ true) × (rest.now ≡ drop (unit_length left.now + 4) left.now)) }
    ensures size { IfSome result (λ rest. length rest.now + (unit_length left.now + 4) ≡ length left.now) }
{
    if left.len() < 4 {
        return None;
    }
    let length = LittleEndian::read_u32(left);
    if length == DWARF64 || left.len() - 4 < length as usize {
        return None;
    }
    let (_, rest) = left.split_at(length as usize + 4);
    Some(rest)
}

fn unit_at<'a>(version: u16, place: u64, left: &'a [u8]) -> DebugUnit<'a>
    ensures { result ≡ record {
      place = place;
      bytes = unit_bytes left.now;
      is_other = is_other_version version left.now;
    } }
{
    DebugUnit {
        place,
        bytes: unit_bytes(left),
        is_other: is_other_version(version, left),
    }
}

/// The units of a section, in order, each with whether it is of `version`. The walk ends after the first unit that
/// isn't whole, which is the last of the list.
pub fn debug_units<'a>(
    alloc: Global,
    version: u16,
    section: &'a [u8],
) -> Result<Vec<DebugUnit<'a>>, NoMemory>
    ensures { IfOk result (λ us. us.items ≡ walked version section.now) }
{
    let mut units = Vec::new(alloc);
    let mut left = section;
    let mut place: u64 = 0;
    // Each unit has at least one byte. `count` isn't read: it bounds the loop.
    for count in 0..section.len() {
        if left.is_empty() {
            return Ok(units);
        }
        units.push(unit_at(version, place, left))?;
        let Some(rest) = behind_unit(left) else {
            return Ok(units);
        };
        place += (left.len() - rest.len()) as u64;
        left = rest;
    }
    Ok(units)
}

/// The offset of unit `number`, counted from 0.
pub fn place_of(units: &[DebugUnit<'_>], number: usize) -> u64
    requires { number < length units.now }
    ensures { (w : Walked) → slice_get units.now number ≡ Some w → result ≡ w.place }
{
    let unit = &units[number];
    unit.place
}
