// Searches for relocations by place and class. The argument `at` of each function is a class.
ghost use Rattle.std.specs.Prelude.{◌≡◌, ◌↔◌, ◌<◌, ◌≤◌, ◌-◌, ℕ, IsTrue, IfSome, Some, length, slice_index_or, Any};
ghost use Rattle.elf_image.specs.declared.elf.Elf.{Elf};
ghost use Rattle.elf_code.specs.Cells.{IsOnly, is_plus, is_minus};
ghost use Rattle.elf_code.specs.Relocations.{HasRelocation, is_call_pair, is_pcrel_hi};
ghost use Rattle.rv_reloc.specs.declared.records.Record.{Record};
ghost use Rattle.rv_reloc.specs.Index.{class, class_beside, width_code, plus_class, minus_class};
ghost use Rattle.rv_reloc.specs.Labels.{width_of};
ghost use Rattle.rv_reloc.specs.Records.{has_key, IsBelow, IsFrom, AreInOrder, AreRecords, IsSplit, HasKeyAt};
ghost use Rattle.rv_reloc.specs.Records.{FindsOnly};

use crate::labels::{FieldWidth, minus_width, plus_width};
use crate::records::Record;
use crate::types::{is_call_pair, is_pcrel_hi};

// The number of bits of a width plus one, and 0 for ULEB128, so that all widths have different numbers.
fn width_code(width: FieldWidth) -> u64
    ensures { result ≡ width_code (width_of width) }
{
    match width {
        FieldWidth::Bits6 => 7,
        FieldWidth::Bits8 => 9,
        FieldWidth::Bits16 => 17,
        FieldWidth::Bits32 => 33,
        FieldWidth::Bits64 => 65,
        FieldWidth::Uleb128 => 0,
    }
}

// The classes of calls, of upper parts, and of all other types that aren't for a label.
const CALL_CLASS: u64 = 0;

const UPPER_CLASS: u64 = 1;

const OTHER_CLASS: u64 = 2;

// Classes of labels start at 4, after the classes above.
fn plus_class(width: FieldWidth) -> u64
    ensures { result ≡ plus_class (width_of width) }
{
    2 * width_code(width) + 4
}

fn minus_class(width: FieldWidth) -> u64
    ensures { result ≡ minus_class (width_of width) }
{
    2 * width_code(width) + 5
}

/// The class of a type. The relocations of one place are sorted by class.
pub fn class(kind: u32) -> u64
    ensures { result ≡ class kind }
{
    match plus_width(kind) {
        Some(width) => plus_class(width),
        None => match minus_width(kind) {
            Some(width) => minus_class(width),
            None => class_beside(kind),
        },
    }
}

// The class of a type that isn't for a label of a difference.
fn class_beside(kind: u32) -> u64
    ensures { result ≡ class_beside kind }
{
    if is_call_pair(kind) {
        CALL_CLASS
    } else if is_pcrel_hi(kind) {
        UPPER_CLASS
    } else {
        OTHER_CLASS
    }
}

// The number of relocations before those of a place and class.
fn count_below(records: &[Record], place: u64, at: u64) -> usize
    requires { AreInOrder records.now }
    ensures { IsSplit place at records.now result }
{
    records.partition_point(|r| r.place < place || (r.place == place && class(r.kind) < at))
}

// The result of `count_below`. The index `near` and its neighbours are tried before a binary search, since relocations
// for the same field, or for an AUIPC and its lower part, are adjacent.
fn count_near(records: &[Record], near: usize, place: u64, at: u64) -> usize
    requires { AreInOrder records.now }
    ensures { IsSplit place at records.now result }
{
    for index in near.saturating_sub(1)..near.saturating_add(2) {
        if splits_at(records, index, place, at) {
            return index;
        }
    }
    count_below(records, place, at)
}

// Whether exactly the relocations below an index come before those of a place and class.
fn splits_at(records: &[Record], index: usize, place: u64, at: u64) -> bool
    requires { AreInOrder records.now }
    ensures { IsTrue result → IsSplit place at records.now index }
{
    if records.len() < index {
        return false;
    }
    if !ends_before(records, index, place, at) {
        return false;
    }
    begins_from(records, index, place, at)
}

// Whether the relocation before an index, if there is one, comes before those of a place and class.
fn ends_before(records: &[Record], index: usize, place: u64, at: u64) -> bool
    requires { index ≤ length records.now }
    ensures { IsTrue result → 0 < index → (d : Record) → IsBelow place at (slice_index_or records.now (index - 1) d) }
{
    if index == 0 {
        return true;
    }
    is_before(&records[index - 1], place, at)
}

// Whether the relocation at an index, if there is one, doesn't come before those of a place and class.
fn begins_from(records: &[Record], index: usize, place: u64, at: u64) -> bool
    ensures { IsTrue result → index < length records.now → (d : Record) →
        IsFrom place at (slice_index_or records.now index d) }
{
    if records.len() <= index {
        return true;
    }
    !is_before(&records[index], place, at)
}

fn is_before(found: &Record, place: u64, at: u64) -> bool
    ensures { IsTrue result ↔ IsBelow place at found.now }
{
    found.place < place || (found.place == place && class(found.kind) < at)
}

// Whether there is a relocation at an index, with this place and class.
fn has_key_at(records: &[Record], index: usize, place: u64, at: u64) -> bool
    ensures { IsTrue result ↔ HasKeyAt place at records.now index }
{
    index < records.len() && records[index].place == place && class(records[index].kind) == at
}

// Whether there is a relocation with a place and class. In this function and those below, `near` is a guess for the
// index of the relocations of the place. A bad guess only costs time.
fn has(records: &[Record], near: usize, place: u64, at: u64) -> bool
    requires { AreInOrder records.now }
    ensures { IsTrue result ↔ Any (λ r. IsTrue (has_key place at r)) records.now }
{
    has_key_at(records, count_near(records, near, place, at), place, at)
}

/// The relocation with a place and class, if there is exactly one. `near` is a guess for its index.
pub fn only<'a>(records: &[Record<'a>], near: usize, place: u64, at: u64) -> Option<Record<'a>>
    requires { AreInOrder records.now }
    ensures is { IfSome result (IsOnly (has_key place at) records.now) }
    ensures only { (r : Record) → IsOnly (has_key place at) records.now r → result ≡ Some r }
{
    let from = count_near(records, near, place, at);
    if !has_key_at(records, from, place, at) {
        return None;
    }
    if has_key_at(records, from + 1, place, at) {
        return None;
    }
    Some(records[from])
}

/// Whether a relocation for a call applies to a place. `near` is a guess for its index.
pub fn has_call(records: &[Record], near: usize, place: u64) -> bool
    requires { AreInOrder records.now }
    ensures { (elf : Elf) → AreRecords elf records.now →
        IsTrue result ↔ HasRelocation elf (λ r. IsTrue (is_call_pair r.kind)) place }
{
    has(records, near, place, CALL_CLASS)
}

/// Whether a relocation for an upper part that isn't part of a call applies to a place. `near` is a guess for its
/// index.
pub fn has_upper(records: &[Record], near: usize, place: u64) -> bool
    requires { AreInOrder records.now }
    ensures { (elf : Elf) → AreRecords elf records.now →
        IsTrue result ↔ HasRelocation elf (λ r. IsTrue (is_pcrel_hi r.kind)) place }
{
    has(records, near, place, UPPER_CLASS)
}

/// The relocation that adds or sets a label of a width at a place, if there is exactly one. `near` is a guess for its
/// index.
pub fn only_plus<'a>(
    records: &[Record<'a>],
    near: usize,
    place: u64,
    width: FieldWidth,
) -> Option<Record<'a>>
    requires { AreInOrder records.now }
    ensures { FindsOnly (is_plus place (width_of width)) records.now result }
{
    only(records, near, place, plus_class(width))
}

/// The relocation that subtracts a label of a width at a place, if there is exactly one. `near` is a guess for its
/// index.
pub fn only_minus<'a>(
    records: &[Record<'a>],
    near: usize,
    place: u64,
    width: FieldWidth,
) -> Option<Record<'a>>
    requires { AreInOrder records.now }
    ensures { FindsOnly (is_minus place (width_of width)) records.now result }
{
    only(records, near, place, minus_class(width))
}
