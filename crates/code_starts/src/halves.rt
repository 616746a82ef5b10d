// Reads all halfwords of a part of code at once, for the lengths of its instructions.
ghost use Rattle.std.specs.Prelude.{◌≡◌, ◌≤◌, ◌<◌, ◌+◌, ◌-◌, ◌*◌, if◌then◌else◌, ℕ, [], IfSome, OnOk};
ghost use Rattle.elf_image.specs.declared.elf.Elf.{Elf};
ghost use Rattle.rb_lanes.specs.Marks.{is_marked};
ghost use Rattle.code_starts.specs.Halves.{AreBytesOf, AreHalvesOf, AreMarksOf};

use crate::code::halfword;
use crate::loaded::bytes_from;
use crate::parts::Part;
use elf_image::Elf;
use rb_bytes::fault::NoMemory;
use rb_lanes::length_marks;

// The bytes of a part, if a single segment loads all of them from the file.
fn bytes_of<'a>(elf: &Elf<'a>, part: &Part) -> Option<&'a [u8]>
    ensures { IfSome result (λ bytes. AreBytesOf elf.now part.now bytes.now) }
{
    let bytes = bytes_from(elf, part.start);
    let size = part.end.saturating_sub(part.start);
    if size > bytes.len() as u64 {
        return None;
    }
    Some(&bytes[..size as usize])
}

// Appends the halfwords of some bytes. A last odd byte is a halfword by itself.
fn push_halves(halves: &mut Vec<u16>, bytes: &[u8]) -> Result<(), NoMemory>
    requires { halves.old.items ≡ [] }
    ensures { (elf : Elf) (part : Part) → AreBytesOf elf part bytes.now →
        OnOk result (AreHalvesOf elf part halves.new.items) }
{
    for index in 0..bytes.len() / 2 {
        halves.push(halfword(bytes[2 * index], bytes[2 * index + 1]))?;
    }
    if bytes.len() % 2 == 1 {
        halves.push(bytes[bytes.len() - 1] as u16)?;
    }
    Ok(())
}

// Appends the low bytes of a part's halfwords, with one search for each. For parts that no single segment loads.
fn push_low_bytes(halves: &mut Vec<u16>, elf: &Elf, part: &Part) -> Result<(), NoMemory>
    requires { halves.old.items ≡ [] }
    ensures { OnOk result (AreHalvesOf elf.now part.now halves.new.items) }
{
    let size = part.end.saturating_sub(part.start);
    for index in 0..size / 2 + size % 2 {
        let low = elf.image_byte(part.start + 2 * index).unwrap_or(0);
        halves.push(low as u16)?;
    }
    Ok(())
}

/// Replaces `halves` by the halfwords of a part, counted from its start. Only the low bytes, which determine the
/// lengths of instructions, are those of memory.
pub fn read_halves(halves: &mut Vec<u16>, elf: &Elf, part: &Part) -> Result<(), NoMemory>
    ensures { OnOk result (AreHalvesOf elf.now part.now halves.new.items) }
{
    halves.clear();
    match bytes_of(elf, part) {
        Some(bytes) => push_halves(halves, bytes),
        None => push_low_bytes(halves, elf, part),
    }
}

/// Replaces `marks` by marks for the halfwords that begin four-byte instructions.
pub fn read_marks(marks: &mut Vec<u64>, halves: &[u16]) -> Result<(), NoMemory>
    ensures { OnOk result (AreMarksOf halves.now marks.new.items) }
{
    marks.clear();
    marks.resize(halves.len() / 64 + 1, 0)?;
    length_marks(halves, marks);
    Ok(())
}

fn is_marked(marks: &[u64], index: usize) -> bool
    ensures { result ≡ is_marked marks.now index }
{
    match marks.get(index / 64) {
        Some(group) => (*group >> (index % 64)) % 2 == 1,
        None => false,
    }
}

/// The number of halfwords of an instruction that begins with halfword `index`: two if it is marked, and otherwise one.
pub fn halves_taken(marks: &[u64], index: usize) -> usize
    ensures { result ≡ (if is_marked marks.now index then 2 else 1) }
{
    if is_marked(marks, index) { 2 } else { 1 }
}
