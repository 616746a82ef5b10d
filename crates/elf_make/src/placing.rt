// How a written file is put together: the places of its parts and of its table of program headers.
ghost use Rattle.std.specs.Prelude.{◌≡◌, ◌≤◌, ◌+◌, IfOk, All, IsTrue, ◌↔◌, true, false, [], length};
ghost use Rattle.elf_parts.specs.Parts.{PartsFit};
ghost use Rattle.elf_parts.specs.Numbers.{CanPut};
ghost use Rattle.elf_make.specs.FileParts as made;
ghost use Rattle.elf_make.specs.PartPlaces as spec;

use crate::tail::Tail;
use elf_image::header::EHDR_SIZE;
use elf_image::segment::PHDR_SIZE;
use elf_image::{Elf, Segment};
use elf_parts::{NumberAt, Parts};
use elf_plan::area::{Area, Shift, loads_end, lowest_behind};
use elf_plan::header_table::is_kept_table;
use elf_plan::round::sum;
use elf_plan::unwritable::Unwritable;

// The parts of a file whose new area has a segment of its own, after all loaded bytes: these keep their offsets.
fn tight_parts(segments: &[Segment], area: &Area) -> Result<Parts, Unwritable>
    ensures { IfOk result (λ parts. spec.IsAbove segments.now area.now parts) }
{
    let keep = loads_end(segments)?.max(EHDR_SIZE as u64);
    Ok(Parts {
        keep: keep as usize,
        area_at: area.offset_of(area.start)? as usize,
        low: 0,
        high: 0,
        behind_at: area.offset_of(area.end)? as usize,
    })
}

// The parts of a file whose new area is after the executable segment: the loaded bytes after that move.
fn parts_behind(segments: &[Segment], area: &Area, shift: &Shift) -> Result<Parts, Unwritable>
    ensures { IfOk result (λ parts. spec.IsBehind segments.now area.now shift.now parts) }
{
    let area_at = area.offset_of(area.start)? as usize;
    let keep = shift.from as usize;
    match lowest_behind(segments, shift.from) {
        Some(low) => Ok(Parts {
            keep,
            area_at,
            low: low as usize,
            high: loads_end(segments)? as usize,
            behind_at: sum(low, shift.by)? as usize,
        }),
        None => Ok(Parts {
            keep,
            area_at,
            low: 0,
            high: 0,
            behind_at: area.offset_of(area.end)? as usize,
        }),
    }
}

// Whether the parts are apart, and within an input of `input` bytes. `area` is the size of the area, which isn't in the
// ELF header.
fn can_stand(parts: &Parts, input: usize, area: usize) -> bool
    ensures { IsTrue result ↔ (PartsFit parts.now input area × (64 ≤ parts.now.keep)) }
{
    EHDR_SIZE <= parts.keep
        && parts.keep <= input
        && parts.keep <= parts.area_at
        && parts.area_at as u128 + area as u128 <= parts.behind_at as u128
        && parts.low <= parts.high
        && parts.high <= input
}

/// How the loaded bytes of an input of `input` bytes are beside `area`, which has `bytes` bytes. `Layout` if they
/// can't, as where the area would be on the ELF header.
pub fn parts_of(
    segments: &[Segment],
    area: &Area,
    shift: &Shift,
    input: usize,
    bytes: usize,
) -> Result<Parts, Unwritable>
    ensures can { IfOk result (λ parts. PartsFit parts input bytes) }
    ensures header { IfOk result (λ parts. 64 ≤ parts.keep) }
    ensures above { IfOk result (λ parts. area.now.tight ≡ true → spec.IsAbove segments.now area.now parts) }
    ensures behind { IfOk result (λ parts. area.now.tight ≡ false →
        spec.IsBehind segments.now area.now shift.now parts) }
{
    let parts = if area.tight {
        tight_parts(segments, area)?
    } else {
        parts_behind(segments, area, shift)?
    };
    if !can_stand(&parts, input, bytes) {
        return Err(Unwritable::Layout);
    }
    Ok(parts)
}

/// The offset of the table of program headers: at the front of the area's own segment; otherwise where it went with the
/// bytes beside it; otherwise in `tail`, to which zeros are added for it. It isn't in the ELF header.
pub fn table_place(
    elf: &Elf,
    area: &Area,
    shift: &Shift,
    tail: &mut Tail,
) -> Result<u64, Unwritable>
    requires { tail.old.bytes.items ≡ [] }
    ensures place { IfOk result (λ at. made.IsTablePlace elf.now area.now shift.now tail.old.base at) }
    ensures base { IfOk result (λ at. tail.new.base ≡ tail.old.base) }
    ensures start { IfOk result (λ at. tail.new.base + length tail.new.bytes.items
        ≡ made.start_after elf.now area.now shift.now tail.old.base) }
{
    let place = if area.tight {
        area.offset
    } else if is_kept_table(elf, shift) {
        shift.moved(elf.phoff)?
    } else {
        let segments: &[Segment] = &elf.segments;
        let place = tail.align_to(8)?;
        tail.fill(PHDR_SIZE * segments.len())?;
        place
    };
    if place < EHDR_SIZE as u64 {
        return Err(Unwritable::Layout);
    }
    Ok(place)
}

// Whether a number is 1, 2, 4 or 8 bytes wide, fits these, and is within the first `size` bytes.
fn can_put(size: usize, n: &NumberAt) -> bool
    ensures { IsTrue result ↔ CanPut size n.now }
{
    let fits = if n.width == 1 {
        n.value < 0x100
    } else if n.width == 2 {
        n.value < 0x1_0000
    } else if n.width == 4 {
        n.value < 0x1_0000_0000
    } else {
        n.width == 8
    };
    fits && n.offset as u128 + n.width as u128 <= size as u128
}

/// Whether all numbers can be put over the bytes of a file of `size` bytes.
pub fn can_put_all(size: usize, numbers: &[NumberAt]) -> bool
    ensures { IsTrue result ↔ All (CanPut size) numbers.now }
{
    numbers.iter().all(|n| can_put(size, n))
}
