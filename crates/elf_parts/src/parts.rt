// The parts of a written file before its tail: the front of the input, the new area, and loaded bytes after it.
ghost use Rattle.std.specs.Prelude.{IfOk, length};
ghost use Rattle.elf_parts.specs.Parts.{PartsFit, HasParts};

use crate::patch::fill_to;
use rb_bytes::fault::NoMemory;
use std::alloc::Global;

/// The places of the parts, by offsets in bytes: `keep`, `low` and `high` in the input, `area_at` and `behind_at` in
/// the written file.
#[derive(Clone, Copy)]
pub struct Parts {
    /// The bytes of the input below this keep their offsets.
    pub keep: usize,
    /// The offset of the new area, after these bytes.
    pub area_at: usize,
    /// The bytes of the input from `low` to before `high` are at `behind_at`.
    pub low: usize,
    pub high: usize,
    pub behind_at: usize,
}

/// The parts in their order, with zeros where one doesn't follow the other at once.
pub fn join_parts(
    alloc: Global,
    parts: &Parts,
    input: &[u8],
    area: &[u8],
) -> Result<Vec<u8>, NoMemory>
    requires { PartsFit parts.now (length input.now) (length area.now) }
    ensures { IfOk result (λ base. HasParts parts.now input.now area.now base.items) }
{
    let mut base = Vec::from_slice(alloc, &input[..parts.keep])?;
    fill_to(&mut base, parts.area_at)?;
    base.extend_from_slice(area)?;
    fill_to(&mut base, parts.behind_at)?;
    base.extend_from_slice(&input[parts.low..parts.high])?;
    Ok(base)
}
