// The part of a written file before its tail: the input's bytes that are loaded, and the new area.
ghost use Rattle.std.specs.Prelude.{◌≡◌, ◌≤◌, IfOk, codes, is_none};
ghost use Rattle.addr_map.specs.Spans.{owner};
ghost use Rattle.elf_parts.specs.Parts.{size_of};
ghost use Rattle.file_room.specs.Room.{area_start};
ghost use Rattle.elf_plan.specs.TableSizes as spec;
ghost use Rattle.elf_make.specs.FileParts.{IsLaidOut};

use crate::area_bytes::area_bytes;
use crate::placing::parts_of;
use crate::tail::limited;
use addr_map::AddrMap;
use elf_image::Elf;
use elf_parts::Parts;
use elf_plan::area::{Area, Shift};
use elf_plan::given_tables::Table;
use elf_plan::plan::Plan;
use elf_plan::round::sum;
use elf_plan::unwritable::Unwritable;
use file_room::area_start_of;
use std::alloc::Global;

/// The loaded part of a written file.
#[derive(Drop)]
pub struct Layout {
    /// The index of the executable segment's header in the input.
    pub code: usize,
    pub area: Area,
    pub shift: Shift,
    /// Where the input's bytes are beside the area.
    pub parts: Parts,
    /// The bytes of the area from its new code on.
    pub bytes: Vec<u8>,
}

impl Layout {
    ghost use Rattle.std.specs.Prelude.{◌≡◌, ◌≤◌, IfOk, codes};
    ghost use Rattle.elf_parts.specs.Parts.{size_of};
    ghost use Rattle.elf_make.specs.AreaTables.{HoldsTables};
    ghost use Rattle.elf_plan.specs.Plans.{IsPlanOf};
    ghost use Rattle.elf_plan.specs.TableSizes as spec;
    ghost use Rattle.elf_make.specs.FileParts.{IsLaidOut};

    /// The loaded part of the file that `plan` was made for, with the same new code and tables.
    pub fn new(
        alloc: Global,
        elf: &Elf,
        plan: &Plan,
        code: &[u8],
        tables: &[Table],
    ) -> Result<Layout, Unwritable>
        requires { IsPlanOf elf.now tables.now code.now plan.now.area.tight plan.now }
        ensures laid_out { IfOk result (IsLaidOut elf.now plan.now.area.tight code.now
            (spec.table_size tables.now (codes ".eh_frame"))
            (spec.table_size tables.now (codes ".eh_frame_hdr"))) }
        ensures tables { IfOk result (HoldsTables tables.now) }
        ensures area { IfOk result (λ layout. layout.area ≡ plan.now.area) }
        ensures shift { IfOk result (λ layout. layout.shift ≡ plan.now.shift) }
        ensures code { IfOk result (λ layout. layout.code ≡ plan.now.code) }
    {
        let segments = elf.segments.as_slice();
        let (area, shift) = (plan.area, plan.shift);
        let bytes = area_bytes(alloc, &area, code, tables)?;
        let parts = parts_of(segments, &area, &shift, elf.file.len(), bytes.len())?;
        Ok(Layout {
            code: plan.code,
            area,
            shift,
            parts,
            bytes,
        })
    }

    /// The offset at which the tail begins.
    pub fn end(&self) -> Result<u64, Unwritable>
        requires { self.now.parts.low ≤ self.now.parts.high }
        ensures { IfOk result (λ end. end ≡ size_of self.now.parts) }
    {
        let moved = self.parts.high - self.parts.low;
        limited(sum(self.parts.behind_at as u64, moved as u64)?)
    }
}

/// Whether the new code of a map has a segment of its own. Elsewhere it starts after the executable segment, so a byte
/// of it is at that address.
pub fn is_above(elf: &Elf, map: &AddrMap) -> Result<bool, Unwritable>
    ensures { IfOk result (λ above. above ≡ is_none (owner map.now (area_start elf.now.segments.items))) }
{
    let start = area_start_of(&elf.segments, false).ok_or(Unwritable::Layout)?;
    Ok(map.owner(start).is_none())
}
