// The plan of a written file.
ghost use Rattle.std.specs.Prelude.{IfOk};
ghost use Rattle.elf_plan.specs.KnownSections.{IsOwnOf};
ghost use Rattle.elf_plan.specs.Plans.{Arranges};

use crate::area::{Area, Shift, area_of};
use crate::given_tables::{Table, table_size};
use crate::kept_bytes::KeptBytes;
use crate::name_tables::OwnSections;
use crate::sections::{Contents, Sections, replaced_by};
use crate::unwritable::Unwritable;
use elf_image::Elf;
use elf_image::code_segment::executable_segment;
use elf_image::named::{EH_FRAME, EH_FRAME_HDR};
use std::alloc::Global;

/// The decisions on a written file before it is made. The file is made from the plan.
#[derive(Drop)]
pub struct Plan {
    /// The index of the executable segment's header in the input.
    pub code: usize,
    pub area: Area,
    pub shift: Shift,
    /// The sections that are rewritten.
    pub own: OwnSections,
    /// The positions of the contents of the input's sections.
    pub contents: Vec<Contents>,
    /// The sections whose contents are written after the loaded bytes: their offsets and indices, ascending.
    pub order: Vec<(u64, usize)>,
}

// The fields `contents` and `order` of a plan.
fn arranged(
    alloc: Global,
    elf: &Elf,
    own: OwnSections,
    tables: &[Table],
    area: &Area,
    shift: &Shift,
) -> Result<(Vec<Contents>, Vec<(u64, usize)>), Unwritable>
    requires { IsOwnOf elf.now own }
    ensures { IfOk result (λ r. Arranges elf.now tables.now area.now shift.now r.0.items r.1.items) }
{
    let replaced = replaced_by(alloc, &elf.sections, tables)?;
    let kept = KeptBytes::new(alloc, &elf.segments, area, shift)?;
    let sections = Sections {
        elf,
        own,
        replaced: &replaced,
        kept: &kept,
    };
    let contents = sections.contents(alloc)?;
    let order = sections.order(alloc)?;
    Ok((contents, order))
}

impl Plan {
    ghost use Rattle.std.specs.Prelude.{IfOk};
    ghost use Rattle.elf_plan.specs.Plans.{IsPlanOf};

    /// The plan for the file `elf` with the new code `code` and the tables `tables`. `tight` says whether the area gets
    /// its own segment.
    pub fn new(
        alloc: Global,
        elf: &Elf,
        tables: &[Table],
        code: &[u8],
        tight: bool,
    ) -> Result<Plan, Unwritable>
        ensures { IfOk result (IsPlanOf elf.now tables.now code.now tight) }
    {
        let segments = elf.segments.as_slice();
        let (index, executable) = executable_segment(segments).ok_or(Unwritable::Layout)?;
        let frames = table_size(tables, EH_FRAME);
        let header = table_size(tables, EH_FRAME_HDR);
        let area = area_of(segments, &executable, tight, code.len(), frames, header)?;
        let shift = Shift::new(segments, &executable, &area)?;
        let own = OwnSections::new(elf)?;
        let (contents, order) = arranged(alloc, elf, own, tables, &area, &shift)?;
        Ok(Plan {
            code: index,
            area,
            shift,
            own,
            contents,
            order,
        })
    }
}
