// The bytes of the new area: the new code, and the tables that are loaded after it.
ghost use Rattle.std.specs.Prelude.{◌≡◌, ◌-◌, ℕ, List, IfOk, IfSome, OnOk, codes};
ghost use Rattle.elf_parts.specs.Patches.{Stands};
ghost use Rattle.elf_plan.specs.NewSections.{bytes_called};

use elf_image::named::{EH_FRAME, EH_FRAME_HDR};
use elf_parts::patch::fill_to;
use elf_plan::area::Area;
use elf_plan::given_tables::{Table, bytes_called};
use elf_plan::unwritable::Unwritable;
use std::alloc::Global;

// Appends `table` at `address`, if it has one, with zeros before it. `bytes` are those from the address `start` on.
fn add_table(
    bytes: &mut Vec<u8>,
    start: u64,
    address: Option<u64>,
    table: &[u8],
) -> Result<(), Unwritable>
    ensures keeps { OnOk result ((o : ℕ) (xs : List ℕ) → Stands bytes.old.items o xs → Stands bytes.new.items o xs) }
    ensures adds { OnOk result (IfSome address (λ a. Stands bytes.new.items (a - start) table.now)) }
{
    let Some(address) = address else {
        return Ok(());
    };
    let place = address.saturating_sub(start) as usize;
    if place < bytes.len() {
        return Err(Unwritable::Layout);
    }
    fill_to(bytes, place)?;
    bytes.extend_from_slice(table)?;
    Ok(())
}

/// The bytes of the area from its new code on: the code, and the loaded tables at their addresses.
pub fn area_bytes(
    alloc: Global,
    area: &Area,
    code: &[u8],
    tables: &[Table],
) -> Result<Vec<u8>, Unwritable>
    ensures code { IfOk result (λ bytes. Stands bytes.items 0 code.now) }
    ensures frames { IfOk result (λ bytes. IfSome area.now.frames
        (λ a. Stands bytes.items (a - area.now.start) (bytes_called tables.now (codes ".eh_frame")))) }
    ensures index { IfOk result (λ bytes. IfSome area.now.index
        (λ a. Stands bytes.items (a - area.now.start) (bytes_called tables.now (codes ".eh_frame_hdr")))) }
{
    let mut bytes = Vec::from_slice(alloc, code)?;
    let frames = bytes_called(tables, EH_FRAME);
    add_table(&mut bytes, area.start, area.frames, frames)?;
    let index = bytes_called(tables, EH_FRAME_HDR);
    add_table(&mut bytes, area.start, area.index, index)?;
    Ok(bytes)
}
