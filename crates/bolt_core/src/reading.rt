// Reading tables.
ghost use Rattle.std.specs.Prelude.{IfErr, IfOk, OnOk};
ghost use Rattle.rb_bytes.specs.FirstFault.{IsFree, IsRefusalBy};
ghost use Rattle.table_set.specs.AllTables.{AllComeFrom};
ghost use Rattle.bolt_core.specs.TableFaults.{HasCarryingFault};

use elf_image::Elf;
use frame_rewrite::registered_frames;
use rb_bytes::fault::{Fault, FaultKind, Refusal};
use std::alloc::Global;
use table_set::{AllTables, read_all};

/// Reads the tables that are carried to moved code, or refuses a file: for `RegisteredFrames`, otherwise for the fault
/// of tables with the lowest number.
pub fn read_tables(alloc: Global, elf: &Elf<'_>) -> Result<AllTables, Refusal>
    ensures come { IfOk result (λ tables. AllComeFrom tables elf.now) }
    ensures free { OnOk result (IsFree (HasCarryingFault elf.now)) }
    ensures fault { IfErr result (IsRefusalBy (HasCarryingFault elf.now)) }
{
    if let Some(place) = registered_frames(elf) {
        return Err(Refusal::Fault(Fault::at(FaultKind::RegisteredFrames, place)));
    }
    let tables = read_all(alloc, elf)?;
    Ok(tables)
}
