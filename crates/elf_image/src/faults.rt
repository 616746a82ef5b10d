// Looks for the faults of a file in the order of their numbers.
ghost use Rattle.std.specs.Prelude.{◌≡◌, MatchOption, MatchResult, OnOk, IfErr};
ghost use Rattle.rb_bytes.specs.Fault.{fault_at};
ghost use Rattle.rb_bytes.specs.declared.fault.FaultKind.TheVariants as kind;
ghost use Rattle.rb_bytes.specs.FirstFault.{LacksBelow};
ghost use Rattle.elf_image.specs.faults.Truncation.{IsReadable};
ghost use Rattle.elf_image.specs.file.Header.{e_shnum};
ghost use Rattle.elf_image.specs.faults.LowestPlace.{IsLowest};
ghost use Rattle.elf_image.specs.faults.FileFaults.{HasFault, IsFirstFault, IsRefusal};
ghost use Rattle.elf_image.specs.file.ParsedFile.{AreSections};

pub mod checks;
pub mod loading;
pub mod overlap;
pub mod segment_extents;
pub mod stray;
pub mod truncated;

use crate::entries::SegmentTable;
use crate::faults::checks::{
    lowest_compressed, lowest_high_address, lowest_not_static, lowest_other_flags,
    lowest_writable_code,
};
use crate::faults::loading::lowest_bad_loading;
use crate::faults::truncated::lowest_truncated;
use crate::header::{Header, is_elf};
use crate::lowest::place_if;
use crate::section::Section;
use rb_bytes::fault::{Fault, FaultKind, Refusal};
use std::alloc::Global;

/// An error with a fault of this kind, if it has a place.
pub fn refuse_at(kind: FaultKind, lowest: Option<u64>) -> Result<(), Fault>
    ensures { MatchOption lowest (result ≡ Ok (record {})) (λ place. result ≡ Err (fault_at kind place)) }
{
    match lowest {
        Some(place) => Err(Fault::at(kind, place)),
        None => Ok(()),
    }
}

fn lowest_not_elf(file: &[u8]) -> Option<u64>
    ensures { IsLowest (HasFault file.now kind.NotElf) result }
{
    place_if(!is_elf(file), 0)
}

/// Looks for the faults of headers, tables and the structures that they refer to: `NotElf`, `Truncated`, `Flags` and
/// `NotStatic`. The error is the first in this order.
pub fn check_structure(file: &[u8]) -> Result<(), Fault>
    ensures readable { OnOk result (IsReadable file.now) }
    ensures checked { MatchResult result (λ _. LacksBelow (HasFault file.now) 5) (IsFirstFault file.now) }
{
    refuse_at(FaultKind::NotElf, lowest_not_elf(file))?;
    refuse_at(FaultKind::Truncated, lowest_truncated(file))?;
    refuse_at(FaultKind::Flags, lowest_other_flags(Header { file }))?;
    refuse_at(
        FaultKind::NotStatic,
        lowest_not_static(SegmentTable { file }),
    )
}

// Looks for faults of the layout, in a file without the faults of `check_structure`. `loading` is the lowest place of
// `ExecSegments`, the only one of these faults whose search allocates.
fn check_places(file: &[u8], sections: &[Section], loading: Option<u64>) -> Result<(), Fault>
    requires readable { IsReadable file.now }
    requires lacks { LacksBelow (HasFault file.now) 5 }
    requires sections { AreSections file.now (e_shnum file.now) sections.now }
    requires loading { IsLowest (HasFault file.now kind.ExecSegments) loading }
    ensures { MatchResult result (λ _. LacksBelow (HasFault file.now) 9) (IsFirstFault file.now) }
{
    let segments = SegmentTable { file };
    refuse_at(FaultKind::ExecSegments, loading)?;
    refuse_at(FaultKind::WritableCode, lowest_writable_code(segments))?;
    refuse_at(FaultKind::HighAddress, lowest_high_address(segments))?;
    refuse_at(FaultKind::CompressedSection, lowest_compressed(sections))
}

/// Looks for the faults of the layout, in a file without the faults of [`check_structure`]: `ExecSegments`,
/// `WritableCode`, `HighAddress` and `CompressedSection`. The error is the first in this order.
pub fn check_layout(alloc: Global, file: &[u8], sections: &[Section]) -> Result<(), Refusal>
    requires readable { IsReadable file.now }
    requires lacks { LacksBelow (HasFault file.now) 5 }
    requires sections { AreSections file.now (e_shnum file.now) sections.now }
    ensures lacks { OnOk result (LacksBelow (HasFault file.now) 9) }
    ensures fault { IfErr result (IsRefusal file.now) }
{
    let loading = lowest_bad_loading(alloc, file, sections)?;
    check_places(file, sections, loading)?;
    Ok(())
}
