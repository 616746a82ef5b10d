// The faults of a file's references, in the order of their numbers.
ghost use Rattle.std.specs.List.Sorted.{IsNonDecreasingBy};
ghost use Rattle.std.specs.Prelude.{ℕ, List, OnOk, IfErr, MatchResult};
ghost use Rattle.elf_code.specs.FileCode.{AreStarts};
ghost use Rattle.elf_code.specs.Relocations.{HasRelocation};
ghost use Rattle.rb_bytes.specs.FirstFault.{IsAnswered, LacksBelow};
ghost use Rattle.rb_bytes.specs.declared.fault.FaultKind.TheVariants as kind;
ghost use Rattle.elf_image.specs.declared.elf.Elf.{Elf};
ghost use Rattle.elf_image.specs.faults.LowestPlace.{IsLowest};
ghost use Rattle.elf_code.specs.ReferenceFaults.{HasReferenceFault, IsMisfit};
ghost use Rattle.rv_reloc.specs.Lows.{AreLows};
ghost use Rattle.code_starts.specs.Parts.{ArePartsApart};
ghost use Rattle.rv_reloc.specs.Records.{AreRecords};
ghost use Rattle.rv_reloc.specs.Refs.{AreAsked};
ghost use Rattle.code_starts.specs.WholeParts.{AreWholeParts};

use crate::cells::lowest_bad_label;
use crate::differences::lowest_narrow;
use crate::ifunc::{lowest_already_moved, lowest_ifunc_or_plt};
use crate::low_mismatch::lowest_low_mismatch;
use crate::lows::Low;
use crate::records::Record;
use crate::reloc_type::lowest_reloc_type;
use crate::sweep::Candidate;
use code_starts::parts::Part;
use code_starts::start_index::Starts;
use elf_image::lowest::lower;
use elf_image::{Elf, refuse_at};
use rb_bytes::fault::{Fault, FaultKind};

// Looks for `RelocType`, `RelocMismatch` and `LoMismatch`, in this order. `mismatch` is the lowest place of
// `RelocMismatch`.
fn check_relocations(records: &[Record], lows: &[Low], mismatch: Option<u64>) -> Result<(), Fault>
    requires { IsNonDecreasingBy (λ l. l.hi) lows.now }
    ensures { (elf : Elf) (tabled : List (ℕ × ℕ)) → AreRecords elf records.now → AreLows elf lows.now →
        IsLowest (HasReferenceFault elf tabled kind.RelocMismatch) mismatch →
        MatchResult result (λ _. LacksBelow (HasReferenceFault elf tabled) 12)
        (IsAnswered (HasReferenceFault elf tabled)) }
{
    refuse_at(FaultKind::RelocType, lowest_reloc_type(records))?;
    refuse_at(FaultKind::RelocMismatch, mismatch)?;
    refuse_at(FaultKind::LoMismatch, lowest_low_mismatch(lows))
}

// Looks for `NarrowDiff`, `IfuncOrPlt` and `AlreadyMoved`, in this order, in a file without the faults of
// `check_relocations`.
fn check_cells(elf: &Elf, starts: &Starts, wholes: &[Part], records: &[Record]) -> Result<(), Fault>
    requires starts { AreStarts elf.now starts.now }
    requires wholes { ArePartsApart wholes.now }
    requires records { AreRecords elf.now records.now }
    ensures { (tabled : List (ℕ × ℕ)) → AreWholeParts elf.now tabled wholes.now →
        LacksBelow (HasReferenceFault elf.now tabled) 12 →
        MatchResult result (λ _. LacksBelow (HasReferenceFault elf.now tabled) 15)
        (IsAnswered (HasReferenceFault elf.now tabled)) }
{
    refuse_at(
        FaultKind::NarrowDiff,
        lowest_narrow(elf, starts, wholes, records),
    )?;
    refuse_at(FaultKind::IfuncOrPlt, lowest_ifunc_or_plt(elf, records))?;
    refuse_at(FaultKind::AlreadyMoved, lowest_already_moved(&elf.sections))
}

/// Looks for the faults `RelocType`, `RelocMismatch`, `LoMismatch`, `NarrowDiff`, `IfuncOrPlt` and `AlreadyMoved`, in
/// this order. All lists are those of the file. `counted` are the fields that count, and `misfit` is the lowest place
/// of a relocation that doesn't fit.
pub fn check(
    elf: &Elf,
    starts: &Starts,
    wholes: &[Part],
    records: &[Record],
    lows: &[Low],
    counted: &[Candidate],
    misfit: Option<u64>,
) -> Result<(), Fault>
    requires starts { AreStarts elf.now starts.now }
    requires wholes { ArePartsApart wholes.now }
    requires records { AreRecords elf.now records.now }
    requires lows { AreLows elf.now lows.now }
    requires misfit { IsLowest (HasRelocation elf.now (IsMisfit elf.now)) misfit }
    ensures lacks { (tabled : List (ℕ × ℕ)) → AreAsked elf.now tabled wholes.now counted.now →
        OnOk result (LacksBelow (HasReferenceFault elf.now tabled) 15) }
    ensures fault { (tabled : List (ℕ × ℕ)) → AreAsked elf.now tabled wholes.now counted.now →
        IfErr result (IsAnswered (HasReferenceFault elf.now tabled)) }
{
    let mismatch = lower(misfit, lowest_bad_label(counted));
    check_relocations(records, lows, mismatch)?;
    check_cells(elf, starts, wholes, records)
}
