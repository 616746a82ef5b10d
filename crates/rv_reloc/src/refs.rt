// The references to a file's code.
ghost use Rattle.std.specs.Prelude.{ℕ, List, IfOk, IfErr, OnOk};
ghost use Rattle.elf_code.specs.FileCode.{AreStarts};
ghost use Rattle.rb_bytes.specs.FirstFault.{IsFree, IsRefusalBy};
ghost use Rattle.elf_code.specs.ReferenceFaults.{HasReferenceFault};
ghost use Rattle.code_starts.specs.LoadedMemory.{IsLow};
ghost use Rattle.rv_reloc.specs.Lows.{AreLows};
ghost use Rattle.code_starts.specs.Parts.{AreCodeParts};
ghost use Rattle.rv_reloc.specs.Records.{AreRecords};
ghost use Rattle.rv_reloc.specs.Refs.{AreRefs, IsRead};

use crate::cells::{cells, counted_fields};
use crate::claim_lists::roles;
use crate::faults::check;
use crate::lows::{Low, lows};
use crate::misfits::lowest_misfit;
use crate::records::{Record, records};
use crate::slots::slot_labels;
use code_starts::parts::{Part, code_parts};
use code_starts::start_index::Starts;
use code_starts::whole::whole_parts;
use elf_image::Elf;
use rb_bytes::fault::Refusal;
use rv_code::{CodeCell, Role};
use std::alloc::Global;

/// The references of a file.
#[derive(Drop)]
pub struct Refs {
    /// The instructions with a part of an address, by address.
    pub roles: Vec<(u64, Role)>,
    /// The data fields with code addresses or differences of them, by address.
    pub cells: Vec<CodeCell>,
}

/// The references of a file, or the first of the faults `RelocType`, `RelocMismatch`, `LoMismatch`, `NarrowDiff`,
/// `IfuncOrPlt` and `AlreadyMoved`. `starts` are the starts of the file's instructions, and `whole` the ranges with
/// exception tables, by their starts and ends. psABI, "Relocations".
pub fn references(
    alloc: Global,
    elf: &Elf,
    starts: &[u64],
    whole: &[(u64, u64)],
) -> Result<Refs, Refusal>
    requires read { IsRead elf.now }
    requires starts { AreStarts elf.now starts.now }
    ensures refs { IfOk result (AreRefs elf.now whole.now) }
    ensures free { OnOk result (IsFree (HasReferenceFault elf.now whole.now)) }
    ensures fault { IfErr result (IsRefusalBy (HasReferenceFault elf.now whole.now)) }
{
    let parts = code_parts(alloc, elf)?;
    let records = records(alloc, elf)?;
    let index = Starts::new(alloc, starts, &parts)?;
    let lows = lows(alloc, elf, &index, &parts, &records)?;
    references_by(alloc, elf, &index, whole, &parts, &records, &lows)
}

// The references, from the file's code parts, its relocations and its lower parts.
fn references_by(
    alloc: Global,
    elf: &Elf,
    starts: &Starts,
    whole: &[(u64, u64)],
    parts: &[Part],
    records: &[Record],
    lows: &[Low],
) -> Result<Refs, Refusal>
    requires low { IsLow elf.now }
    requires starts { AreStarts elf.now starts.now }
    requires parts { AreCodeParts elf.now parts.now }
    requires records { AreRecords elf.now records.now }
    requires lows { AreLows elf.now lows.now }
    ensures refs { IfOk result (AreRefs elf.now whole.now) }
    ensures free { OnOk result (IsFree (HasReferenceFault elf.now whole.now)) }
    ensures fault { IfErr result (IsRefusalBy (HasReferenceFault elf.now whole.now)) }
{
    let labels = slot_labels(alloc, elf, records)?;
    let wholes = whole_parts(alloc, elf, starts.list(), parts, whole)?;
    let counted = counted_fields(alloc, elf, starts, parts, &wholes, records, &labels, lows)?;
    let misfit = lowest_misfit(alloc, elf, starts, parts, lows, &labels, records)?;
    check(elf, starts, &wholes, records, lows, &counted, misfit)?;
    let roles = roles(alloc, elf, starts, parts, lows, records)?;
    let cells = cells(alloc, &counted)?;
    Ok(Refs { roles, cells })
}
