// The functions of a file.
ghost use Rattle.std.specs.Prelude.{◌≡◌, ◌<◌, IfOk, IfErr, OnOk, AllPairs};
ghost use Rattle.elf_code.specs.FileCode.{AreStarts};
ghost use Rattle.elf_code.specs.Functions.{AreFunctions};
ghost use Rattle.rb_bytes.specs.FirstFault.{IsFree, IsRefusalBy};
ghost use Rattle.elf_code.specs.FunctionFaults.{HasFunctionFault};
ghost use Rattle.elf_image.specs.faults.LowestPlace.{IsLowest};
ghost use Rattle.code_starts.specs.Parts.{AreCodeParts, ArePartsApart};
ghost use Rattle.rv_reloc.specs.Refs.{AreRefs};
ghost use Rattle.func_find.specs.Targets.{IsBadStart};

use crate::function_parts::kept_parts;
use crate::inst_lists::functions_of;
use crate::targets::{is_inst_start, lowest_misled};
use code_starts::parts::{Part, code_parts};
use code_starts::start_index::Starts;
use code_starts::whole::whole_parts;
use elf_image::Elf;
use elf_image::lowest::place_if;
use rb_bytes::fault::{Fault, FaultKind, Refusal};
use rv_code::Func;
use rv_reloc::Refs;
use std::alloc::Global;

/// The functions of a file, by address, with their instructions and roles, or the first of the faults `BadEntry`,
/// `BadInstruction` or `BareAuipc`, and `BadTarget`. `starts` and `refs` are those of the file, and `whole` the ranges
/// with exception tables, by their starts and ends.
pub fn functions(
    alloc: Global,
    elf: &Elf,
    starts: &[u64],
    refs: &Refs,
    whole: &[(u64, u64)],
) -> Result<Vec<Func>, Refusal>
    requires starts { AreStarts elf.now starts.now }
    requires refs { AreRefs elf.now whole.now refs.now }
    ensures functions { IfOk result (λ funcs. AreFunctions elf.now whole.now funcs.items) }
    ensures free { OnOk result (IsFree (HasFunctionFault elf.now whole.now)) }
    ensures fault { IfErr result (IsRefusalBy (HasFunctionFault elf.now whole.now)) }
{
    let parts = code_parts(alloc, elf)?;
    let index = Starts::new(alloc, starts, &parts)?;
    functions_by(alloc, elf, &index, &parts, refs, whole)
}

// The result of `functions`, from starts that are prepared for searches, and the file's code parts. Faults are searched
// in the order of their numbers.
fn functions_by(
    alloc: Global,
    elf: &Elf,
    starts: &Starts,
    parts: &[Part],
    refs: &Refs,
    whole: &[(u64, u64)],
) -> Result<Vec<Func>, Refusal>
    requires starts { AreStarts elf.now starts.now }
    requires parts { AreCodeParts elf.now parts.now }
    requires refs { AreRefs elf.now whole.now refs.now }
    ensures functions { IfOk result (λ funcs. AreFunctions elf.now whole.now funcs.items) }
    ensures free { OnOk result (IsFree (HasFunctionFault elf.now whole.now)) }
    ensures fault { IfErr result (IsRefusalBy (HasFunctionFault elf.now whole.now)) }
{
    let function_parts = kept_parts(alloc, elf, starts.list(), parts, refs)?;
    let whole_parts = whole_parts(alloc, elf, starts.list(), parts, whole)?;
    let kept = function_parts.as_slice();
    if let Some(place) = lowest_bad_start(starts, kept, elf.entry) {
        return Err(Refusal::Fault(Fault::at(FaultKind::BadEntry, place)));
    }
    let wholes = whole_parts.as_slice();
    let funcs = functions_of(alloc, elf, kept, wholes, &refs.roles)?;
    match lowest_misled(starts, kept, &funcs) {
        Some(place) => Err(Refusal::Fault(Fault::at(FaultKind::BadTarget, place))),
        None => Ok(funcs),
    }
}

// The address, if it isn't the start of an instruction of a function.
fn lowest_bad_start(starts: &Starts, parts: &[Part], address: u64) -> Option<u64>
    requires starts { AllPairs (λ a b. a < b) starts.now }
    requires parts { ArePartsApart parts.now }
    ensures { IsLowest (IsBadStart starts.now parts.now address) result }
{
    place_if(!is_inst_start(starts, parts, address), address)
}
