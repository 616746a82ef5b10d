// Branches, jumps and calls whose target isn't an instruction.
ghost use Rattle.std.specs.Prelude.{◌≡◌, ◌↔◌, ◌<◌, ℕ, AllPairs, IsTrue};
ghost use Rattle.elf_image.specs.faults.LowestPlace.{IsLowest};
ghost use Rattle.code_starts.specs.Parts.{ArePartsApart};
ghost use Rattle.rv_reloc.specs.Places.{IsPlaceOf};
ghost use Rattle.func_find.specs.Targets.{CallsInside, HasMisled, IsCodeIn, InSomePart, IsInsideIn, IsMisled};
ghost use Rattle.func_find.specs.Targets.{JumpsNowhere};

use code_starts::parts::Part;
use code_starts::start_index::Starts;
use elf_image::lowest::{lower, place_if};
use rv_code::flow::target;
use rv_code::{Func, Placed, Role};

/// Whether an address is the start of an instruction of one of these parts.
pub fn is_inst_start(starts: &Starts, parts: &[Part], address: u64) -> bool
    requires starts { AllPairs (λ a b. a < b) starts.now }
    requires parts { ArePartsApart parts.now }
    ensures { IsTrue result ↔ IsCodeIn starts.now parts.now address }
{
    starts.has(address) && is_held(starts, parts, address)
}

// Whether one of the parts contains an address. `starts` only serve the search.
fn is_held(starts: &Starts, parts: &[Part], address: u64) -> bool
    requires { ArePartsApart parts.now }
    ensures { IsTrue result ↔ InSomePart parts.now address }
{
    starts.part_at(parts, address).is_some()
}

// Whether an address is in one of the parts and isn't the start of an instruction.
fn is_inside(starts: &Starts, parts: &[Part], address: u64) -> bool
    requires starts { AllPairs (λ a b. a < b) starts.now }
    requires parts { ArePartsApart parts.now }
    ensures { IsTrue result ↔ IsInsideIn starts.now parts.now address }
{
    is_held(starts, parts, address) && !starts.has(address)
}

/// The lowest address of an instruction whose target isn't an instruction: the fault `BadTarget`. `parts` are the parts
/// that are functions.
pub fn lowest_misled(starts: &Starts, parts: &[Part], funcs: &[Func]) -> Option<u64>
    requires starts { AllPairs (λ a b. a < b) starts.now }
    requires parts { ArePartsApart parts.now }
    ensures { IsLowest (HasMisled starts.now parts.now funcs.now) result }
{
    let mut lowest = None;
    for func in funcs {
        lowest = lower(lowest, lowest_misled_of(starts, parts, &func.insts));
    }
    lowest
}

fn lowest_misled_of(starts: &Starts, parts: &[Part], insts: &[Placed]) -> Option<u64>
    requires starts { AllPairs (λ a b. a < b) starts.now }
    requires parts { ArePartsApart parts.now }
    ensures { IsLowest (IsPlaceOf (λ p. p.addr) (IsMisled starts.now parts.now) insts.now) result }
{
    let mut lowest = None;
    for inst in insts {
        lowest = lower(lowest, place_if(is_misled(starts, parts, inst), inst.addr));
    }
    lowest
}

// Whether the target of an instruction isn't an instruction.
fn is_misled(starts: &Starts, parts: &[Part], inst: &Placed) -> bool
    requires starts { AllPairs (λ a b. a < b) starts.now }
    requires parts { ArePartsApart parts.now }
    ensures { IsTrue result ↔ IsMisled starts.now parts.now inst.now }
{
    jumps_nowhere(starts, parts, inst) || calls_inside(starts, parts, inst)
}

// Whether the target of a branch or a JAL isn't the start of an instruction.
fn jumps_nowhere(starts: &Starts, parts: &[Part], inst: &Placed) -> bool
    requires starts { AllPairs (λ a b. a < b) starts.now }
    requires parts { ArePartsApart parts.now }
    ensures { IsTrue result ↔ JumpsNowhere starts.now parts.now inst.now }
{
    match target(inst.addr, &inst.inst) {
        Some(to) => !is_inst_start(starts, parts, to),
        None => false,
    }
}

// Whether the target of a call pair is inside an instruction. The target may be outside all functions: it is a number
// then.
fn calls_inside(starts: &Starts, parts: &[Part], inst: &Placed) -> bool
    requires starts { AllPairs (λ a b. a < b) starts.now }
    requires parts { ArePartsApart parts.now }
    ensures { IsTrue result ↔ CallsInside starts.now parts.now inst.now }
{
    match inst.role {
        Role::CallHi { target } => is_inside(starts, parts, target),
        Role::Plain
        | Role::CallLo { .. }
        | Role::Hi { .. }
        | Role::Lo { .. }
        | Role::AbsHi { .. }
        | Role::AbsLo { .. } => false,
    }
}
