// The addresses that are referred to.
ghost use Rattle.std.specs.Prelude.{◌≡◌, ◌↔◌, ℕ, List, Any, IfOk, OnOk, IsTrue, Some, Contains};
ghost use Rattle.std.specs.List.Sorted.{IsNonDecreasingBy};
ghost use Rattle.rv_code.specs.layout.ProgramCode.{RoleNames, CellNames};
ghost use Rattle.elf_code.specs.FileCode.{AreStarts};
ghost use Rattle.code_starts.specs.Parts.{AreCodeParts};
ghost use Rattle.rv_reloc.specs.Refs.{AreRefs};
ghost use Rattle.rb_bytes.specs.Lists.{Gains};
ghost use Rattle.func_find.specs.Referents.{AreReferred, GoesTo, PartGoesTo};

use crate::valid::valid_before;
use code_starts::instruction_starts::starts_in;
use code_starts::parts::Part;
use elf_image::Elf;
use elf_image::function_bounds::make_ascending;
use rb_bytes::fault::NoMemory;
use rb_bytes::lists::push_some;
use rv_code::flow::target;
use rv_code::{CellKind, CodeCell, Role};
use rv_reloc::Refs;
use std::alloc::Global;

/// The addresses that are referred to, prepared for searches.
#[derive(Drop)]
pub struct Referred {
    // Ascending.
    addresses: Vec<u64>,
    ghost rising: { IsNonDecreasingBy (λ a. a) addresses.items },
}

impl Referred {
    /// The addresses that a branch or jump, a role, a cell or the entry point refers to. `starts` and `parts` are those
    /// of the file.
    pub fn new(
        alloc: Global,
        elf: &Elf,
        starts: &[u64],
        parts: &[Part],
        refs: &Refs,
    ) -> Result<Referred, NoMemory>
        requires starts { AreStarts elf.now starts.now }
        requires parts { AreCodeParts elf.now parts.now }
        ensures { IfOk result
            (λ r. (tabled : List (ℕ × ℕ)) → AreRefs elf.now tabled refs.now →
            AreReferred elf.now tabled r.addresses.items) }
    {
        let mut addresses = Vec::new(alloc);
        addresses.push(elf.entry)?;
        push_targets(&mut addresses, elf, starts, parts)?;
        push_roles(&mut addresses, &refs.roles)?;
        push_cells(&mut addresses, &refs.cells)?;
        make_ascending(&mut addresses);
        Ok(Referred { addresses })
    }

    /// Whether an address is referred to.
    pub fn has(&self, address: u64) -> bool
        ensures { IsTrue result ↔ Contains self.now.addresses.items address }
    {
        self.addresses.binary_search(&address).is_ok()
    }
}

// Appends the targets of the instructions of parts.
fn push_targets(
    addresses: &mut Vec<u64>,
    elf: &Elf,
    starts: &[u64],
    parts: &[Part],
) -> Result<(), NoMemory>
    requires starts { AreStarts elf.now starts.now }
    requires parts { AreCodeParts elf.now parts.now }
    ensures { OnOk result (Gains addresses.old.items addresses.new.items
        (λ a. Any (λ p. PartGoesTo elf.now p a) parts.now)) }
{
    for part in parts {
        push_targets_of(addresses, elf, part.end, starts_in(starts, part))?;
    }
    Ok(())
}

// Appends the targets of the instructions at some addresses of a part.
fn push_targets_of(
    addresses: &mut Vec<u64>,
    elf: &Elf,
    end: u64,
    froms: &[u64],
) -> Result<(), NoMemory>
    ensures { OnOk result
        (Gains addresses.old.items addresses.new.items (λ a. Any (λ from. GoesTo elf.now end from a) froms.now)) }
{
    for from in froms {
        push_some(addresses, target_of(elf, end, *from))?;
    }
    Ok(())
}

// The target of the instruction at an address of a part.
fn target_of(elf: &Elf, end: u64, from: u64) -> Option<u64>
    ensures { (a : ℕ) → (result ≡ Some a) ↔ GoesTo elf.now end from a }
{
    if from >= end {
        return None;
    }
    let (inst, _) = valid_before(elf, end, from)?;
    target(from, &inst)
}

/// Appends the addresses that roles refer to.
pub fn push_roles(addresses: &mut Vec<u64>, roles: &[(u64, Role)]) -> Result<(), NoMemory>
    ensures { OnOk result (Gains addresses.old.items addresses.new.items (λ a. Any (λ r. RoleNames r.1 a) roles.now)) }
{
    for role in roles {
        push_some(addresses, role_target(&role.1))?;
    }
    Ok(())
}

// The address that a role refers to.
fn role_target(role: &Role) -> Option<u64>
    ensures { (a : ℕ) → (result ≡ Some a) ↔ RoleNames role.now a }
{
    match *role {
        Role::Plain => None,
        Role::CallHi { target }
        | Role::CallLo { target, .. }
        | Role::Hi { target }
        | Role::Lo { target, .. }
        | Role::AbsHi { target }
        | Role::AbsLo { target } => Some(target),
    }
}

/// Appends the addresses that cells refer to.
pub fn push_cells(addresses: &mut Vec<u64>, cells: &[CodeCell]) -> Result<(), NoMemory>
    ensures { OnOk result (Gains addresses.old.items addresses.new.items (λ a. Any (λ c. CellNames c a) cells.now)) }
{
    for cell in cells {
        push_cell(addresses, cell)?;
    }
    Ok(())
}

fn push_cell(addresses: &mut Vec<u64>, cell: &CodeCell) -> Result<(), NoMemory>
    ensures { OnOk result (Gains addresses.old.items addresses.new.items (λ a. CellNames cell.now a)) }
{
    match cell.kind {
        CellKind::Abs { to } => {
            addresses.push(to)?;
        }
        CellKind::Diff { to, from } => {
            addresses.push(to)?;
            addresses.push(from)?;
        }
    }
    Ok(())
}
