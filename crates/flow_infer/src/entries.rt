// The addresses at which control comes into functions from outside.
ghost use Rattle.std.specs.Prelude.{◌≡◌, ◌↔◌, ◌<◌, ℕ, IfOk, OnOk, Any, AllPairs, Some, false};
ghost use Rattle.rv_code.specs.layout.Flow.{target_of};
ghost use Rattle.rv_code.specs.layout.FunctionMembers.{func_holds};
ghost use Rattle.rb_bytes.specs.Lists.{Gains};
ghost use Rattle.cfg_build.specs.NamedAddresses.{code_of};
ghost use Rattle.flow_infer.specs.Links.{IsFarTarget};
ghost use Rattle.flow_infer.specs.Sources.{AreEntries};

use elf_image::function_bounds::make_ascending;
use func_find::referred::{push_cells, push_roles};
use rb_bytes::fault::NoMemory;
use rb_bytes::lists::push_some;
use rv_code::flow::target;
use rv_code::functions::func_holds;
use rv_code::{Func, Placed};
use rv_reloc::Refs;
use std::alloc::Global;

/// The addresses that a role, a cell or the entry point holds, and the targets of branches and jumps that leave their
/// function; ascending.
pub fn entries(alloc: Global, funcs: &[Func], refs: &Refs, entry: u64) -> Result<Vec<u64>, NoMemory>
    ensures ascending { IfOk result (λ entries. AllPairs (λ a b. a < b) entries.items) }
    ensures members { IfOk result (λ entries. AreEntries (code_of funcs.now refs.now entry) entries.items) }
{
    let mut entries = Vec::new(alloc);
    entries.push(entry)?;
    push_far_targets(&mut entries, funcs)?;
    push_roles(&mut entries, &refs.roles)?;
    push_cells(&mut entries, &refs.cells)?;
    make_ascending(&mut entries);
    Ok(entries)
}

// Appends the targets of branches and jumps that leave their function.
fn push_far_targets(addresses: &mut Vec<u64>, funcs: &[Func]) -> Result<(), NoMemory>
    ensures { OnOk result (Gains addresses.old.items addresses.new.items (IsFarTarget funcs.now)) }
{
    for func in funcs {
        push_far_targets_of(addresses, func, &func.insts)?;
    }
    Ok(())
}

// Appends the targets outside `func` of `insts`.
fn push_far_targets_of(
    addresses: &mut Vec<u64>,
    func: &Func,
    insts: &[Placed],
) -> Result<(), NoMemory>
    ensures { OnOk result (Gains addresses.old.items addresses.new.items
        (λ a. Any (λ p. (target_of p ≡ Some a) × (func_holds a func.now ≡ false)) insts.now)) }
{
    for inst in insts {
        push_some(addresses, far_target(func, inst))?;
    }
    Ok(())
}

/// The target of `inst`, if it is a direct branch or jump that leaves `func`.
pub fn far_target(func: &Func, inst: &Placed) -> Option<u64>
    ensures { (a : ℕ) → (result ≡ Some a) ↔ ((target_of inst.now ≡ Some a) × (func_holds a func.now ≡ false)) }
{
    let target = target(inst.addr, &inst.inst)?;
    if func_holds(func, target) {
        return None;
    }
    Some(target)
}
