// The addresses at which blocks start since something refers to them.
ghost use Rattle.std.specs.Prelude.{◌≡◌, IfOk, OnOk, Any, Some};
ghost use Rattle.rv_code.specs.layout.Flow.{target_of};
ghost use Rattle.rb_bytes.specs.Lists.{Gains};
ghost use Rattle.cfg_build.specs.NamedAddresses.{code_of, AreEntered};

use code_starts::address_set::AddressSet;
use func_find::referred::{push_cells, push_roles};
use rb_bytes::fault::NoMemory;
use rb_bytes::lists::push_some;
use rv_code::flow::target;
use rv_code::{Func, Placed};
use rv_reloc::Refs;
use std::alloc::Global;

// The most marks of addresses for each address that is entered. Code of a usual file has fewer bytes.
const MOST_MARKS: usize = 64;

/// The targets of branches and jumps of functions, and the addresses that a role, a cell or the entry point has.
pub fn entered_addresses(
    alloc: Global,
    funcs: &[Func],
    refs: &Refs,
    entry: u64,
) -> Result<AddressSet, NoMemory>
    ensures { IfOk result (AreEntered (code_of funcs.now refs.now entry)) }
{
    let mut entered = Vec::new(alloc);
    entered.push(entry)?;
    push_targets(&mut entered, funcs)?;
    push_roles(&mut entered, &refs.roles)?;
    push_cells(&mut entered, &refs.cells)?;
    let (low, width) = bounds(funcs);
    let most = entered.len().saturating_mul(MOST_MARKS);
    AddressSet::new(alloc, &entered, low, width.min(most))
}

// The start of the first function, and the number of bytes from there to the end of the last one.
fn bounds(funcs: &[Func]) -> (u64, usize) {
    let low = funcs.first().map_or(0, |func| func.start);
    let end = funcs.last().map_or(0, |func| func.end);
    (low, end.saturating_sub(low) as usize)
}

// Appends the targets of branches and jumps of functions.
fn push_targets(addresses: &mut Vec<u64>, funcs: &[Func]) -> Result<(), NoMemory>
    ensures { OnOk result (Gains addresses.old.items addresses.new.items
        (λ a. Any (λ f. Any (λ p. target_of p ≡ Some a) f.insts.items) funcs.now)) }
{
    for func in funcs {
        push_targets_of(addresses, &func.insts)?;
    }
    Ok(())
}

// Appends the targets of instructions.
fn push_targets_of(addresses: &mut Vec<u64>, insts: &[Placed]) -> Result<(), NoMemory>
    ensures { OnOk result (Gains addresses.old.items addresses.new.items
        (λ a. Any (λ p. target_of p ≡ Some a) insts.now)) }
{
    for inst in insts {
        push_some(addresses, target(inst.addr, &inst.inst))?;
    }
    Ok(())
}
