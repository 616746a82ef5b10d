// The instructions of a function that cells refer to.
ghost use Rattle.std.specs.Prelude.{◌≡◌, ◌<◌, ◌↔◌, ℕ, AllPairs, Any, Contains, IfOk};
ghost use Rattle.rv_code.specs.layout.ProgramCode.{CellNames};
ghost use Rattle.jump_tables.specs.TablePairs.{IsLabel};

use code_starts::code::is_start;
use elf_image::function_bounds::make_ascending;
use func_find::referred::push_cells;
use rb_bytes::fault::NoMemory;
use rv_code::{CodeCell, Placed};
use std::alloc::Global;

/// The addresses that cells refer to, ascending.
pub fn named_addresses(alloc: Global, cells: &[CodeCell]) -> Result<Vec<u64>, NoMemory>
    ensures ascending { IfOk result (λ named. AllPairs (λ a b. a < b) named.items) }
    ensures members { IfOk result (λ named. (a : ℕ) → Contains named.items a ↔ Any (λ c. CellNames c a) cells.now) }
{
    let mut named = Vec::new(alloc);
    push_cells(&mut named, cells)?;
    make_ascending(&mut named);
    Ok(named)
}

/// The addresses in `named` at which one of `insts` starts.
pub fn labels(alloc: Global, insts: &[Placed], named: &[u64]) -> Result<Vec<u64>, NoMemory>
    requires { AllPairs (λ a b. a < b) named.now }
    ensures { IfOk result (λ labels. (a : ℕ) → Contains labels.items a ↔ IsLabel insts.now named.now a) }
{
    let mut labels = Vec::new(alloc);
    for inst in insts {
        if !is_start(named, inst.addr) {
            continue;
        }
        labels.push(inst.addr)?;
    }
    Ok(labels)
}
