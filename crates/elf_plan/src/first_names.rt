// The symbols that give functions their names.
ghost use Rattle.std.specs.Prelude.{◌≡◌, IfOk, List};
ghost use Rattle.rv_code.specs.layout.FunctionLists.{AreLaidOut};
ghost use Rattle.elf_image.specs.declared.symbol.Symbol.{Symbol};
ghost use Rattle.elf_plan.specs.ColdSymbols as spec;
ghost use Rattle.elf_plan.specs.FirstNames.{AreFirstNames};

use crate::fragments::start_around;
use elf_image::Symbol;
use rb_bytes::fault::NoMemory;
use rv_code::Func;
use std::alloc::Global;
use std::collections::BTreeMap;

/// The first symbol of each function, by the start address of the function.
pub fn first_names<'a>(
    alloc: Global,
    symbols: &[Symbol<'a>],
) -> Result<BTreeMap<u64, Symbol<'a>>, NoMemory>
    ensures { IfOk result (AreFirstNames symbols.now) }
{
    let mut names = BTreeMap::new(alloc);
    for symbol in symbols {
        if symbol.names_function() && !names.contains_key(&symbol.value) {
            names.insert(symbol.value, *symbol)?;
        }
    }
    Ok(names)
}

/// The symbol that gives the cold part at the input address `address` its name: that of the function around it.
pub fn named_around<'a>(
    names: &BTreeMap<u64, Symbol<'a>>,
    funcs: &[Func],
    address: u64,
) -> Option<Symbol<'a>>
    requires { AreLaidOut funcs.now }
    ensures { (symbols : List Symbol) → AreFirstNames symbols names.now →
        result ≡ spec.named_around symbols funcs.now address }
{
    names.get(&start_around(funcs, address)?).copied()
}
