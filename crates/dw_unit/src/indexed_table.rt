// Tables of abbreviations in which declarations are looked up.
ghost use Rattle.std.specs.Prelude.{◌≡◌, IfOk};
ghost use Rattle.std.specs.List.Sorted.{IsNonDecreasing};
ghost use Rattle.dw_unit.specs.Codes.{Finds};
ghost use Rattle.dw_unit.specs.ToldLists.{told_once, codes_of};

use crate::codes::sorted_keys;
use crate::declaration::Declaration;
use crate::declaration_tests::are_named_once;
use crate::table::Table;
use rb_bytes::fault::NoMemory;
use std::alloc::Global;

/// A table with an index for the queries of each entry: the declaration of a code, and whether it names no attribute
/// twice.
#[derive(Drop)]
pub struct IndexedTable {
    pub table: Table,
    // For each declaration, whether it names no attribute twice.
    pub(crate) once: Vec<bool>,
    // The keys of the declarations (`codes`), ascending.
    pub(crate) keys: Vec<u128>,
    ghost once_is: { once.items ≡ told_once table.list.items },
    ghost rising: { IsNonDecreasing keys.items },
    ghost finds: { Finds (codes_of table.list.items) keys.items },
}

fn all_named_once(alloc: Global, list: &[Declaration]) -> Result<Vec<bool>, NoMemory>
    ensures { IfOk result (λ bs. bs.items ≡ told_once list.now) }
{
    let mut once = Vec::new(alloc);
    for declaration in list {
        let is_once = are_named_once(alloc, &declaration.specs)?;
        once.push(is_once)?;
    }
    Ok(once)
}

/// Indexes a table.
pub fn indexed(alloc: Global, table: Table) -> Result<IndexedTable, NoMemory>
    ensures { IfOk result (λ t. t.table ≡ table) }
{
    let once = all_named_once(alloc, &table.list)?;
    let keys = sorted_keys(alloc, &table.list)?;
    Ok(IndexedTable { table, once, keys })
}

impl IndexedTable {
    ghost use Rattle.std.specs.Prelude.{slice_get};
    ghost use Rattle.std.specs.Option.{option_copied};

    /// The declaration at an index.
    pub fn item(&self, index: usize) -> Option<&Declaration>
        ensures { option_copied result ≡ slice_get self.now.table.list.items index }
    {
        self.table.list.get(index)
    }

    /// Whether the declaration at an index names no attribute twice.
    pub fn is_once(&self, index: usize) -> Option<bool>
        ensures { result ≡ slice_get self.now.once.items index }
    {
        self.once.get(index).copied()
    }
}
