// The offsets of lists in the written tables.
ghost use Rattle.std.specs.Prelude.{◌≡◌, ◌^◌, ◌<◌, IfOk};
ghost use Rattle.dw_unit.specs.EntryMoves.{new_list_offset};
ghost use Rattle.dw_unit.specs.ListKeys.{list_key, Offsets};

use rb_bytes::fault::NoMemory;
use std::alloc::Global;
use std::collections::BTreeMap;
use std::marker::Model;
use table_core::ListAt;

/// The lists of the written tables, found by their entries and attributes. Contracts see the list that was given.
#[derive(Drop)]
pub struct ListOffsets<'l> {
    lists: &'l [ListAt],
    offsets: BTreeMap<u128, u64>,
}

impl<'l> Model for ListOffsets<'l> {
    ghost use Rattle.std.specs.Prelude.{List};
    ghost use Rattle.table_core.specs.declared.written.ListAt.{ListAt};
    ghost use Rattle.dw_unit.specs.ListKeys.{Offsets};

    ghost Value = { List ListAt };

    ghost view = { λ l. l.lists.now };

    ghost invariant = { λ l. Offsets l.lists.now l.offsets };
}

// An entry and an attribute as one number.
fn key(entry: u64, attr: u64) -> u128
    ensures value { result ≡ list_key entry attr }
    ensures below { attr < 2 ^ 64 }
{
    entry as u128 * (1 << 64) + attr as u128
}

// The offsets of lists. If several are for one attribute of an entry, the first counts: so they are inserted from the
// last to the first.
fn first_offsets(alloc: Global, lists: &[ListAt]) -> Result<BTreeMap<u128, u64>, NoMemory>
    ensures { IfOk result (Offsets lists.now) }
{
    let mut offsets = BTreeMap::new(alloc);
    'lists: for index in (0..lists.len()).rev() {
        let list = lists[index];
        offsets.insert(key(list.entry, list.attr), list.offset)?;
    }
    Ok(offsets)
}

impl<'l> ListOffsets<'l> {
    /// An index of `lists` by entry and attribute.
    pub fn new(alloc: Global, lists: &'l [ListAt]) -> Result<ListOffsets<'l>, NoMemory>
        ensures { IfOk result (λ l. l ≡ lists.now) }
    {
        let offsets = first_offsets(alloc, lists)?;
        Ok(ListOffsets { lists, offsets })
    }

    /// The offset of the list of an entry's attribute, if it has one.
    pub fn offset(&self, entry: u64, attr: u64) -> Option<u64>
        ensures { result ≡ new_list_offset self.now entry attr }
    {
        self.offsets.get(&key(entry, attr)).copied()
    }
}
