// What the change of entries depends on.
use crate::list_offsets::ListOffsets;
use addr_map::AddrMap;
use std::collections::BTreeMap;

/// The new addresses of code and the new offsets of lists.
#[derive(Drop)]
pub struct EntryMoves<'m> {
    pub map: &'m AddrMap,
    pub lists: ListOffsets<'m>,
    /// The end of each call that moved, with the end of the moved call.
    pub call_ends: BTreeMap<u64, u64>,
}

impl<'m> EntryMoves<'m> {
    ghost use Rattle.std.specs.Prelude.{◌≡◌};
    ghost use Rattle.std.specs.BTreeMap.{get};
    ghost use Rattle.std.specs.Ordering.{nat_cmp};
    ghost use Rattle.addr_map.specs.Spans.{moved};
    ghost use Rattle.dw_unit.specs.EntryMoves.{new_list_offset};

    /// The new address of the instruction at an address, if one is there.
    pub fn address(&self, address: u64) -> Option<u64>
        ensures { result ≡ moved self.now.map.now address }
    {
        self.map.moved(address)
    }

    /// The end of the moved call that ended at an address, if there is one.
    pub fn call_end(&self, address: u64) -> Option<u64>
        ensures { result ≡ get nat_cmp self.now.call_ends address }
    {
        self.call_ends.get(&address).copied()
    }

    /// The offset of the new list of an entry's attribute, or its new base or line number program (`ListAt`), if it has
    /// one.
    pub fn list(&self, entry: u64, attr: u64) -> Option<u64>
        ensures { result ≡ new_list_offset self.now.lists entry attr }
    {
        self.lists.offset(entry, attr)
    }
}
