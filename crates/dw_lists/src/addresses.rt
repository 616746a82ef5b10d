// Addresses by their indexes. DWARF 5, section 7.27.
ghost use Rattle.std.specs.Prelude.{◌≡◌};
ghost use Rattle.dw_lists.specs.Lists.{resolved};
ghost use Rattle.dw_lists.specs.ListReading.{looked_up};

use crate::list_bound::Address;
use byteorder::{ByteOrder, LittleEndian};

/// `.debug_addr` as a unit reads it.
#[derive(Clone, Copy)]
pub struct Addresses<'a> {
    pub section: &'a [u8],
    /// The offset of the first address of the unit's table (DW_AT_addr_base).
    pub base: Option<u64>,
}

impl<'a> Addresses<'a> {
    /// The address with an index, if the unit has a base and the section a whole address there.
    pub fn at(&self, index: u64) -> Option<u64>
        ensures { result ≡ looked_up self.now.section.now self.now.base index }
    {
        let base = self.base?;
        let place = base as u128 + 8 * index as u128;
        if place + 8 > self.section.len() as u128 {
            return None;
        }
        Some(LittleEndian::read_u64(&self.section[place as usize..]))
    }

    /// The address itself, or the one with the index, if it can be found.
    pub fn resolve(&self, address: Address) -> Option<u64>
        ensures { result ≡ resolved (looked_up self.now.section.now self.now.base) address }
    {
        match address {
            Address::Here(a) => Some(a),
            Address::Index(index) => self.at(index),
        }
    }
}
