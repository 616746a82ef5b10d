// The bytes of memory that aren't numbers.
ghost use Rattle.std.specs.Prelude.{◌≡◌, ◌<◌, ◌≤◌, ◌+◌, ◌*◌, ◌-◌, ◌/◌, ◌%◌, ◌^◌, ◌==◌, ◌&&◌, ℕ, None, Some, IfOk, IsOk};
ghost use Rattle.std.specs.Prelude.{IsSome};
ghost use Rattle.std.specs.Prelude.{OnErr, length, slice_index, slice_index_or, nat_le, nat_lt, if◌then◌else◌, true};
ghost use Rattle.rv_memory.specs.PageIndex.{place_of};

use crate::value::CodeSymbol;
use rb_bytes::fault::NoMemory;
use rv_memory::page_index::PageIndex;
use std::alloc::Global;

/// The number of addresses in a group. A group's first address is a multiple of this.
pub const GROUP_SIZE: usize = 8;

// The number of entries of `recent`.
const RECENT: usize = 8192;

/// A byte that isn't a number.
#[derive(Clone, Copy)]
pub enum OtherByte {
    /// Byte `index` of a symbol that is stored in `width` bytes.
    Symbol {
        symbol: CodeSymbol,
        width: u8,
        index: u8,
    },
    /// A byte that may differ in a rewritten file.
    Hidden,
}

/// Bytes by address, in groups of eight. An address without a byte here has a number, which is in the pages of
/// [`SymMemory`].
///
/// Most accesses are to groups that aren't there, and one look into `recent` shows that.
#[derive(Drop)]
pub struct OtherBytes {
    // The bytes of all groups, one group after another, and each group's number: its first address divided by 8.
    pub slots: Vec<Option<OtherByte>>,
    pub numbers: Vec<u64>,
    pub index: PageIndex,
    // By the lowest bits of a group's number: one more than the index of a group with these bits, or 0 if there is
    // none.
    pub recent: Vec<usize>,
    pub ghost sized: { length slots.items ≡ length numbers.items * 8 },
    pub ghost indexed: { (i : ℕ) → i < length numbers.items → place_of index (slice_index numbers.items i) ≡ Some i },
    pub ghost held: { (q i : ℕ) → place_of index q ≡ Some i → i < length numbers.items },
    pub ghost numbered: { (q i : ℕ) → place_of index q ≡ Some i → slice_index numbers.items i ≡ q },
    pub ghost at_hand: { length recent.items ≡ 8192 },
    pub ghost marked: { (i : ℕ) → i < length numbers.items →
        0 < slice_index recent.items (slice_index numbers.items i % 8192) },
}

impl OtherBytes {
    ghost use Rattle.sym_machine.specs.internal.OtherBytes.{other_byte, has_group, cleared_between};

    /// No bytes: all addresses have numbers.
    pub fn new(alloc: Global) -> Result<OtherBytes, NoMemory>
        ensures { IfOk result (λ others. (q : ℕ) → other_byte others q ≡ None) }
    {
        let recent = Vec::from_elem(alloc, 0, RECENT)?;
        Ok(OtherBytes {
            slots: Vec::new(alloc),
            numbers: Vec::new(alloc),
            index: PageIndex::new(alloc),
            recent,
        })
    }

    // The index of the group with this number.
    fn place(&self, number: u64) -> Option<usize>
        ensures { result ≡ place_of self.now.index number }
    {
        let recent = self.recent[(number % RECENT as u64) as usize];
        if recent == 0 {
            return None;
        }
        if recent <= self.numbers.len() && self.numbers[recent - 1] == number {
            return Some(recent - 1);
        }
        self.index.place(number)
    }

    /// Whether the group of an address is there. If not, all its addresses have numbers.
    pub fn has_group(&self, address: u64) -> bool
        ensures { result ≡ has_group self.now address }
    {
        self.place(address / GROUP_SIZE as u64).is_some()
    }

    /// The byte at an address, if it isn't a number.
    pub fn byte(&self, address: u64) -> Option<OtherByte>
        ensures { result ≡ other_byte self.now address }
    {
        let place = self.place(address / GROUP_SIZE as u64)?;
        slot_at(
            &self.slots,
            place * GROUP_SIZE + (address % GROUP_SIZE as u64) as usize,
        )
    }

    /// Adds the group of an address if it isn't there. If memory runs out, nothing is added.
    pub fn reserve(&mut self, address: u64) -> Result<(), NoMemory>
        ensures kept { (q : ℕ) → other_byte self.new q ≡ other_byte self.old q }
        ensures room { IsOk result → has_group self.new address ≡ true }
        ensures groups { (q : ℕ) → has_group self.old q ≡ true → has_group self.new q ≡ true }
    {
        if self.has_group(address) {
            return Ok(());
        }
        self.add(address / GROUP_SIZE as u64)
    }

    // Adds a group without bytes.
    fn add(&mut self, number: u64) -> Result<(), NoMemory>
        requires new { place_of self.old.index number ≡ None }
        ensures kept { (q : ℕ) → other_byte self.new q ≡ other_byte self.old q }
        ensures room { IsOk result → IsSome (place_of self.new.index number) }
        ensures groups { (q : ℕ) → IsSome (place_of self.old.index q) → IsSome (place_of self.new.index q) }
    {
        self.slots.reserve(GROUP_SIZE)?;
        self.numbers.reserve(1)?;
        let place = self.numbers.len();
        self.index.insert(number, place)?;
        self.numbers.push(number).unwrap();
        self.slots.extend_from_slice(&[None; GROUP_SIZE]).unwrap();
        self.recent[(number % RECENT as u64) as usize] = place + 1;
        Ok(())
    }

    /// Puts a byte at an address whose group is there.
    pub fn put(&mut self, address: u64, byte: OtherByte)
        requires { has_group self.old address ≡ true }
        ensures written { (q : ℕ) → other_byte self.new q ≡
            (if q == address then Some byte else other_byte self.old q) }
        ensures groups { (q : ℕ) → has_group self.new q ≡ has_group self.old q }
    {
        if let Some(place) = self.place(address / GROUP_SIZE as u64) {
            self.slots[place * GROUP_SIZE + (address % GROUP_SIZE as u64) as usize] = Some(byte);
        }
    }

    /// Removes the byte at an address, which then has a number.
    pub fn clear(&mut self, address: u64)
        ensures { (q : ℕ) → other_byte self.new q ≡ (if q == address then None else other_byte self.old q) }
    {
        if let Some(place) = self.place(address / GROUP_SIZE as u64) {
            self.slots[place * GROUP_SIZE + (address % GROUP_SIZE as u64) as usize] = None;
        }
    }

    /// Removes the bytes from address `from` to before `to`, which then have numbers.
    pub fn clear_run(&mut self, from: u64, to: u64)
        ensures { (q : ℕ) → other_byte self.new q ≡ cleared_between self.old from to q }
    {
        let mut at = from;
        while at < to {
            let count = (GROUP_SIZE as u64 - at % GROUP_SIZE as u64).min(to - at);
            self.clear_in_group(at, at + count);
            at += count;
        }
    }

    // Removes the bytes from `from` to before `to`, all of one group.
    fn clear_in_group(&mut self, from: u64, to: u64)
        requires forth { from ≤ to }
        requires within { (q : ℕ) → from ≤ q → q < to → q / 8 ≡ from / 8 }
        ensures { (q : ℕ) → other_byte self.new q ≡ cleared_between self.old from to q }
    {
        if self.has_group(from) {
            self.clear_each(from, to);
        }
    }

    fn clear_each(&mut self, from: u64, to: u64)
        requires { from ≤ to }
        ensures { (q : ℕ) → other_byte self.new q ≡ cleared_between self.old from to q }
    {
        let mut at = from;
        while at < to {
            self.clear(at);
            at += 1;
        }
    }
}

fn slot_at(slots: &[Option<OtherByte>], at: usize) -> Option<OtherByte>
    requires { at < length slots.now }
    ensures { result ≡ slice_index_or slots.now at None }
{
    slots[at]
}
