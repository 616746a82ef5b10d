// The pages that a program wrote.
ghost use Rattle.std.specs.Prelude.{◌≡◌, ◌<◌, ◌≤◌, ◌+◌, ◌*◌, ◌-◌, ◌/◌, ◌%◌, ◌^◌, ◌==◌, ◌&&◌, ℕ, false, None, Some};
ghost use Rattle.std.specs.Prelude.{IfSome, IfOk, IsOk, IsSome, IsTrue, is_some, OnErr, length, slice_index, nat_le};
ghost use Rattle.std.specs.Prelude.{nat_lt, if◌then◌else◌};
ghost use Rattle.rv_memory.specs.PageIndex.{place_of};
ghost use Rattle.rv_memory.specs.Patches.{is_width};

use crate::bytes::{clear_bytes, number_in, put_bytes, put_number};
use crate::page_index::PageIndex;
use rb_bytes::fault::NoMemory;
use std::alloc::Global;

/// The size of a page in bytes.
pub const PAGE_SIZE: usize = 4096;

// The number of recent pages that are cached.
const RECENT: usize = 256;

/// Pages of 4096 bytes.
#[derive(Drop)]
pub struct Pages {
    // The bytes of all pages, one page after another, and the number of each page.
    pub bytes: Vec<u8>,
    pub numbers: Vec<u64>,
    pub index: PageIndex,
    // For the lowest bits of page numbers, the index of the last added page with these bits. It may be the index of
    // another page, so the number there is compared.
    recent: [usize; RECENT],
    pub ghost sized: { length bytes.items ≡ length numbers.items * 4096 },
    pub ghost indexed: { (i : ℕ) → i < length numbers.items → place_of index (slice_index numbers.items i) ≡ Some i },
    pub ghost held: { (q i : ℕ) → place_of index q ≡ Some i → i < length numbers.items },
    pub ghost numbered: { (q i : ℕ) → place_of index q ≡ Some i → slice_index numbers.items i ≡ q },
}

impl Pages {
    ghost use Rattle.rv_code.specs.machine.Machine.{plus, memory_bytes, little, low_bytes};
    ghost use Rattle.rv_memory.specs.Pages.{page_byte, byte_put, byte_cleared, cleared_between, IsLike};

    /// No pages.
    pub fn new(alloc: Global) -> Pages
        ensures { (q : ℕ) → page_byte result q ≡ None }
    {
        Pages {
            bytes: Vec::new(alloc),
            numbers: Vec::new(alloc),
            index: PageIndex::new(alloc),
            recent: [0; RECENT],
        }
    }

    // The index of the page with a number.
    fn place(&self, number: u64) -> Option<usize>
        ensures { result ≡ place_of self.now.index number }
    {
        let recent = self.recent[(number % RECENT as u64) as usize];
        if recent < self.numbers.len() && self.numbers[recent] == number {
            return Some(recent);
        }
        self.index.place(number)
    }

    /// The byte at an address, if its page exists.
    pub fn byte(&self, address: u64) -> Option<u8>
        ensures { result ≡ page_byte self.now address }
    {
        let place = self.place(address / PAGE_SIZE as u64)?;
        Some(self.bytes[place * PAGE_SIZE + (address % PAGE_SIZE as u64) as usize])
    }

    /// The little-endian number of 1, 2, 4 or 8 bytes at an address, all in one page. None if the page doesn't exist,
    /// or for another number of bytes.
    pub fn number(&self, address: u64, count: u8) -> Option<u64>
        requires { address % 4096 + count ≤ 4096 }
        ensures value { IfSome result
            (λ n. (memory : ℕ → ℕ) → IsLike self.now memory → n ≡ little (memory_bytes memory address count)) }
        ensures below { IfSome result (λ n. n < 256 ^ count) }
        ensures there { is_some result ≡ (is_some (page_byte self.now address) && is_width count) }
    {
        let place = self.place(address / PAGE_SIZE as u64)?;
        number_in(
            &self.bytes,
            place * PAGE_SIZE + (address % PAGE_SIZE as u64) as usize,
            count,
        )
    }

    /// Writes the `count` low bytes of a number at an address, all in one page. Returns false if the page doesn't
    /// exist.
    pub fn put(&mut self, address: u64, count: u8, number: u64) -> bool
        requires few { count ≤ 8 }
        requires within { address % 4096 + count ≤ 4096 }
        ensures put { IsTrue result → (q : ℕ) → page_byte self.new q ≡ byte_put self.old address
            (low_bytes count number) q }
        ensures kept { result ≡ false → (q : ℕ) → page_byte self.new q ≡ page_byte self.old q }
        ensures there { result ≡ is_some (page_byte self.old address) }
    {
        match self.place(address / PAGE_SIZE as u64) {
            Some(place) => {
                put_number(
                    &mut self.bytes,
                    place * PAGE_SIZE + (address % PAGE_SIZE as u64) as usize,
                    count,
                    number,
                );
                true
            }
            None => false,
        }
    }

    /// Writes a byte at an address whose page exists.
    pub fn put_byte(&mut self, address: u64, byte: u8)
        requires { IsSome (page_byte self.old address) }
        ensures { (q : ℕ) → page_byte self.new q ≡ (if q == address then Some byte else page_byte self.old q) }
    {
        if let Some(place) = self.place(address / PAGE_SIZE as u64) {
            self.bytes[place * PAGE_SIZE + (address % PAGE_SIZE as u64) as usize] = byte;
        }
    }

    /// Clears `count` bytes from an address on, all in one page, if the page exists.
    pub fn clear(&mut self, address: u64, count: usize)
        requires { address % 4096 + count ≤ 4096 }
        ensures { (q : ℕ) → page_byte self.new q ≡ byte_cleared self.old address count q }
    {
        if let Some(place) = self.place(address / PAGE_SIZE as u64) {
            clear_bytes(
                &mut self.bytes,
                place * PAGE_SIZE + (address % PAGE_SIZE as u64) as usize,
                count,
            );
        }
    }

    /// Clears the bytes from `from` to before `to` in existing pages.
    pub fn clear_run(&mut self, from: u64, to: u64)
        ensures { (q : ℕ) → page_byte self.new q ≡ cleared_between self.old from to q }
    {
        let mut at = from;
        while at < to {
            let count = (PAGE_SIZE as u64 - at % PAGE_SIZE as u64).min(to - at);
            self.clear(at, count as usize);
            at += count;
        }
    }

    /// Adds a page. Nothing is added if memory runs out.
    pub fn add(&mut self, number: u64, page: &[u8]) -> Result<(), NoMemory>
        requires new { place_of self.old.index number ≡ None }
        requires whole { length page.now ≡ 4096 }
        ensures added { IsOk result → (q : ℕ) →
            page_byte self.new q ≡ (if q / 4096 == number then Some (slice_index page.now (q % 4096)) else page_byte
            self.old q) }
        ensures kept { OnErr result ((q : ℕ) → page_byte self.new q ≡ page_byte self.old q) }
    {
        self.bytes.reserve(PAGE_SIZE)?;
        self.numbers.reserve(1)?;
        let place = self.numbers.len();
        self.index.insert(number, place)?;
        self.numbers.push(number).unwrap();
        self.bytes.extend_from_slice(page).unwrap();
        self.recent[(number % RECENT as u64) as usize] = place;
        Ok(())
    }
}
