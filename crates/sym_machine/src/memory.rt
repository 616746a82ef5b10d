// A program's memory, with symbols and hidden bytes.
ghost use Rattle.std.specs.Prelude.{◌≡◌, ◌<◌, ◌≤◌, ◌^◌, ◌+◌, ◌==◌, ◌&&◌, ℕ, List, true, false, None, Some, IfOk, IsOk};
ghost use Rattle.std.specs.Prelude.{IsTrue, OnErr, IfSome, nat_le, nat_lt, if◌then◌else◌, option_map, length, map};
ghost use Rattle.std.specs.Prelude.{replicate, not};
ghost use Rattle.std.specs.List.{list_any};

use crate::accesses::Stored;
use crate::other_bytes::{GROUP_SIZE, OtherByte, OtherBytes};
use crate::symbols::same_symbol;
use crate::value::{CodeSymbol, MemoryByte};
use rb_bytes::fault::NoMemory;
use rv_memory::memory::Memory;

/// The bytes at all addresses: numbers in pages, and in `others` all other bytes, which hide the pages' numbers at
/// their addresses.
#[derive(Drop)]
pub struct SymMemory<'a> {
    pub bytes: Memory<'a>,
    pub others: OtherBytes,
}

/// Bytes of a symbol that is stored in `width` bytes, from byte `first` on.
#[derive(Clone, Copy)]
pub struct SymbolBytes {
    pub symbol: CodeSymbol,
    pub width: u8,
    pub first: u8,
}

impl<'a> SymMemory<'a> {
    ghost use Rattle.rv_code.specs.machine.Machine.{plus, memory_bytes, put, little, low_bytes, all_may};
    ghost use Rattle.rv_memory.specs.Memory.{memory_of, writes, space_in, break_after, may_stand, HasRoom, Keeps};
    ghost use Rattle.sym_machine.specs.declared.value.MemoryByte.TheVariants.{Byte};
    ghost use Rattle.sym_machine.specs.internal.OtherBytes.{other_byte, has_group};
    ghost use Rattle.sym_machine.specs.internal.Memory.{memory_at, memory_after, is_number_at, is_open_at, symbol_in};
    ghost use Rattle.sym_machine.specs.internal.Memory.{other_bytes, HasGroups};
    ghost use Rattle.sym_machine.specs.internal.Accesses.{stored_bytes};
    ghost use Rattle.sym_machine.specs.Values.{numbers, is_hidden, are_symbol_bytes, symbol_bytes};

    /// The byte at an address.
    pub fn byte(&self, address: u64) -> MemoryByte
        ensures { result ≡ memory_at self.now address }
    {
        match self.others.byte(address) {
            Some(
                OtherByte::Symbol {
                    symbol,
                    width,
                    index,
                },
            ) => MemoryByte::SymbolByte {
                symbol,
                width,
                index,
            },
            Some(OtherByte::Hidden) => MemoryByte::Hidden,
            None => MemoryByte::Byte(self.bytes.byte(address)),
        }
    }

    // Whether the byte at an address is a number.
    fn is_number(&self, address: u64) -> bool
        ensures { result ≡ is_number_at self.now address }
    {
        self.others.byte(address).is_none()
    }

    // Whether the byte at an address isn't hidden.
    fn is_open(&self, address: u64) -> bool
        ensures { result ≡ is_open_at self.now address }
    {
        match self.byte(address) {
            MemoryByte::Byte(_) => true,
            MemoryByte::SymbolByte { .. } => true,
            MemoryByte::Hidden => false,
        }
    }

    // Whether the addresses are all of one group that isn't in `others`: then their bytes are numbers.
    fn share_no_group(&self, address: u64, count: usize) -> bool
        ensures { IsTrue result → all_may (is_number_at self.now) address count ≡ true }
    {
        if count > GROUP_SIZE {
            return false;
        }
        address % GROUP_SIZE as u64 + count as u64 <= GROUP_SIZE as u64
            && !self.others.has_group(address)
    }

    /// Whether the bytes at `count` addresses are all numbers.
    pub fn are_numbers(&self, address: u64, count: usize) -> bool
        ensures { result ≡ all_may (is_number_at self.now) address count }
    {
        if self.share_no_group(address, count) {
            return true;
        }
        self.is_each_number(address, count)
    }

    fn is_each_number(&self, address: u64, count: usize) -> bool
        ensures { result ≡ all_may (is_number_at self.now) address count }
    {
        for i in 0..count {
            if !self.is_number(address.wrapping_add(i as u64)) {
                return false;
            }
        }
        true
    }

    /// Whether one of the bytes at `count` addresses is hidden.
    pub fn has_hidden(&self, address: u64, count: usize) -> bool
        ensures { result ≡ list_any is_hidden (memory_bytes (memory_at self.now) address count) }
    {
        !self.is_each_open(address, count)
    }

    fn is_each_open(&self, address: u64, count: usize) -> bool
        ensures { result ≡ all_may (is_open_at self.now) address count }
    {
        for i in 0..count {
            if !self.is_open(address.wrapping_add(i as u64)) {
                return false;
            }
        }
        true
    }

    /// The number in `count` bytes from an address on, if they are all numbers.
    pub fn number(&self, address: u64, count: u8) -> Option<u64>
        requires { count ≤ 8 }
        ensures value { result ≡ option_map little (numbers (memory_bytes (memory_at self.now) address count)) }
        ensures below { IfSome result (λ number. number < 256 ^ count) }
    {
        if !self.are_numbers(address, count as usize) {
            return None;
        }
        Some(self.bytes.number(address, count))
    }

    /// The `count` bytes from an address on, which are all numbers.
    pub fn numbers(&self, address: u64, count: usize) -> Result<Vec<u8>, NoMemory>
        requires { all_may (is_number_at self.now) address count ≡ true }
        ensures { IfOk result (λ bytes. numbers (memory_bytes (memory_at self.now) address count) ≡ Some bytes.items) }
    {
        self.bytes.bytes(address, count)
    }

    /// The symbol of which the `count` bytes from an address on are successive bytes, all stored in one width.
    pub fn symbol(&self, address: u64, count: u8) -> Option<SymbolBytes>
        requires { count ≤ 8 }
        ensures { result ≡ symbol_in (memory_bytes (memory_at self.now) address count) }
    {
        if count == 0 {
            return None;
        }
        let bytes = symbol_byte(self.byte(address))?;
        let next = address.wrapping_add(1);
        if !self.goes_on(
            bytes.symbol,
            bytes.width,
            bytes.first as u64 + 1,
            next,
            count - 1,
        ) {
            return None;
        }
        Some(bytes)
    }

    // Whether `count` bytes from an address on are bytes of a symbol, from byte `index` on. The bound only keeps
    // `index` from overflowing.
    fn goes_on(&self, symbol: CodeSymbol, width: u8, index: u64, address: u64, count: u8) -> bool
        requires { index + count ≤ 300 }
        ensures { result ≡ are_symbol_bytes symbol width index (memory_bytes (memory_at self.now) address count) }
    {
        if count == 0 {
            return true;
        }
        if !is_byte_of(self.byte(address), symbol, width, index) {
            return false;
        }
        self.goes_on(symbol, width, index + 1, address.wrapping_add(1), count - 1)
    }

    // Removes the other bytes from `count` addresses, so that they have the numbers of the pages.
    fn clear(&mut self, address: u64, count: usize)
        ensures cleared { (q : ℕ) → other_byte self.new.others q
            ≡ put (other_byte self.old.others) address (replicate count None) q }
        ensures bytes { self.new.bytes ≡ self.old.bytes }
    {
        if self.are_numbers(address, count) {
            return;
        }
        self.clear_each(address, count);
    }

    fn clear_each(&mut self, address: u64, count: usize)
        ensures cleared { (q : ℕ) → other_byte self.new.others q
            ≡ put (other_byte self.old.others) address (replicate count None) q }
        ensures bytes { self.new.bytes ≡ self.old.bytes }
    {
        let mut left = count;
        while left > 0 {
            left -= 1;
            self.others.clear(address.wrapping_add(left as u64));
        }
    }

    /// Stores the `count` low bytes of a number at an address. If memory runs out, none is written.
    pub fn store_number(&mut self, address: u64, count: u8, number: u64) -> Result<(), NoMemory>
        requires few { count ≤ 8 }
        requires writable { all_may (writes self.old.bytes) address count ≡ true }
        ensures written { IsOk result → (q : ℕ) → memory_at self.new q
            ≡ put (memory_at self.old) address (map Byte (low_bytes count number)) q }
        ensures unwritten { OnErr result ((q : ℕ) → memory_at self.new q ≡ memory_at self.old q) }
        ensures space_kept { Keeps self.old.bytes self.new.bytes }
    {
        self.bytes.store(address, count, number)?;
        self.clear(address, count as usize);
        Ok(())
    }

    /// Stores `count` bytes at an address. If memory runs out, none is written.
    pub fn store(&mut self, address: u64, count: u8, stored: Stored) -> Result<(), NoMemory>
        requires few { count ≤ 8 }
        requires writable { all_may (writes self.old.bytes) address count ≡ true }
        ensures written { IsOk result → (q : ℕ) → memory_at self.new q
            ≡ put (memory_at self.old) address (stored_bytes count stored) q }
        ensures unwritten { OnErr result ((q : ℕ) → memory_at self.new q ≡ memory_at self.old q) }
        ensures space_kept { Keeps self.old.bytes self.new.bytes }
    {
        match stored {
            Stored::Number(number) => self.store_number(address, count, number),
            Stored::Symbol(bytes) => self.store_bytes(address, count, bytes),
        }
    }

    // Stores `count` bytes of a symbol. A symbol has at most eight, so the check for `store_symbol`'s precondition
    // never fails.
    fn store_bytes(&mut self, address: u64, count: u8, bytes: SymbolBytes) -> Result<(), NoMemory>
        ensures written { IsOk result → (q : ℕ) → memory_at self.new q
            ≡ put (memory_at self.old) address (symbol_bytes bytes.symbol bytes.width bytes.first count) q }
        ensures unwritten { OnErr result ((q : ℕ) → memory_at self.new q ≡ memory_at self.old q) }
        ensures space_kept { Keeps self.old.bytes self.new.bytes }
    {
        if bytes.first as u16 + count as u16 > 256 {
            return Err(NoMemory);
        }
        self.store_symbol(address, count, bytes)
    }

    /// Reserves memory for `count` numbers from an address on, and returns a buffer of that size.
    pub fn buffer(&mut self, address: u64, count: usize) -> Result<Vec<u8>, NoMemory>
        ensures size { IfOk result (λ buffer. length buffer.items ≡ count) }
        ensures kept { (q : ℕ) → memory_at self.new q ≡ memory_at self.old q }
        ensures room { IsOk result → HasRoom self.new.bytes address count }
        ensures space_kept { Keeps self.old.bytes self.new.bytes }
    {
        self.bytes.buffer(address, count)
    }

    /// Writes bytes from an address on, for which memory was reserved.
    pub fn overwrite(&mut self, address: u64, bytes: &[u8])
        requires room { HasRoom self.old.bytes address (length bytes.now) }
        requires writable { all_may (writes self.old.bytes) address (length bytes.now) ≡ true }
        ensures written { (q : ℕ) → memory_at self.new q
            ≡ put (memory_at self.old) address (map Byte bytes.now) q }
        ensures space_kept { Keeps self.old.bytes self.new.bytes }
    {
        self.bytes.overwrite(address, bytes);
        self.clear(address, bytes.len());
    }

    /// Stores `count` bytes of a symbol at an address. If memory runs out, none is written.
    pub fn store_symbol(
        &mut self,
        address: u64,
        count: u8,
        bytes: SymbolBytes,
    ) -> Result<(), NoMemory>
        requires { bytes.first + count ≤ 256 }
        ensures written { IsOk result → (q : ℕ) → memory_at self.new q
            ≡ put (memory_at self.old) address (symbol_bytes bytes.symbol bytes.width bytes.first count) q }
        ensures unwritten { OnErr result ((q : ℕ) → memory_at self.new q ≡ memory_at self.old q) }
        ensures space_kept { self.new.bytes ≡ self.old.bytes }
    {
        self.reserve(address, count)?;
        self.put_symbol(address, count, bytes);
        Ok(())
    }

    // Adds the groups of `count` addresses that aren't there yet.
    fn reserve(&mut self, address: u64, count: u8) -> Result<(), NoMemory>
        ensures kept { (q : ℕ) → other_byte self.new.others q ≡ other_byte self.old.others q }
        ensures room { IsOk result → HasGroups self.new.others address count }
        ensures space_kept { self.new.bytes ≡ self.old.bytes }
    {
        for i in 0..count {
            self.others.reserve(address.wrapping_add(i as u64))?;
        }
        Ok(())
    }

    fn put_symbol(&mut self, address: u64, count: u8, bytes: SymbolBytes)
        requires few { bytes.first + count ≤ 256 }
        requires room { HasGroups self.old.others address count }
        ensures written { (q : ℕ) → other_byte self.new.others q
            ≡ put (other_byte self.old.others) address (other_bytes bytes.symbol bytes.width bytes.first count) q }
        ensures space_kept { self.new.bytes ≡ self.old.bytes }
    {
        let mut left = count;
        while left > 0 {
            left -= 1;
            let byte = OtherByte::Symbol {
                symbol: bytes.symbol,
                width: bytes.width,
                index: bytes.first + left,
            };
            self.others.put(address.wrapping_add(left as u64), byte);
        }
    }

    /// Moves the break to `to`, if that is allowed. The bytes that it gains are zero.
    pub fn set_break(&mut self, to: u64)
        ensures moved { self.new.bytes.program_break ≡ break_after self.old.bytes to }
        ensures gained { (q : ℕ) → memory_at self.new q ≡ memory_after self.old to q }
        ensures space_kept { space_in self.new.bytes ≡ space_in self.old.bytes }
    {
        let from = self.bytes.program_break;
        self.bytes.set_break(to);
        self.others.clear_run(from, self.bytes.program_break);
    }
}

ghost use Rattle.sym_machine.specs.internal.Memory.{symbol_byte, is_byte_of};

// The symbol of which this byte is one, from this byte on.
fn symbol_byte(byte: MemoryByte) -> Option<SymbolBytes>
    ensures { result ≡ symbol_byte byte }
{
    match byte {
        MemoryByte::Byte(_) => None,
        MemoryByte::SymbolByte {
            symbol,
            width,
            index,
        } => Some(SymbolBytes {
            symbol,
            width,
            first: index,
        }),
        MemoryByte::Hidden => None,
    }
}

// Whether a byte is byte `index` of a symbol.
fn is_byte_of(byte: MemoryByte, symbol: CodeSymbol, width: u8, index: u64) -> bool
    ensures { result ≡ is_byte_of byte symbol width index }
{
    match byte {
        MemoryByte::Byte(_) => false,
        MemoryByte::SymbolByte {
            symbol: other,
            width: other_width,
            index: other_index,
        } => same_symbol(symbol, other) && width == other_width && index == other_index as u64,
        MemoryByte::Hidden => false,
    }
}
