// The memory of a machine: what was written, on top of the file's image.
ghost use Rattle.elf_image.specs.declared.segment.TheConstants.{PF_X};
ghost use Rattle.elf_image.specs.memory.Image.{image_byte, is_loaded_with};
ghost use Rattle.rv_memory.specs.CodeRange.{is_in_code, is_ever_writable};
ghost use Rattle.rv_memory.specs.Pages.{page_byte};
ghost use Rattle.std.specs.Prelude.{◌≡◌, ◌↔◌, ◌<◌, ◌≤◌, ◌^◌, ◌+◌, ◌-◌, ◌*◌, ◌%◌, ◌&&◌, ◌==◌, ℕ, Bool, false, None};
ghost use Rattle.std.specs.Prelude.{Some, IfOk, IsOk, IsTrue, OnErr, IfSome, IsSome, length, nat_le, nat_lt, true};
ghost use Rattle.std.specs.Prelude.{slice_index, unwrap_or, if◌then◌else◌};

use crate::code_range::{CodeRange, code_range};
use crate::image::is_blank;
use crate::pages::{PAGE_SIZE, Pages};
use crate::program_break::{break_bound, break_start};
use crate::rights::{Access, STACK_END, STACK_SIZE, in_stack, is_loaded_with, lies_in};
use elf_image::Elf;
use elf_image::number::u16_at;
use elf_image::segment::{PF_R, PF_W, PF_X};
use rb_bytes::fault::NoMemory;
use std::alloc::Global;

/// The memory of a program: the bytes at all addresses, and the program break.
#[derive(Drop)]
pub struct Memory<'a> {
    /// The file, whose segments have the bytes that weren't written.
    pub elf: &'a Elf<'a>,
    // The pages that were written.
    pages: Pages,
    alloc: Global,
    // The least and the greatest break that a program may set.
    break_start: u64,
    break_bound: u64,
    /// The current program break: the first address after the memory that the program asked for.
    pub program_break: u64,
    // The greatest break so far. Memory below it that wasn't written is zero.
    break_top: u64,
    // Code that is completely loaded from the file and that the program can't write.
    code: CodeRange,
    pub ghost break_from: { break_start ≤ program_break },
    pub ghost break_to: { program_break ≤ break_top },
    pub ghost break_within: { break_top ≤ break_bound },
    pub ghost code_fixed: { (q : ℕ) → is_in_code code q ≡ true →
        is_ever_writable elf.now.segments.items break_start break_bound q ≡ false },
    pub ghost code_runs: { (q : ℕ) → is_in_code code q ≡ true → is_loaded_with PF_X elf.now.segments.items q ≡ true },
    pub ghost code_bytes: { (q : ℕ) → is_in_code code q ≡ true →
        unwrap_or (image_byte elf.now.file.now elf.now.segments.items q) 0
        ≡ slice_index elf.now.file.now (code.offset + (q - code.from)) },
    pub ghost code_within: { code.offset + (code.to - code.from) ≤ length elf.now.file.now },
    // This code never changes, even if a page has a copy of it.
    pub ghost code_stays: { (q byte : ℕ) → is_in_code code q ≡ true → page_byte pages q ≡ Some byte →
        byte ≡ unwrap_or (image_byte elf.now.file.now elf.now.segments.items q) 0 },
}

impl<'a> Memory<'a> {
    ghost use Rattle.rv_memory.specs.Memory.{memory_of, unwritten_byte, HasRoom, Keeps, space_in, break_after};
    ghost use Rattle.rv_memory.specs.Memory.{byte_after, gained_by_break, reads, writes, executes, may};
    ghost use Rattle.elf_image.specs.memory.Break.{writable_end, break_start};
    ghost use Rattle.rv_memory.specs.Start.{in_stack, space_of};
    ghost use Rattle.rv_code.specs.machine.Machine.{plus, memory_bytes, put, little, low_bytes, all_may};

    /// The memory at the start of a program, with a stack of zeros.
    pub fn new(alloc: Global, elf: &'a Elf<'a>) -> Memory<'a>
        requires { writable_end elf.now.segments.items ≤ 2 ^ 63 }
        ensures bytes { (q : ℕ) →
            memory_of result q ≡ (if in_stack q then 0 else unwrap_or
            (image_byte elf.now.file.now elf.now.segments.items q) 0) }
        ensures space { space_in result ≡ space_of elf.now.segments.items }
        ensures break_is { result.program_break ≡ break_start elf.now.segments.items }
    {
        let start = break_start(&elf.segments);
        let bound = break_bound(&elf.segments);
        Memory {
            elf,
            pages: Pages::new(alloc),
            alloc,
            break_start: start,
            break_bound: bound,
            program_break: start,
            break_top: start,
            code: code_range(elf, start, bound),
        }
    }

    /// The byte at an address.
    pub fn byte(&self, address: u64) -> u8
        ensures { result ≡ memory_of self.now address }
    {
        match self.pages.byte(address) {
            Some(byte) => byte,
            None => self.unwritten_byte(address),
        }
    }

    fn unwritten_byte(&self, address: u64) -> u8
        ensures { result ≡ unwritten_byte self.now address }
    {
        if in_stack(address) || self.break_start <= address && address < self.break_top {
            return 0;
        }
        self.elf.image_byte(address).unwrap_or(0)
    }

    /// The little-endian number of the `count` bytes at an address.
    pub fn number(&self, address: u64, count: u8) -> u64
        requires { count ≤ 8 }
        ensures value { result ≡ little (memory_bytes (memory_of self.now) address count) }
        ensures below { result < 256 ^ count }
    {
        if address % PAGE_SIZE as u64 + count as u64 <= PAGE_SIZE as u64 {
            if let Some(number) = self.pages.number(address, count) {
                return number;
            }
        }
        self.number_of_bytes(address, count)
    }

    /// The halfwords at an address and after it, if both are in code that the program can't write. They are read from
    /// the file.
    pub fn code_halves(&self, address: u64) -> Option<(u16, u16)>
        ensures first { IfSome result (λ halves. halves.0 ≡ little (memory_bytes (memory_of self.now) address 2)) }
        ensures second { IfSome result (λ halves. halves.1 ≡ little
            (memory_bytes (memory_of self.now) (plus address 2) 2)) }
        ensures first_runs { IfSome result (λ halves. all_may (executes self.now) address 2 ≡ true) }
        ensures second_runs { IfSome result (λ halves. all_may (executes self.now) (plus address 2) 2 ≡ true) }
        ensures there { IsSome result ↔ ((self.now.code.from ≤ address) × (address + 4 ≤ self.now.code.to)) }
    {
        if !self.code.has(address, 4) {
            return None;
        }
        let at = (self.code.offset + (address - self.code.from)) as usize;
        Some((u16_at(self.elf.file, at), u16_at(self.elf.file, at + 2)))
    }

    /// The allocator for the memory's pages.
    pub fn allocator(&self) -> Global {
        self.alloc
    }

    // The number of `count` bytes, byte by byte, for bytes on two pages or on a page that wasn't written.
    #[tactic(auto, using(crate::proofs::MemoryBytes::little_none, crate::proofs::MemoryBytes::little_step))]
    fn number_of_bytes(&self, address: u64, count: u8) -> u64
        requires { count ≤ 8 }
        ensures value { result ≡ little (memory_bytes (memory_of self.now) address count) }
        ensures below { result < 256 ^ count }
    {
        if count == 0 {
            return 0;
        }
        let rest = self.number_of_bytes(address.wrapping_add(1), count - 1);
        self.byte(address) as u64 + 256 * rest
    }

    /// The `count` bytes from an address on.
    pub fn bytes(&self, address: u64, count: usize) -> Result<Vec<u8>, NoMemory>
        ensures { IfOk result (λ bytes. bytes.items ≡ memory_bytes (memory_of self.now) address count) }
    {
        let mut bytes = Vec::with_capacity(self.alloc, count)?;
        for i in 0..count {
            bytes.push(self.byte(address.wrapping_add(i as u64)))?;
        }
        Ok(bytes)
    }

    /// Stores the `count` low bytes of a number at an address. Nothing is written if memory runs out.
    pub fn store(&mut self, address: u64, count: u8, number: u64) -> Result<(), NoMemory>
        requires few { count ≤ 8 }
        requires writable { all_may (writes self.old) address count ≡ true }
        ensures written { IsOk result → (q : ℕ) →
            memory_of self.new q ≡ put (memory_of self.old) address (low_bytes count number) q }
        ensures unwritten { OnErr result ((q : ℕ) → memory_of self.new q ≡ memory_of self.old q) }
        ensures space_kept { Keeps self.old self.new }
    {
        if self.put_in_page(address, count, number) {
            return Ok(());
        }
        let bytes = number.to_le_bytes();
        let (low, _) = bytes.split_at(count as usize);
        self.write(address, low)
    }

    // Writes a number whose bytes are all in one existing page. Returns false if there is no such page.
    fn put_in_page(&mut self, address: u64, count: u8, number: u64) -> bool
        requires few { count ≤ 8 }
        requires writable { all_may (writes self.old) address count ≡ true }
        ensures written { IsTrue result → (q : ℕ) →
            memory_of self.new q ≡ put (memory_of self.old) address (low_bytes count number) q }
        ensures unwritten { result ≡ false → (q : ℕ) → memory_of self.new q ≡ memory_of self.old q }
        ensures space_kept { Keeps self.old self.new }
    {
        if address % PAGE_SIZE as u64 + count as u64 > PAGE_SIZE as u64 {
            return false;
        }
        self.pages.put(address, count, number)
    }

    /// Writes bytes from an address on. Nothing is written if memory runs out.
    pub fn write(&mut self, address: u64, bytes: &[u8]) -> Result<(), NoMemory>
        requires { all_may (writes self.old) address (length bytes.now) ≡ true }
        ensures written { IsOk result → (q : ℕ) → memory_of self.new q ≡ put (memory_of self.old) address bytes.now q }
        ensures unwritten { OnErr result ((q : ℕ) → memory_of self.new q ≡ memory_of self.old q) }
        ensures space_kept { Keeps self.old self.new }
    {
        self.reserve(address, bytes.len())?;
        self.overwrite(address, bytes);
        Ok(())
    }

    /// Allocates the pages for `count` bytes from an address on, and returns a buffer of that size for the bytes that
    /// [`Memory::overwrite`] writes there.
    pub fn buffer(&mut self, address: u64, count: usize) -> Result<Vec<u8>, NoMemory>
        ensures size { IfOk result (λ buffer. length buffer.items ≡ count) }
        ensures kept { (q : ℕ) → memory_of self.new q ≡ memory_of self.old q }
        ensures room { IsOk result → HasRoom self.new address count }
        ensures space_kept { Keeps self.old self.new }
    {
        self.reserve(address, count)?;
        Ok(Vec::from_elem(self.alloc, 0, count)?)
    }

    /// Allocates the pages for `count` bytes from an address on, so that writing them doesn't allocate. No byte
    /// changes.
    pub fn reserve(&mut self, address: u64, count: usize) -> Result<(), NoMemory>
        ensures kept { (q : ℕ) → memory_of self.new q ≡ memory_of self.old q }
        ensures room { IsOk result → HasRoom self.new address count }
        ensures space_kept { Keeps self.old self.new }
    {
        for i in 0..count {
            self.reserve_byte(address.wrapping_add(i as u64))?;
        }
        Ok(())
    }

    fn reserve_byte(&mut self, address: u64) -> Result<(), NoMemory>
        ensures kept { (q : ℕ) → memory_of self.new q ≡ memory_of self.old q }
        ensures room { IsOk result → IsSome (page_byte self.new.pages address) }
        ensures others { (q : ℕ) → IsSome (page_byte self.old.pages q) → IsSome (page_byte self.new.pages q) }
        ensures space_kept { Keeps self.old self.new }
    {
        if self.pages.byte(address).is_some() {
            return Ok(());
        }
        let number = address / PAGE_SIZE as u64;
        let page = self.unwritten_page(number)?;
        self.pages.add(number, &page)
    }

    // The bytes of a page that wasn't written.
    fn unwritten_page(&self, number: u64) -> Result<Vec<u8>, NoMemory>
        requires { number < 2 ^ 52 }
        ensures whole { IfOk result (λ page. length page.items ≡ 4096) }
        ensures bytes { IfOk result
            (λ page. (k : ℕ) → k < 4096 → slice_index page.items k ≡ unwritten_byte self.now (number * 4096 + k)) }
    {
        let from = number * PAGE_SIZE as u64;
        if is_blank(&self.elf.segments, from) {
            return Ok(Vec::from_elem(self.alloc, 0, PAGE_SIZE)?);
        }
        let mut page = Vec::with_capacity(self.alloc, PAGE_SIZE)?;
        for k in 0..PAGE_SIZE {
            page.push(self.unwritten_byte(from + k as u64))?;
        }
        Ok(page)
    }

    /// Writes bytes from an address on, where pages exist.
    pub fn overwrite(&mut self, address: u64, bytes: &[u8])
        requires room { HasRoom self.old address (length bytes.now) }
        requires writable { all_may (writes self.old) address (length bytes.now) ≡ true }
        ensures written { (q : ℕ) → memory_of self.new q ≡ put (memory_of self.old) address bytes.now q }
        ensures space_kept { Keeps self.old self.new }
    {
        let mut left = bytes.len();
        while left > 0 {
            left -= 1;
            self.overwrite_byte(address.wrapping_add(left as u64), bytes[left]);
        }
    }

    fn overwrite_byte(&mut self, address: u64, byte: u8)
        requires room { IsSome (page_byte self.old.pages address) }
        requires writable { writes self.old address ≡ true }
        ensures written { (q : ℕ) → memory_of self.new q ≡ (if q == address then byte else memory_of self.old q) }
        ensures kept { (q : ℕ) → IsSome (page_byte self.old.pages q) → IsSome (page_byte self.new.pages q) }
        ensures space_kept { Keeps self.old self.new }
    {
        self.pages.put_byte(address, byte);
    }

    /// Sets the break, if it is within its bounds. Bytes that are gained are zero.
    pub fn set_break(&mut self, to: u64)
        ensures moved { self.new.program_break ≡ break_after self.old to }
        ensures gained { (q : ℕ) → memory_of self.new q ≡ byte_after self.old to q }
        ensures space_kept { space_in self.new ≡ space_in self.old }
    {
        if to < self.break_start || self.break_bound < to {
            return;
        }
        self.pages.clear_run(self.program_break, to);
        self.break_top = self.break_top.max(to);
        self.program_break = to;
    }

    // Whether the program may read from an address.
    fn may_read(&self, address: u64) -> bool
        ensures { result ≡ reads self.now address }
    {
        in_stack(address) || self.in_break(address) || is_loaded_with(self.elf, PF_R, address)
    }

    // Whether the program may write to an address.
    fn may_write(&self, address: u64) -> bool
        ensures { result ≡ writes self.now address }
    {
        in_stack(address) || self.in_break(address) || is_loaded_with(self.elf, PF_W, address)
    }

    // Whether the program may execute code at an address.
    fn may_execute(&self, address: u64) -> bool
        ensures { result ≡ executes self.now address }
    {
        is_loaded_with(self.elf, PF_X, address)
    }

    fn in_break(&self, address: u64) -> bool
        ensures { result ≡ gained_by_break self.now address }
    {
        self.break_start <= address && address < self.program_break
    }

    fn may(&self, access: Access, address: u64) -> bool
        ensures { result ≡ may self.now access address }
    {
        match access {
            Access::Read => self.may_read(address),
            Access::Write => self.may_write(address),
            Access::Execute => self.may_execute(address),
        }
    }

    /// Whether the program has this access to each of `count` addresses.
    pub fn may_all(&self, access: Access, address: u64, count: usize) -> bool
        ensures { result ≡ all_may (may self.now access) address count }
    {
        if self.may_run(access, address, count) {
            return true;
        }
        self.may_each(access, address, count)
    }

    // Whether all addresses are in the stack, in the break or in one segment, and the access is allowed. This decides
    // most accesses. If it is false, each address is examined.
    fn may_run(&self, access: Access, address: u64, count: usize) -> bool
        ensures { IsTrue result → all_may (may self.now access) address count ≡ true }
    {
        match access {
            Access::Read => self.in_data(address, count) || self.in_segment(PF_R, address, count),
            Access::Write => self.in_data(address, count) || self.in_segment(PF_W, address, count),
            Access::Execute => self.in_segment(PF_X, address, count),
        }
    }

    // Whether all addresses are in the stack, or all are in the break.
    fn in_data(&self, address: u64, count: usize) -> bool
        ensures { IsTrue result → (all_may (reads self.now) address count ≡ true)
            × (all_may (writes self.now) address count ≡ true) }
    {
        lies_in(STACK_END - STACK_SIZE, STACK_END, address, count)
            || lies_in(self.break_start, self.program_break, address, count)
    }

    // Whether a single segment with this flag loads all addresses.
    fn in_segment(&self, flag: u32, address: u64, count: usize) -> bool
        requires { 0 < flag }
        ensures { IsTrue result → all_may (is_loaded_with flag self.now.elf.now.segments.items) address count ≡ true }
    {
        match self.elf.segment_at(address) {
            Some(segment) => segment.has_flag(flag)
                && lies_in(
                    segment.vaddr,
                    segment.vaddr.saturating_add(segment.memsz),
                    address,
                    count,
                ),
            None => false,
        }
    }

    // Whether all addresses allow the access, examined one by one.
    fn may_each(&self, access: Access, address: u64, count: usize) -> bool
        ensures { result ≡ all_may (may self.now access) address count }
    {
        for i in 0..count {
            if !self.may(access, address.wrapping_add(i as u64)) {
                return false;
            }
        }
        true
    }
}
