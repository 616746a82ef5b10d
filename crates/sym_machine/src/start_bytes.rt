// The bytes at the start that aren't numbers: code cells, hidden fields and the entry point.
ghost use Rattle.std.specs.Prelude.{◌≡◌, ◌≤◌, ◌<◌, ◌+◌, ◌-◌, ◌*◌, ◌^◌, ◌==◌, ◌&&◌, ◌||◌, ℕ, List, Bool, All, Some};
ghost use Rattle.std.specs.Prelude.{None, IfOk, OnOk, map, length, if◌then◌else◌, nat_le, nat_lt, min, Contains, true};
ghost use Rattle.std.specs.List.{list_any};
ghost use Rattle.std.specs.Option.{option_or};
ghost use Rattle.elf_image.specs.memory.LoadedBytes.{is_in_range};
ghost use Rattle.rv_memory.specs.Start.{stack_pointer};
ghost use Rattle.elf_image.specs.memory.HiddenFields.{hidden_fields, is_hidden_field};
ghost use Rattle.sym_machine.specs.HiddenEntries.{is_hidden_entry, at_phdr, at_phnum, at_entry, auxiliary_value};
ghost use Rattle.sym_machine.specs.SymStart.{symbol_of, code_cell_byte, entry_byte, hidden_byte};
ghost use Rattle.sym_machine.specs.internal.Fields.{range_of_field, AreLow};

use crate::fields::Fields;
use crate::hidden::{entry_address, hidden_fields, is_hidden_field};
use crate::other_bytes::{OtherByte, OtherBytes};
use crate::value::{CodeSymbol, Pointer};
use elf_image::segment::{PHDR_SIZE, PT_LOAD};
use elf_image::{Elf, Segment};
use rb_bytes::fault::NoMemory;
use rv_code::cell::{CellKind, CodeCell};
use std::alloc::Global;

// The size of a file's header in bytes. gABI, "ELF Header".
const HEADER_SIZE: u128 = 64;

// The symbol that a code cell holds.
fn symbol_of(kind: CellKind) -> CodeSymbol
    ensures { result ≡ symbol_of kind }
{
    match kind {
        CellKind::Abs { to } => CodeSymbol::Points(Pointer::Code(to)),
        CellKind::Diff { to, from } => CodeSymbol::Diff { to, from },
    }
}

impl OtherBytes {
    ghost use Rattle.sym_machine.specs.declared.value.MemoryByte.TheVariants.{Hidden};
    ghost use Rattle.sym_machine.specs.internal.OtherBytes.{other_byte};
    ghost use Rattle.sym_machine.specs.internal.SpecialBytes.{special, symbol_over, hidden_over};
    ghost use Rattle.sym_machine.specs.internal.SpecialBytes.{covers_header, covers_between};

    fn add_byte(&mut self, address: u64, byte: OtherByte) -> Result<(), NoMemory>
        ensures { OnOk result ((q : ℕ) → other_byte self.new q ≡
            (if q == address then Some byte else other_byte self.old q)) }
    {
        self.reserve(address)?;
        self.put(address, byte);
        Ok(())
    }

    // Puts all bytes of a symbol, stored in `width` bytes, from `start` on.
    fn add_symbol(&mut self, start: u64, width: u8, symbol: CodeSymbol) -> Result<(), NoMemory>
        requires { start + width ≤ 2 ^ 64 }
        ensures { OnOk result ((q : ℕ) → special self.new q
            ≡ symbol_over symbol width (record { start = start; size = width }) self.old q) }
    {
        for index in 0..width {
            let byte = OtherByte::Symbol {
                symbol,
                width,
                index,
            };
            self.add_byte(start + index as u64, byte)?;
        }
        Ok(())
    }

    // Hides `size` bytes from an address on.
    fn hide(&mut self, start: u64, size: u64) -> Result<(), NoMemory>
        requires { start + size ≤ 2 ^ 64 }
        ensures { OnOk result ((q : ℕ) → special self.new q ≡ hidden_over (record { start = start; size = size })
            self.old q) }
    {
        for index in 0..size {
            self.add_byte(start + index, OtherByte::Hidden)?;
        }
        Ok(())
    }

    // Adds the code cells, from the last to the first: if cells share a byte, the first of them has it, and a cell that
    // is added later overwrites.
    fn add_cells(&mut self, cells: &[CodeCell]) -> Result<(), NoMemory>
        requires none { (q : ℕ) → special self.old q ≡ None }
        requires low { All (λ cell. cell.addr + cell.width ≤ 2 ^ 64) cells.now }
        ensures { OnOk result ((q : ℕ) → special self.new q ≡ code_cell_byte cells.now q) }
    {
        let mut left = cells.len();
        while left > 0 {
            left -= 1;
            let cell = cells[left];
            self.add_symbol(cell.addr, cell.width, symbol_of(cell.kind))?;
        }
        Ok(())
    }

    // Hides bytes that a segment loads. Only bytes of the file's header and of the program header table can be in
    // hidden fields, so no others are looked at.
    fn hide_in_segment(&mut self, elf: &Elf, fields: &Fields, p: &Segment) -> Result<(), NoMemory>
        requires low { AreLow elf.now.segments.items }
        requires one { Contains elf.now.segments.items p.now }
        ensures { OnOk result ((tight : Bool) → map range_of_field fields.now.list.items ≡ hidden_fields elf.now tight →
            (q : ℕ) → special self.new q
            ≡ (if covers_header elf.now q p.now && is_hidden_field elf.now tight q then Some Hidden else special
            self.old q)) }
    {
        let segments = elf.segments.as_slice();
        let table = PHDR_SIZE as u128 * segments.len() as u128;
        self.hide_between(elf, fields, p, 0, HEADER_SIZE)?;
        self.hide_between(elf, fields, p, elf.phoff, elf.phoff as u128 + table)
    }

    // Hides bytes that a segment loads from the file, from the offset `from` to before `to`.
    fn hide_between(
        &mut self,
        elf: &Elf,
        fields: &Fields,
        p: &Segment,
        from: u64,
        to: u128,
    ) -> Result<(), NoMemory>
        requires low { AreLow elf.now.segments.items }
        requires one { Contains elf.now.segments.items p.now }
        ensures { OnOk result ((tight : Bool) → map range_of_field fields.now.list.items ≡ hidden_fields elf.now tight →
            (q : ℕ) → special self.new q
            ≡ (if covers_between from to q p.now && is_hidden_field elf.now tight q then Some Hidden else special
            self.old q)) }
    {
        if p.kind != PT_LOAD {
            return Ok(());
        }
        let skipped = from.saturating_sub(p.offset);
        let end = file_end(p, to);
        if skipped >= end {
            return Ok(());
        }
        self.hide_run(elf, fields, p.vaddr + skipped, end - skipped)
    }

    // Hides bytes of hidden fields at `size` addresses from `start` on.
    fn hide_run(
        &mut self,
        elf: &Elf,
        fields: &Fields,
        start: u64,
        size: u64,
    ) -> Result<(), NoMemory>
        requires { start + size ≤ 2 ^ 64 }
        ensures { OnOk result ((tight : Bool) → map range_of_field fields.now.list.items ≡ hidden_fields elf.now tight →
            (q : ℕ) → special self.new q ≡ (if (nat_le start q && nat_lt q (start + size))
            && is_hidden_field elf.now tight q
            then Some Hidden else special self.old q)) }
    {
        for index in 0..size {
            self.hide_at(elf, fields, start + index)?;
        }
        Ok(())
    }

    // Hides the byte at an address, if it is in a hidden field.
    fn hide_at(&mut self, elf: &Elf, fields: &Fields, address: u64) -> Result<(), NoMemory>
        ensures { OnOk result ((tight : Bool) → map range_of_field fields.now.list.items ≡ hidden_fields elf.now tight →
            (q : ℕ) → special self.new q
            ≡ (if q == address && is_hidden_field elf.now tight q then Some Hidden else special self.old q)) }
    {
        if is_hidden_field(elf, fields, address) {
            self.add_byte(address, OtherByte::Hidden)?;
        }
        Ok(())
    }

    fn hide_fields(&mut self, alloc: Global, elf: &Elf, tight: bool) -> Result<(), NoMemory>
        requires low { AreLow elf.now.segments.items }
        ensures { OnOk result ((q : ℕ) → special self.new q
            ≡ (if is_hidden_field elf.now tight q then Some Hidden else special self.old q)) }
    {
        let list = hidden_fields(alloc, elf, tight)?;
        let fields = Fields::new(alloc, list, elf.file.len())?;
        self.hide_in_segments(elf, &fields, &elf.segments)
    }

    fn hide_in_segments(
        &mut self,
        elf: &Elf,
        fields: &Fields,
        segments: &[Segment],
    ) -> Result<(), NoMemory>
        requires low { AreLow elf.now.segments.items }
        requires all { segments.now ≡ elf.now.segments.items }
        ensures { OnOk result ((tight : Bool) → map range_of_field fields.now.list.items ≡ hidden_fields elf.now tight →
            (q : ℕ) → special self.new q
            ≡ (if list_any (covers_header elf.now q) segments.now && is_hidden_field elf.now tight q then Some Hidden
            else special self.old q)) }
    {
        for index in 0..segments.len() {
            self.hide_in_segment(elf, fields, &segments[index])?;
        }
        Ok(())
    }

    // In a tight file, hides the values of AT_PHNUM and AT_PHDR, since the program header table moves and grows.
    fn hide_entries(&mut self, pointer: u64, count: usize, tight: bool) -> Result<(), NoMemory>
        requires low { pointer + 8 * (count + 20) ≤ 2 ^ 64 }
        ensures { OnOk result ((args : List (List ℕ)) → pointer ≡ stack_pointer args → count ≡ length args →
            (q : ℕ) → special self.new q ≡ (if is_hidden_entry tight args q then Some Hidden else special self.old q)) }
    {
        if !tight {
            return Ok(());
        }
        self.hide(auxiliary_value(pointer, count, 2), 8)?;
        self.hide(auxiliary_value(pointer, count, 0), 8)
    }

    // Adds the entry point: the value of AT_ENTRY, and the field `e_entry` if all of it is loaded.
    fn add_entry(&mut self, elf: &Elf, pointer: u64, count: usize) -> Result<(), NoMemory>
        requires low { AreLow elf.now.segments.items }
        requires stack { pointer + 8 * (count + 20) ≤ 2 ^ 64 }
        ensures { OnOk result ((args : List (List ℕ)) → pointer ≡ stack_pointer args → count ≡ length args →
            (q : ℕ) → special self.new q ≡ option_or (entry_byte elf.now args q) (special self.old q)) }
    {
        let symbol = CodeSymbol::Points(Pointer::Code(elf.entry));
        self.add_symbol(auxiliary_value(pointer, count, 4), 8, symbol)?;
        match entry_address(elf) {
            Some(address) => self.add_symbol(address, 8, symbol),
            None => Ok(()),
        }
    }

    /// The bytes that aren't numbers at the start of a program with `count` arguments and this stack pointer.
    pub(crate) fn start(
        alloc: Global,
        elf: &Elf,
        cells: &[CodeCell],
        pointer: u64,
        count: usize,
        tight: bool,
    ) -> Result<OtherBytes, NoMemory>
        requires low { AreLow elf.now.segments.items }
        requires cells { All (λ cell. cell.addr + cell.width ≤ 2 ^ 64) cells.now }
        requires stack { pointer + 8 * (count + 20) ≤ 2 ^ 64 }
        ensures { IfOk result (λ others. (args : List (List ℕ)) → pointer ≡ stack_pointer args → count ≡ length args →
            (q : ℕ) → special others q
            ≡ option_or (entry_byte elf.now args q)
            (option_or (hidden_byte elf.now tight args q) (code_cell_byte cells.now q))) }
    {
        let mut others = OtherBytes::new(alloc)?;
        others.add_cells(cells)?;
        others.hide_fields(alloc, elf, tight)?;
        others.hide_entries(pointer, count, tight)?;
        others.add_entry(elf, pointer, count)?;
        Ok(others)
    }
}

// The number of bytes of the file below the offset `to` that a segment loads.
fn file_end(p: &Segment, to: u128) -> u64
    ensures { result ≡ min (to - p.now.offset) (min p.now.filesz p.now.memsz) }
{
    let loaded = p.filesz.min(p.memsz);
    let before = to.saturating_sub(p.offset as u128);
    if before < loaded as u128 {
        before as u64
    } else {
        loaded
    }
}

// The address of the value of entry `n` of the auxiliary vector, counted from 0: AT_PHDR, AT_PHENT, AT_PHNUM, AT_PAGESZ
// and AT_ENTRY. Before it are the argument count, the addresses of the program's name and of `count` arguments, the
// ends of two lists, `n` entries of two numbers, and this entry's type.
fn auxiliary_value(pointer: u64, count: usize, n: u64) -> u64
    requires low { pointer + 8 * (count + 20) ≤ 2 ^ 64 }
    requires few { n ≤ 4 }
    ensures is { (args : List (List ℕ)) → pointer ≡ stack_pointer args → count ≡ length args →
        (auxiliary_value args n) ≡ record { start = result; size = 8 } }
    ensures low { result + 8 ≤ 2 ^ 64 }
{
    pointer + 8 * (count as u64 + 5 + 2 * n)
}
