// Program headers.
ghost use Rattle.std.specs.Prelude.{◌≡◌, ◌≤◌, ◌<◌, ◌+◌, ◌^◌, IfSome, find, length, option_copied};
ghost use Rattle.elf_image.specs.memory.HiddenFields.{e_entry_field};
ghost use Rattle.elf_image.specs.memory.LoadedBytes.{loads_range};

use crate::header::E_ENTRY;
use crate::number::{is_set, u32_at, u64_at};

/// The type of a segment that is loaded. gABI, "Program Header".
pub const PT_LOAD: u32 = 1;

/// The type of the segment that a dynamic linker reads. gABI, "Program Header".
pub const PT_DYNAMIC: u32 = 2;

/// The type of the segment that names a dynamic linker. gABI, "Program Header".
pub const PT_INTERP: u32 = 3;

/// The type of a program header with the address of the unwind table index. LSB, "Program Headers".
pub const PT_GNU_EH_FRAME: u32 = 0x6474_e550;

/// The flag of an executable segment. gABI, "Segment Permissions".
pub const PF_X: u32 = 1;

/// The flag of a writable segment.
pub const PF_W: u32 = 2;

/// The flag of a readable segment.
pub const PF_R: u32 = 4;

/// All loaded addresses are below this limit, so that each pair of an upper and a lower part can reach them. It is
/// below 2^31, so an address in four bytes has the same value as a signed and as an unsigned number.
pub const ADDRESS_END: u64 = 0x7fff_0000;

/// The size of a program header in bytes.
pub const PHDR_SIZE: usize = 56;

// The offsets of fields in a program header, after its type. gABI, "Program Header".

/// The flags.
pub const P_FLAGS: usize = 4;

/// The offset of the segment in the file.
pub const P_OFFSET: usize = 8;

/// The address at which the segment is loaded.
pub const P_VADDR: usize = 16;

/// The physical address, which is not used.
pub const P_PADDR: usize = 24;

/// The number of bytes in the file.
pub const P_FILESZ: usize = 32;

/// The number of bytes in memory.
pub const P_MEMSZ: usize = 40;

/// The alignment.
pub const P_ALIGN: usize = 48;

/// A program header, with its fields in the order of the file. Offsets and sizes are in bytes.
/// gABI, "Program Header".
#[derive(Clone, Copy, PartialEq, Eq)]
pub struct Segment {
    /// `p_type`.
    pub kind: u32,
    /// `p_flags`.
    pub flags: u32,
    /// `p_offset`: the file offset of its bytes.
    pub offset: u64,
    /// `p_vaddr`: the address in memory.
    pub vaddr: u64,
    /// `p_paddr`.
    pub paddr: u64,
    /// `p_filesz`: the number of bytes that come from the file.
    pub filesz: u64,
    /// `p_memsz`: the number of bytes in memory.
    pub memsz: u64,
    /// `p_align`.
    pub align: u64,
}

impl Segment {
    ghost use Rattle.elf_image.specs.file.Header.{segment_at};
    ghost use Rattle.elf_image.specs.memory.Image.{end_of, has_flag, has_memory, loads_address};
    ghost use Rattle.elf_image.specs.memory.LoadedBytes.{loads_range, offset_in};
    ghost use Rattle.elf_image.specs.faults.SegmentLayout.{is_code_segment};

    /// The program header at an offset of a file.
    pub fn at(file: &[u8], offset: usize) -> Segment
        requires { offset + PHDR_SIZE ≤ length file.now }
        ensures { result ≡ segment_at file.now offset }
    {
        Segment {
            kind: u32_at(file, offset),
            flags: u32_at(file, offset + P_FLAGS),
            offset: u64_at(file, offset + P_OFFSET),
            vaddr: u64_at(file, offset + P_VADDR),
            paddr: u64_at(file, offset + P_PADDR),
            filesz: u64_at(file, offset + P_FILESZ),
            memsz: u64_at(file, offset + P_MEMSZ),
            align: u64_at(file, offset + P_ALIGN),
        }
    }

    /// Whether one of the flags `PF_R`, `PF_W` and `PF_X` is set.
    pub fn has_flag(&self, flag: u32) -> bool
        requires { 0 < flag }
        ensures { result ≡ has_flag flag self.now }
    {
        is_set(self.flags as u64, flag as u64)
    }

    /// The address at which the segment ends.
    pub fn end(&self) -> u128
        ensures end { result ≡ end_of self.now }
        ensures low { result < 2 ^ 65 }
    {
        self.vaddr as u128 + self.memsz as u128
    }

    /// Whether the segment loads an address.
    pub fn loads(&self, address: u64) -> bool
        ensures { result ≡ loads_address address self.now }
    {
        self.kind == PT_LOAD && self.vaddr <= address && address - self.vaddr < self.memsz
    }

    /// The file offset of the byte at one of the segment's addresses, if the byte comes from the file.
    pub fn offset_of(&self, address: u64) -> Option<u128>
        requires { self.now.vaddr ≤ address }
        ensures value { result ≡ offset_in address self.now }
        ensures below { IfSome result (λ offset. offset < 2 ^ 65) }
    {
        let place = address - self.vaddr;
        if place < self.filesz {
            Some(self.offset as u128 + place as u128)
        } else {
            None
        }
    }

    /// Whether the segment loads all of the file's `size` bytes from `start` on.
    pub fn loads_range(&self, start: u64, size: u64) -> bool
        ensures { result ≡ loads_range (record { start = start; size = size }) self.now }
    {
        self.kind == PT_LOAD
            && self.offset <= start
            && start as u128 + size as u128
                <= self.offset as u128 + self.filesz.min(self.memsz) as u128
    }

    /// Whether the segment is loaded and has at least one byte of memory.
    pub fn has_memory(&self) -> bool
        ensures { result ≡ has_memory self.now }
    {
        self.kind == PT_LOAD && self.memsz > 0
    }

    /// Whether the segment is loaded and executable.
    pub fn is_code(&self) -> bool
        ensures { result ≡ is_code_segment self.now }
    {
        self.kind == PT_LOAD && self.has_flag(PF_X)
    }
}

/// The first segment that loads a range of the file.
pub fn range_segment(segments: &[Segment], start: u64, size: u64) -> Option<&Segment>
    ensures first { option_copied result ≡ find (loads_range (record { start = start; size = size })) segments.now }
    ensures within { IfSome result (λ p. p.now.offset ≤ start) }
{
    segments.iter().find(|p| p.loads_range(start, size))
}

/// The first segment that loads all of the field `e_entry`.
pub fn entry_segment(segments: &[Segment]) -> Option<&Segment>
    ensures { option_copied result ≡ find (loads_range e_entry_field) segments.now }
{
    segments.iter().find(|p| p.loads_range(E_ENTRY as u64, 8))
}
